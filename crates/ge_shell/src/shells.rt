// Programs behind a shell.
ghost use Rattle.std.specs.Prelude.{◌≡◌, ◌<◌, ◌≤◌, None, IfSome, length};
ghost use Rattle.ge_outside.specs.Faults.{Rose};

use crate::shepherds::begin;
use crate::sights::{end, exit_by_sight, exit_left};
use ge_collections::{List, Text};
use ge_outside::Failed;
use ge_spawner::{Description, Spawner, VANISHED, read_id};
use std::alloc::Global;
use std::fs::{File, Files};
use std::process::{Child, Processes};
use std::{io, time};

/// The system's programs, each behind a shell that outlives the spawner: it leaves the program's process and its exit as
/// files of a folder. Each call that fails raises its count of faults by one.
#[derive(Drop)]
pub struct ShellSpawner<'a, R: Processes> {
    rt: &'a R,
    alloc: Global,
    dir: String,
    host: String,
    // what the program that is started next may be told
    described: Option<Description>,
    // the shepherds that this spawner began and whose exits weren't told yet
    shepherds: Vec<(u64, Child<R::Started>)>,
    // programs that weren't seen though they were begun, and since when
    unseen: Vec<(u64, u64)>,
    faults: u64,
}

impl<'a, R: AllocGlobal + Processes> ShellSpawner<'a, R> {
    /// A spawner on a host, whose files stand in a folder that is there.
    pub fn new(rt: &'a R, dir: String, host: String) -> Self
        ensures faults { result.faults ≡ 0 }
    {
        let alloc = rt.alloc();
        ShellSpawner {
            rt,
            alloc,
            dir,
            host,
            described: None,
            shepherds: Vec::new(alloc),
            unseen: Vec::new(alloc),
            faults: 0,
        }
    }
}

// The place of a number among those that are known.
fn place_of<T>(known: &[(u64, T)], id: u64) -> Option<usize>
    ensures { IfSome result (λ at. at < length known.now) }
{
    known.iter().position(|one| one.0 == id)
}

// Whether a shepherd of this spawner runs; None where it began none of this number.
fn own_runs<R: Processes>(
    shepherds: &mut Vec<(u64, Child<R::Started>)>,
    id: u64,
) -> io::Result<Option<bool>> {
    let Some(at) = place_of(shepherds.as_slice(), id) else {
        return Ok(None);
    };
    Ok(Some(shepherds[at].1.try_wait()?.is_none()))
}

// How a program ended; None while it runs. A shepherd that has ended has left the exit before, so it is asked first.
fn exit_now<R: AllocGlobal + Files + Processes + time::Clock>(
    rt: &R,
    dir: &str,
    shepherds: &mut Vec<(u64, Child<R::Started>)>,
    unseen: &mut Vec<(u64, u64)>,
    id: u64,
) -> io::Result<Option<u8>> {
    let own = own_runs::<R>(shepherds, id)?;
    if let Some(exit) = exit_left(rt, dir, id)? {
        return Ok(Some(exit));
    }
    match own {
        Some(true) => Ok(None),
        Some(false) => Ok(Some(VANISHED)),
        None => exit_by_sight(rt, dir, unseen, id),
    }
}

// Lets go of a shepherd whose exit is told. It has nothing left to do but to end, which the system keeps until it is asked.
fn release<R: Processes>(shepherds: &mut Vec<(u64, Child<R::Started>)>, id: u64) {
    if let Some(at) = place_of(shepherds.as_slice(), id) {
        let (_, mut child) = shepherds.swap_remove(at);
        let _ = child.wait();
    }
}

// A call failed: the count rises.
fn failed(faults: &mut u64) -> Failed
    ensures later { faults.old ≤ faults.new }
    ensures rose { Rose faults.old faults.new }
{
    *faults = faults.saturating_add(1);
    Failed
}

impl<R: AllocGlobal + Files<File = File> + Processes + time::Clock> Spawner
    for ShellSpawner<'_, R> {
    ghost told = { λ _. None };

    ghost spawn_faults = { λ s. s.faults };

    /// Kept for the environment of the program that is started next.
    fn describe(&mut self, description: Description) {
        self.described = Some(description);
    }

    /// Starts a shepherd. It fails where the words can't be handed over, as one that is no text in UTF-8.
    fn start(&mut self, words: &List<Text>) -> Result<u64, Failed> {
        let Some(id) = read_id(words) else {
            return Err(failed(&mut self.faults));
        };
        match begin(
            self.rt,
            self.dir.as_str(),
            self.host.as_str(),
            id,
            self.described,
            words,
        ) {
            Ok(child) => {
                // Where there is no memory to keep it, it is asked as one that an earlier spawner began.
                let _ = self.shepherds.push((id, child));
                Ok(id)
            }
            Err(_) => Err(failed(&mut self.faults)),
        }
    }

    /// One look at the files and, unless a shepherd left an exit there, at what still runs. What an earlier spawner began and
    /// isn't seen has vanished only when that has lasted for some seconds.
    fn poll(&mut self, id: u64) -> Result<Option<u8>, Failed> {
        match exit_now(
            self.rt,
            self.dir.as_str(),
            &mut self.shepherds,
            &mut self.unseen,
            id,
        ) {
            Ok(Some(exit)) => {
                release::<R>(&mut self.shepherds, id);
                Ok(Some(exit))
            }
            Ok(None) => Ok(None),
            Err(_) => Err(failed(&mut self.faults)),
        }
    }

    /// Sends the signal 9 to the program itself, and not to what it started.
    fn kill(&mut self, id: u64) -> Result<(), Failed> {
        match end(self.rt, self.dir.as_str(), id) {
            Ok(true) => Ok(()),
            _ => Err(failed(&mut self.faults)),
        }
    }
}
