// What is seen of a program that an earlier spawner began.
use crate::files::{is_of_this_boot, is_there, path_of, read_number};
use crate::shepherds::shell;
use ge_spawner::VANISHED;
use std::fs::Files;
use std::process::{Processes, Stdio};
use std::{io, time};

/// For so many seconds a program that isn't seen may still be about to leave its process's number or its exit: its shepherd
/// takes a moment for either.
const GRACE: u64 = 10;

// What is seen of a program.
#[derive(Clone, Copy, PartialEq, Eq)]
enum Sight {
    // none was begun in this boot
    Never,
    Runs,
    // it may be about to leave its process's number or its exit, or it vanished
    Unseen,
}

// Runs a text by `sh` for a process, and tells whether it did what it says.
fn signal<R: AllocGlobal + Processes>(rt: &R, text: &str, pid: u32) -> io::Result<bool> {
    let alloc = rt.alloc();
    let mut command = shell(alloc, text)?;
    command
        .arg(format!(in alloc; "{pid}")?)?
        .stderr(Stdio::null());
    Ok(command.status(rt)?.success())
}

// The process of a program, where it is known. The number 0 names no process but the asker's whole group.
fn pid_of<R: AllocGlobal + Files>(rt: &R, path: &str) -> io::Result<Option<u32>> {
    match read_number(rt, path)? {
        Some(0) => Ok(None),
        pid => Ok(pid),
    }
}

fn sight_of<R: AllocGlobal + Files + Processes>(rt: &R, dir: &str, id: u64) -> io::Result<Sight> {
    let path = path_of(rt.alloc(), dir, id, "pid")?;
    if !is_there(rt, path.as_str())? || !is_of_this_boot(rt, dir, id)? {
        return Ok(Sight::Never);
    }
    match pid_of(rt, path.as_str())? {
        Some(pid) if signal(rt, "kill -0 \"$0\"", pid)? => Ok(Sight::Runs),
        _ => Ok(Sight::Unseen),
    }
}

// The seconds of the clock; 0 where it can't be read.
fn seconds<R: time::Clock>(clock: &R) -> u64 {
    match clock.since_1970() {
        Ok(since) => since.as_secs(),
        Err(_) => 0,
    }
}

// Whether a program hasn't been seen for so long that it vanished.
fn has_vanished(unseen: &mut Vec<(u64, u64)>, id: u64, now: u64) -> io::Result<bool> {
    for (other, since) in unseen.iter() {
        if *other == id {
            return Ok(now.saturating_sub(*since) >= GRACE);
        }
    }
    unseen.push((id, now))?;
    Ok(false)
}

/// How a program ended, by what is seen of it; None while it runs or may do so. What isn't seen is noted with the moment.
pub(crate) fn exit_by_sight<R: AllocGlobal + Files + Processes + time::Clock>(
    rt: &R,
    dir: &str,
    unseen: &mut Vec<(u64, u64)>,
    id: u64,
) -> io::Result<Option<u8>> {
    let vanished = match sight_of(rt, dir, id)? {
        Sight::Never => true,
        Sight::Runs => false,
        Sight::Unseen => has_vanished(unseen, id, seconds(rt))?,
    };
    Ok(vanished.then_some(VANISHED))
}

/// The exit that a shepherd left; None where there is none yet.
pub(crate) fn exit_left<R: AllocGlobal + Files>(
    rt: &R,
    dir: &str,
    id: u64,
) -> io::Result<Option<u8>> {
    let status = read_number(rt, path_of(rt.alloc(), dir, id, "status")?.as_str())?;
    Ok(status.map(|exit| u8::try_from(exit).unwrap_or(VANISHED)))
}

/// Sends the signal 9 to a program that was begun in this boot and whose process is known, and tells whether that was done.
pub(crate) fn end<R: AllocGlobal + Files + Processes>(
    rt: &R,
    dir: &str,
    id: u64,
) -> io::Result<bool> {
    if !is_of_this_boot(rt, dir, id)? {
        return Ok(false);
    }
    match pid_of(rt, path_of(rt.alloc(), dir, id, "pid")?.as_str())? {
        Some(pid) => signal(rt, "kill -9 \"$0\"", pid),
        None => Ok(false),
    }
}
