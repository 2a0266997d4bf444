// Programs in memory.
ghost use Rattle.std.specs.Prelude.{◌≡◌, ◌≤◌, [], Some, OnOk, OnErr, map};
ghost use Rattle.ge_outside.specs.Faults.{Rose};
ghost use Rattle.ge_spawner.specs.Memory.{exit_among};

use crate::{Spawner, VANISHED, read_id};
use ge_collections::{List, Text, Twin};
use ge_outside::{Failed, Schedule};
use std::alloc::{AllocError, Global};

/// A program that was started, and how it ended.
#[derive(Drop)]
pub struct Program {
    pub id: u64,
    pub words: List<Text>,
    pub exit: u8,
}

/// Programs in memory. The k-th that is started ends at once, with the k-th of the chosen exits, or with 0 where there are
/// fewer. Chosen calls fail.
#[derive(Drop)]
pub struct MemSpawner {
    alloc: Global,
    exits: Vec<u8>,
    programs: Vec<Program>,
    kills: Vec<u64>,
    schedule: Schedule,
    faults: u64,
}

impl MemSpawner {
    ghost use Rattle.ge_spawner.specs.Memory.{begun, spawner_told, spawner_faults};
    ghost use Rattle.ge_spawner.specs.Spawning.{Starting};

    /// No program was started yet. The calls whose numbers, counted from 1, are in `fails` fail; `describe` counts as none.
    pub fn new(alloc: Global, exits: Vec<u8>, fails: Vec<u64>) -> Self
        ensures told { spawner_told result ≡ record { starts = []; kills = []; ends = [] } }
        ensures faults { spawner_faults result ≡ 0 }
    {
        MemSpawner {
            alloc,
            exits,
            programs: Vec::new(alloc),
            kills: Vec::new(alloc),
            schedule: Schedule::new(fails),
            faults: 0,
        }
    }

    /// The programs that were started, in order.
    pub fn programs(&self) -> &[Program]
        ensures { map begun result.now ≡ (spawner_told self.now).starts }
    {
        self.programs.as_slice()
    }

    /// The numbers that were killed, in order.
    pub fn kills(&self) -> &[u64]
        ensures { result.now ≡ (spawner_told self.now).kills }
    {
        self.kills.as_slice()
    }

    // How the program that is started next ends.
    fn next_exit(&self) -> u8 {
        self.exits.get(self.programs.len()).copied().unwrap_or(0)
    }

    // Starts a program that was named.
    fn begin(&mut self, id: u64, words: &List<Text>) -> Result<(), AllocError>
        ensures started { OnOk result (Starting (spawner_told self.old) (spawner_told self.new) id words.now) }
        ensures kept { OnErr result (spawner_told self.new ≡ spawner_told self.old) }
        ensures faults { spawner_faults self.new ≡ spawner_faults self.old }
    {
        let exit = self.next_exit();
        let words = words.twin(self.alloc)?;
        self.programs.push(Program { id, words, exit })?;
        Ok(())
    }

    // A call failed: the count rises.
    fn failed(&mut self) -> Failed
        ensures told { spawner_told self.new ≡ spawner_told self.old }
        ensures later { spawner_faults self.old ≤ spawner_faults self.new }
        ensures rose { Rose (spawner_faults self.old) (spawner_faults self.new) }
    {
        self.faults = self.faults.saturating_add(1);
        Failed
    }
}

// How the first of these programs that has the number ended.
fn exit_among(programs: &[Program], id: u64) -> u8
    ensures { Some result ≡ exit_among programs.now id }
{
    for program in programs {
        if program.id == id {
            return program.exit;
        }
    }
    VANISHED
}

impl Spawner for MemSpawner {
    ghost use Rattle.ge_spawner.specs.Memory.{spawner_told, spawner_faults};

    ghost told = { λ s. Some (spawner_told s) };

    ghost spawn_faults = { spawner_faults };

    /// It fails at the calls that were chosen, where the first word is no number, and where there is no memory.
    fn start(&mut self, words: &List<Text>) -> Result<u64, Failed> {
        if self.schedule.next_fails() {
            return Err(self.failed());
        }
        let Some(id) = read_id(words) else {
            return Err(self.failed());
        };
        match self.begin(id, words) {
            Ok(()) => Ok(id),
            Err(_) => Err(self.failed()),
        }
    }

    /// It fails exactly at the calls that were chosen.
    fn poll(&mut self, id: u64) -> Result<Option<u8>, Failed> {
        if self.schedule.next_fails() {
            return Err(self.failed());
        }
        Ok(Some(exit_among(self.programs.as_slice(), id)))
    }

    /// It fails at the calls that were chosen, and where there is no memory.
    fn kill(&mut self, id: u64) -> Result<(), Failed> {
        if self.schedule.next_fails() || self.kills.push(id).is_err() {
            return Err(self.failed());
        }
        Ok(())
    }
}
