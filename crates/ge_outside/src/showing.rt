// What a disk holds at a moment, as data.
ghost use Rattle.std.specs.Prelude.{◌≡◌, ◌≤◌, vec_len, IfOk, OnOk};
ghost use Rattle.ge_model_journal.specs.Disk.{settled_content, content_written, content_synced};
ghost use Rattle.ge_outside.specs.Steps.{after_step};

use crate::memory_steps::{Step, Write};
use crate::overwriting::overwrite;
use std::alloc::{AllocError, Global};

/// What a disk holds at a moment.
#[derive(Drop)]
pub struct Shown {
    // what the last sync left
    pub synced: Vec<u8>,
    // what a read gives
    pub bytes: Vec<u8>,
    // the ranges written since that sync, each its place and its size
    pub pending: Vec<(u64, usize)>,
    // the greatest length since that sync
    pub longest: u64,
    ghost no_longer: { vec_len synced ≤ longest },
}

impl Shown {
    ghost use Rattle.ge_outside.specs.Shown.{shown_content};

    /// A disk that holds these bytes, with nothing pending.
    pub fn settled(alloc: Global, bytes: &[u8]) -> Result<Self, AllocError>
        ensures { IfOk result (λ shown. shown_content shown ≡ settled_content bytes.now) }
    {
        let synced = bytes.to_vec(alloc)?;
        let bytes = bytes.to_vec(alloc)?;
        Ok(Shown {
            longest: bytes.len() as u64,
            synced,
            bytes,
            pending: Vec::new(alloc),
        })
    }

    fn write(&mut self, write: &Write) -> Result<(), AllocError>
        ensures { OnOk result (shown_content self.new ≡ content_written (shown_content self.old) write.now.at write.now.piece.items) }
    {
        let size = write.piece.len();
        self.pending.push((write.at, size))?;
        let end = write.at + size as u64;
        self.longest = self.longest.max(end);
        overwrite(&mut self.bytes, write.at as usize, write.piece.as_slice())
    }

    fn sync(&mut self, alloc: Global) -> Result<(), AllocError>
        ensures { OnOk result (shown_content self.new ≡ content_synced (shown_content self.old)) }
    {
        let synced = self.bytes.to_vec(alloc)?;
        self.longest = synced.len() as u64;
        self.synced = synced;
        self.pending.clear();
        Ok(())
    }

    /// Takes one step more.
    pub fn take(&mut self, alloc: Global, step: &Step) -> Result<(), AllocError>
        ensures { OnOk result (shown_content self.new ≡ after_step (shown_content self.old) step.now) }
    {
        match step {
            Step::Wrote(write) => self.write(write),
            Step::Synced => self.sync(alloc),
        }
    }
}
