// The past of a disk in memory.
ghost use Rattle.ge_limits.specs.Limits.{area_bytes};
ghost use Rattle.std.specs.Prelude.{◌≡◌, ◌≤◌, ◌+◌, ◌^◌, ◌∷◌, [], List, ℕ, length, IfOk, OnOk, OnErr};
ghost use Rattle.ge_model_journal.specs.Disk.{settled_content, overwritten, IsWithin, told_written, told_synced};
ghost use Rattle.ge_outside.specs.Starts.{start_of};
ghost use Rattle.ge_outside.specs.Steps.{after_steps, Keeps};
ghost use Rattle.ge_outside.specs.declared.memory_steps.Step.TheVariants.{Wrote, Synced};

use crate::memory_steps::{Step, Write};
use crate::overwriting::overwrite;
use crate::replays::replay;
use crate::showing::Shown;
use std::alloc::{AllocError, Global};

/// What a disk in memory holds and what was done to it, so that it tells what it held at each moment.
#[derive(Drop)]
pub struct History {
    // what it began with, from the first write on
    pub first: Option<Vec<u8>>,
    // what a read gives
    pub bytes: Vec<u8>,
    pub steps: Vec<Step>,
    ghost tied: { bytes.items ≡ (after_steps (settled_content (start_of first bytes.items)) steps.items).bytes },
}

impl History {
    ghost use Rattle.ge_outside.specs.Histories.{history_told, IsNewest};
    ghost use Rattle.ge_outside.specs.Shown.{shown_content};

    pub fn new(alloc: Global, bytes: Vec<u8>) -> Self
        ensures { history_told result ≡ settled_content bytes.items ∷ [] }
    {
        History {
            first: None,
            bytes,
            steps: Vec::new(alloc),
        }
    }

    /// A write, with a copy of its bytes.
    fn copied(alloc: Global, at: u64, piece: &[u8]) -> Result<Write, AllocError>
        requires { at + length piece.now ≤ area_bytes }
        ensures at { IfOk result (λ write. write.at ≡ at) }
        ensures piece { IfOk result (λ write. write.piece.items ≡ piece.now) }
    {
        let piece = piece.to_vec(alloc)?;
        Ok(Write { at, piece })
    }

    // Makes a write and keeps it, or does neither.
    pub fn write(&mut self, alloc: Global, at: u64, piece: &[u8]) -> Result<(), AllocError>
        requires below_limit { at + length piece.now ≤ area_bytes }
        requires within { IsWithin (history_told self.old) at }
        ensures written { OnOk result (history_told self.new ≡ told_written (history_told self.old) at piece.now) }
        ensures stays { OnErr result (history_told self.new ≡ history_told self.old) }
    {
        keep_first(alloc, &mut self.first, &self.bytes)?;
        keep_write(alloc, &mut self.bytes, &mut self.steps, at, piece)?;
        Ok(())
    }

    /// What the disk holds now.
    pub fn shown(&self, alloc: Global) -> Result<Shown, AllocError>
        ensures { IfOk result (λ shown. IsNewest (shown_content shown) (history_told self.now)) }
    {
        match &self.first {
            Some(first) => replay(alloc, first.as_slice(), self.steps.as_slice()),
            None => replay(alloc, self.bytes.as_slice(), self.steps.as_slice()),
        }
    }

    /// Keeps a sync.
    pub fn sync(&mut self) -> Result<(), AllocError>
        ensures synced { OnOk result (history_told self.new ≡ told_synced (history_told self.old)) }
        ensures stays { OnErr result (history_told self.new ≡ history_told self.old) }
    {
        self.steps.push(Step::Synced)?;
        Ok(())
    }
}

// Keeps a copy of the bytes that a disk began with, unless there is one.
fn keep_first(alloc: Global, first: &mut Option<Vec<u8>>, bytes: &Vec<u8>) -> Result<(), AllocError>
    ensures same { start_of first.new bytes.now.items ≡ start_of first.old bytes.now.items }
    ensures kept { OnOk result ((other : List ℕ) → start_of first.new other ≡ start_of first.old bytes.now.items) }
{
    if first.is_none() {
        *first = Some(bytes.to_vec(alloc)?);
    }
    Ok(())
}

// A write, with a copy of its bytes.
fn copied(alloc: Global, at: u64, piece: &[u8]) -> Result<Write, AllocError>
    requires { at + length piece.now ≤ area_bytes }
    ensures at { IfOk result (λ write. write.at ≡ at) }
    ensures piece { IfOk result (λ write. write.piece.items ≡ piece.now) }
{
    let piece = piece.to_vec(alloc)?;
    Ok(Write { at, piece })
}

// Makes a write and keeps it, or does neither.
fn keep_write(
    alloc: Global,
    bytes: &mut Vec<u8>,
    steps: &mut Vec<Step>,
    at: u64,
    piece: &[u8],
) -> Result<(), AllocError>
    requires below_limit { at + length piece.now ≤ area_bytes }
    requires within { at ≤ length bytes.old.items }
    ensures bytes { OnOk result (bytes.new.items ≡ overwritten bytes.old.items at piece.now) }
    ensures step { OnOk result (Keeps steps.old.items steps.new.items at piece.now) }
    ensures bytes_stay { OnErr result (bytes.new.items ≡ bytes.old.items) }
    ensures steps_stay { OnErr result (steps.new.items ≡ steps.old.items) }
{
    let write = copied(alloc, at, piece)?;
    steps.push(Step::Wrote(write))?;
    if overwrite(bytes, at as usize, piece).is_err() {
        let _ = steps.pop();
        return Err(AllocError);
    }
    Ok(())
}
