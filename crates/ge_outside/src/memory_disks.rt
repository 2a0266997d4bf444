// A disk in memory.
ghost use Rattle.ge_limits.specs.Limits.{area_bytes};
ghost use Rattle.std.specs.Prelude.{◌≡◌, ◌↔◌, ◌+◌, ◌^◌, ◌≤◌, ℕ, List, length, IfOk, IsErr, OnOk, OnErr};
ghost use Rattle.ge_model_journal.specs.Disk.{settled_content};
ghost use Rattle.ge_outside.specs.Starts.{start_of};

use crate::draws::draw_image;
use crate::histories::History;
use crate::schedules::{Schedule, fill};
use crate::{Disk, Failed};
use std::alloc::{AllocError, Global};

/// A disk in memory, of which chosen calls fail. It keeps each write and each sync since it was made, so
/// that it tells what it held at each moment. A write that fails may still reach it.
#[derive(Drop)]
pub struct MemDisk {
    alloc: Global,
    history: History,
    schedule: Schedule,
    faults: u64,
    syncs: u64,
}

impl MemDisk {
    ghost use Rattle.std.specs.Prelude.{[], ◌∷◌};
    ghost use Rattle.ge_outside.specs.MemoryDisks.{disk_told, disk_schedule, disk_fault_count, disk_sync_count};
    ghost use Rattle.ge_model_journal.specs.Disk.{IsImageNow, read_bytes};
    ghost use Rattle.ge_outside.specs.DrawnImages.{drawn_now};

    /// A disk that holds these bytes, with nothing pending. The calls whose numbers, counted from 1, are
    /// in `fails` fail.
    pub fn new(alloc: Global, bytes: Vec<u8>, fails: Vec<u64>) -> Self
        ensures told { disk_told result ≡ settled_content bytes.items ∷ [] }
        ensures faults { disk_fault_count result ≡ 0 }
        ensures syncs { disk_sync_count result ≡ 0 }
        ensures schedule { disk_schedule result ≡ record { fails = fails; calls = 0 } }
    {
        MemDisk {
            alloc,
            history: History::new(alloc, bytes),
            schedule: Schedule::new(fails),
            faults: 0,
            syncs: 0,
        }
    }

    /// What a read gives.
    pub fn bytes(&self) -> &[u8]
        ensures { result.now ≡ read_bytes (disk_told self.now) }
    {
        self.history.bytes.as_slice()
    }

    /// A disk of what a stop might leave now, chosen by `pick`: nothing is pending on it, and no call fails.
    pub fn image(&self, pick: u64) -> Result<MemDisk, AllocError>
        ensures told { IfOk result (λ disk. disk_told disk ≡ settled_content (drawn_now (disk_told self.now) pick) ∷ []) }
        ensures image { OnOk result (IsImageNow (disk_told self.now) (drawn_now (disk_told self.now) pick)) }
        ensures faults { IfOk result (λ disk. disk_fault_count disk ≡ 0) }
        ensures fails { IfOk result (λ disk. (disk_schedule disk).fails.items ≡ []) }
        ensures calls { IfOk result (λ disk. (disk_schedule disk).calls ≡ 0) }
    {
        let shown = self.history.shown(self.alloc)?;
        let bytes = draw_image(self.alloc, &shown, pick)?;
        Ok(MemDisk::new(self.alloc, bytes, Vec::new(self.alloc)))
    }
}

impl Disk for MemDisk {
    ghost use Rattle.std.specs.Prelude.{List};
    ghost use Rattle.ge_model_journal.specs.Disk.{HasLength, IsWithin, Reads, told_written, told_synced};
    ghost use Rattle.ge_outside.specs.Disks.{StaysOrWrites};
    ghost use Rattle.ge_outside.specs.Faults.{HasCause, one_more};
    ghost use Rattle.ge_outside.specs.Schedules.{IsDue, next_call};
    ghost use Rattle.ge_outside.specs.MemoryDisks.{disk_told, disk_schedule, disk_fault_count, disk_sync_count};
    ghost use Rattle.ge_outside.specs.Images.{reads_an_image};

    ghost told = { disk_told };

    ghost disk_faults = { disk_fault_count };

    ghost syncs = { disk_sync_count };

    ghost reads_an_image = { λ disk. reads_an_image (start_of disk.history.first disk.history.bytes.items) disk.history.steps.items };

    /// It fails exactly at the calls that were chosen.
    fn len(&mut self) -> Result<u64, Failed>
        ensures bound { IfOk result (λ n. n ≤ 2 ^ 63) }
        ensures length { IfOk result (λ n. HasLength (disk_told self.old) n) }
        ensures told { disk_told self.new ≡ disk_told self.old }
        ensures syncs { disk_sync_count self.new ≡ disk_sync_count self.old }
        ensures cause { HasCause (disk_fault_count self.old) (disk_fault_count self.new) result }
        ensures no_fault { OnOk result (disk_fault_count self.new ≡ disk_fault_count self.old) }
        ensures due { IsErr result ↔ IsDue (disk_schedule self.old) }
        ensures calls { disk_schedule self.new ≡ next_call (disk_schedule self.old) }
    {
        if self.schedule.next_fails() {
            self.faults = self.faults.saturating_add(1);
            return Err(Failed);
        }
        Ok(self.history.bytes.len() as u64)
    }

    /// It fails exactly at the calls that were chosen.
    fn read_at(&mut self, at: u64, buf: &mut [u8]) -> Result<usize, Failed>
        ensures bound { IfOk result (λ n. n ≤ length buf.old) }
        ensures read { IfOk result (λ n. Reads (disk_told self.old) at n buf.old buf.new) }
        ensures told { disk_told self.new ≡ disk_told self.old }
        ensures syncs { disk_sync_count self.new ≡ disk_sync_count self.old }
        ensures cause { HasCause (disk_fault_count self.old) (disk_fault_count self.new) result }
        ensures no_fault { OnOk result (disk_fault_count self.new ≡ disk_fault_count self.old) }
        ensures due { IsErr result ↔ IsDue (disk_schedule self.old) }
        ensures calls { disk_schedule self.new ≡ next_call (disk_schedule self.old) }
    {
        if self.schedule.next_fails() {
            self.faults = self.faults.saturating_add(1);
            return Err(Failed);
        }
        let bytes = self.history.bytes.as_slice();
        let (_, rest) = bytes.split_at((at as usize).min(bytes.len()));
        Ok(fill(rest, buf))
    }

    /// It fails at the calls that were chosen, where the write is made nevertheless, and where there is no
    /// memory, where it is not.
    fn write_at(&mut self, at: u64, piece: &[u8]) -> Result<(), Failed>
        requires below_limit { at + length piece.now ≤ area_bytes }
        requires within { IsWithin (disk_told self.old) at }
        ensures written { OnOk result (disk_told self.new ≡ told_written (disk_told self.old) at piece.now) }
        ensures failed { OnErr result (StaysOrWrites (disk_told self.old) (disk_told self.new) at piece.now) }
        ensures syncs { disk_sync_count self.new ≡ disk_sync_count self.old }
        ensures cause { HasCause (disk_fault_count self.old) (disk_fault_count self.new) result }
        ensures no_fault { OnOk result (disk_fault_count self.new ≡ disk_fault_count self.old) }
        ensures due { IsDue (disk_schedule self.old) → IsErr result }
        ensures calls { disk_schedule self.new ≡ next_call (disk_schedule self.old) }
    {
        let fails = self.schedule.next_fails();
        if self.history.write(self.alloc, at, piece).is_err() || fails {
            self.faults = self.faults.saturating_add(1);
            return Err(Failed);
        }
        Ok(())
    }

    /// It fails at the calls that were chosen, and where there is no memory. Any other sync is counted.
    fn sync(&mut self) -> Result<(), Failed>
        ensures synced { OnOk result (disk_told self.new ≡ told_synced (disk_told self.old)) }
        ensures failed { OnErr result (disk_told self.new ≡ disk_told self.old) }
        ensures counted { disk_sync_count self.new ≤ disk_sync_count self.old + 1 }
        ensures later { disk_sync_count self.old ≤ disk_sync_count self.new }
        ensures one_more { OnOk result (disk_sync_count self.new ≡ one_more (disk_sync_count self.old)) }
        ensures no_more { OnErr result (disk_sync_count self.new ≡ disk_sync_count self.old) }
        ensures cause { HasCause (disk_fault_count self.old) (disk_fault_count self.new) result }
        ensures no_fault { OnOk result (disk_fault_count self.new ≡ disk_fault_count self.old) }
        ensures due { IsDue (disk_schedule self.old) → IsErr result }
        ensures calls { disk_schedule self.new ≡ next_call (disk_schedule self.old) }
    {
        if self.schedule.next_fails() || self.history.sync().is_err() {
            self.faults = self.faults.saturating_add(1);
            return Err(Failed);
        }
        self.syncs = self.syncs.saturating_add(1);
        Ok(())
    }
}
