// A disk: bytes that outlive a stop, as far as they were synced.
ghost use Rattle.ge_limits.specs.Limits.{area_bytes};
ghost use Rattle.std.specs.Prelude.{◌≡◌, ◌≤◌, ◌+◌, ◌^◌, ℕ, List, length, IfOk, OnOk, OnErr};
ghost use Rattle.ge_outside.specs.Faults.{HasCause};
ghost use Rattle.ge_outside.specs.Disks.{StaysOrWrites};
ghost use Rattle.ge_model_journal.specs.Disk.{Content, HasLength, IsWithin, Reads, ReadsAnImage, told_written, told_synced};

use crate::Failed;

/// An area of bytes on a disk. Between two syncs, what was written since the first may be lost in any
/// way; after a sync, a stop leaves what a read gives.
pub trait Disk {
    /// The disk's moments, newest first, where it tells them; else none.
    ghost told: { Self → List Content };

    /// How often a call has failed. A call that answers `Ok` leaves it.
    ghost disk_faults: { Self → ℕ };

    /// How often the disk was synced.
    ghost syncs: { Self → ℕ };

    /// The number of bytes. An area of more than 2^63 bytes fails.
    fn len(&mut self) -> Result<u64, Failed>
        ensures bound { IfOk result (λ n. n ≤ 2 ^ 63) }
        ensures length { IfOk result (λ n. HasLength (told self.old) n) }
        ensures told { told self.new ≡ told self.old }
        ensures syncs { syncs self.new ≡ syncs self.old }
        ensures cause { HasCause (disk_faults self.old) (disk_faults self.new) result }
        ensures no_fault { OnOk result (disk_faults self.new ≡ disk_faults self.old) };

    /// Fills `buf` with the bytes from `at` on, as far as there are any, and answers how many.
    fn read_at(&mut self, at: u64, buf: &mut [u8]) -> Result<usize, Failed>
        ensures bound { IfOk result (λ n. n ≤ length buf.old) }
        ensures read { IfOk result (λ n. Reads (told self.old) at n buf.old buf.new) }
        ensures told { told self.new ≡ told self.old }
        ensures syncs { syncs self.new ≡ syncs self.old }
        ensures cause { HasCause (disk_faults self.old) (disk_faults self.new) result }
        ensures no_fault { OnOk result (disk_faults self.new ≡ disk_faults self.old) };

    /// Writes `piece` over what stands at `at`, and past the end.
    fn write_at(&mut self, at: u64, piece: &[u8]) -> Result<(), Failed>
        requires below_limit { at + length piece.now ≤ area_bytes }
        requires within { IsWithin (told self.old) at }
        ensures written { OnOk result (told self.new ≡ told_written (told self.old) at piece.now) }
        ensures failed { OnErr result (StaysOrWrites (told self.old) (told self.new) at piece.now) }
        ensures syncs { syncs self.new ≡ syncs self.old }
        ensures cause { HasCause (disk_faults self.old) (disk_faults self.new) result }
        ensures no_fault { OnOk result (disk_faults self.new ≡ disk_faults self.old) };

    /// Makes what was written outlast a stop. A sync that failed leaves it pending.
    fn sync(&mut self) -> Result<(), Failed>
        ensures synced { OnOk result (told self.new ≡ told_synced (told self.old)) }
        ensures failed { OnErr result (told self.new ≡ told self.old) }
        ensures counted { syncs self.new ≤ syncs self.old + 1 }
        ensures later { syncs self.old ≤ syncs self.new }
        ensures cause { HasCause (disk_faults self.old) (disk_faults self.new) result }
        ensures no_fault { OnOk result (disk_faults self.new ≡ disk_faults self.old) };

    /// The disk as it reads is one of its images.
    ghost reads_an_image: { (disk : Self) → ReadsAnImage (told disk) };
}
