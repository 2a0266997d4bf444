// Writing to one area so that a stop at any moment is harmless.
ghost use Rattle.ge_limits.specs.Limits.{area_bytes};
ghost use Rattle.std.specs.Prelude.{◌≡◌, ◌+◌, ◌^◌, ◌≤◌, ◌∷◌, [], ℕ, List, length, OnOk};
ghost use Rattle.ge_model_journal.specs.Disk.{IsWithin, overwritten};
ghost use Rattle.ge_outside.specs.Faults.{HasCause};
ghost use Rattle.ge_spool.specs.Steps.{IsBehindImage, IsRefillImage, opened_behind, refilled};
ghost use Rattle.ge_spool.specs.Moments.{IsQuiet, Torn, Since};

use ge_outside::{Disk, Failed};

/// Writes a piece and makes it last.
#[tactic(auto, using(crate::proofs::Growing::length_written, crate::proofs::Growing::length_failed, crate::proofs::Growing::length_synced))]
pub fn lay<D: Disk>(disk: &mut D, at: u64, piece: &[u8]) -> Result<(), Failed>
    requires below_limit { at + length piece.now ≤ area_bytes }
    requires within { IsWithin (D.told disk.old) at }
    ensures quiet { OnOk result ((bytes : List ℕ) → IsQuiet (D.told disk.old) bytes → IsQuiet (D.told disk.new) (overwritten bytes at piece.now)) }
    ensures since { (bytes : List ℕ) → IsQuiet (D.told disk.old) bytes → Since (D.told disk.old) (D.told disk.new) (Torn at (length piece.now) bytes) }
    ensures reaches { OnOk result (IsWithin (D.told disk.new) (at + length piece.now)) }
    ensures stays { (place : ℕ) → IsWithin (D.told disk.old) place → IsWithin (D.told disk.new) place }
    ensures grows { length (D.told disk.old) ≤ length (D.told disk.new) }
    ensures syncs { D.syncs disk.new ≤ D.syncs disk.old + 1 }
    ensures later { D.syncs disk.old ≤ D.syncs disk.new }
    ensures cause { HasCause (D.disk_faults disk.old) (D.disk_faults disk.new) result }
{
    disk.write_at(at, piece)?;
    disk.sync()?;
    Ok(())
}

/// Writes a piece behind a gate, and then opens the gate.
pub fn write_behind<D: Disk>(disk: &mut D, gate: u64, piece: &[u8]) -> Result<(), Failed>
    requires below_limit { gate + 1 + length piece.now ≤ area_bytes }
    requires within { IsWithin (D.told disk.old) (gate + 1) }
    ensures quiet { OnOk result ((bytes : List ℕ) → IsQuiet (D.told disk.old) bytes → IsQuiet (D.told disk.new) (opened_behind gate piece.now bytes)) }
    ensures since { (bytes : List ℕ) → IsQuiet (D.told disk.old) bytes → Since (D.told disk.old) (D.told disk.new) (IsBehindImage gate piece.now bytes) }
    ensures reaches { OnOk result (IsWithin (D.told disk.new) (gate + 1 + length piece.now)) }
    ensures stays { (place : ℕ) → IsWithin (D.told disk.old) place → IsWithin (D.told disk.new) place }
    ensures grows { length (D.told disk.old) ≤ length (D.told disk.new) }
    ensures syncs { D.syncs disk.new ≤ D.syncs disk.old + 2 }
    ensures later { D.syncs disk.old ≤ D.syncs disk.new }
    ensures cause { HasCause (D.disk_faults disk.old) (D.disk_faults disk.new) result }
{
    lay(disk, gate + 1, piece)?;
    lay(disk, gate, &[1])?;
    Ok(())
}

/// Fills an area anew: closes its gate, where that has to be, writes a piece behind it, and opens it.
pub fn refill<D: Disk>(disk: &mut D, close: bool, piece: &[u8]) -> Result<(), Failed>
    requires below_limit { 1 + length piece.now ≤ area_bytes }
    requires within { IsWithin (D.told disk.old) 1 }
    ensures quiet { OnOk result ((bytes : List ℕ) → IsQuiet (D.told disk.old) bytes → IsQuiet (D.told disk.new) (refilled close piece.now bytes)) }
    ensures since { (bytes : List ℕ) → IsQuiet (D.told disk.old) bytes → Since (D.told disk.old) (D.told disk.new) (IsRefillImage close piece.now bytes) }
    ensures reaches { OnOk result (IsWithin (D.told disk.new) (1 + length piece.now)) }
    ensures stays { (place : ℕ) → IsWithin (D.told disk.old) place → IsWithin (D.told disk.new) place }
    ensures grows { length (D.told disk.old) ≤ length (D.told disk.new) }
    ensures syncs { D.syncs disk.new ≤ D.syncs disk.old + 3 }
    ensures later { D.syncs disk.old ≤ D.syncs disk.new }
    ensures cause { HasCause (D.disk_faults disk.old) (D.disk_faults disk.new) result }
{
    if close {
        lay(disk, 0, &[0])?;
        write_behind(disk, 0, piece)?;
        return Ok(());
    }
    write_behind(disk, 0, piece)?;
    Ok(())
}
