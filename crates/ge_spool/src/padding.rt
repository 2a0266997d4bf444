// Giving a short area a closed gate.
ghost use Rattle.std.specs.Prelude.{◌≡◌, ◌+◌, ◌≤◌, ℕ, List, length, OnOk};
ghost use Rattle.ge_model_journal.specs.Disk.{HasLength, IsWithin};
ghost use Rattle.ge_outside.specs.Faults.{HasCause};
ghost use Rattle.ge_spool.specs.Moments.{IsQuiet, Since};
ghost use Rattle.ge_model_journal.specs.Writing.{padded};
ghost use Rattle.ge_spool.specs.Opening.{IsPadImage};

use crate::laying::lay;
use ge_outside::{Disk, Failed};

/// Gives an area of this length, where it is below 19 bytes, a closed gate, so that it has a byte at least.
pub fn pad<D: Disk>(disk: &mut D, size: u64) -> Result<(), Failed>
    requires { HasLength (D.told disk.old) size }
    ensures quiet { OnOk result ((bytes : List ℕ) → IsQuiet (D.told disk.old) bytes → IsQuiet (D.told disk.new) (padded bytes)) }
    ensures since { (bytes : List ℕ) → IsQuiet (D.told disk.old) bytes → Since (D.told disk.old) (D.told disk.new) (IsPadImage bytes) }
    ensures some { OnOk result (IsWithin (D.told disk.new) 1) }
    ensures stays { (place : ℕ) → IsWithin (D.told disk.old) place → IsWithin (D.told disk.new) place }
    ensures grows { length (D.told disk.old) ≤ length (D.told disk.new) }
    ensures syncs { D.syncs disk.new ≤ D.syncs disk.old + 1 }
    ensures later { D.syncs disk.old ≤ D.syncs disk.new }
    ensures cause { HasCause (D.disk_faults disk.old) (D.disk_faults disk.new) result }
{
    if size < 19 {
        lay(disk, 0, &[0])?;
    }
    Ok(())
}
