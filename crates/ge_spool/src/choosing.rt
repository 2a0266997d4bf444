// Writing to the one of two areas that a flag picks.
ghost use Rattle.ge_limits.specs.Limits.{area_bytes};
ghost use Rattle.std.specs.Prelude.{◌≡◌, ◌+◌, ◌^◌, ◌≤◌, ℕ, List, length, OnOk};
ghost use Rattle.ge_model_journal.specs.Disk.{IsWithin};
ghost use Rattle.ge_model_journal.specs.Journal.{picked};
ghost use Rattle.ge_spool.specs.Moments.{IsQuiet, Since};
ghost use Rattle.ge_spool.specs.Settled.{Grows, HasCauseOfTwo};
ghost use Rattle.ge_spool.specs.Steps.{IsBehindImage, IsRefillImage, opened_behind, refilled};

use crate::laying::{refill, write_behind};
use ge_outside::{Disk, Failed};

/// Writes a piece behind a gate of the second area or the first, and then opens the gate.
pub fn write_chosen<D: Disk>(
    second: bool,
    a: &mut D,
    b: &mut D,
    gate: u64,
    piece: &[u8],
) -> Result<(), Failed>
    requires below_limit { gate + 1 + length piece.now ≤ area_bytes }
    requires within { IsWithin (picked second (D.told a.old) (D.told b.old)) (gate + 1) }
    ensures quiet { OnOk result ((bytes : List ℕ) → IsQuiet (picked second (D.told a.old) (D.told b.old)) bytes
        → IsQuiet (picked second (D.told a.new) (D.told b.new)) (opened_behind gate piece.now bytes)) }
    ensures since { (bytes : List ℕ) → IsQuiet (picked second (D.told a.old) (D.told b.old)) bytes
        → Since (picked second (D.told a.old) (D.told b.old)) (picked second (D.told a.new) (D.told b.new)) (IsBehindImage gate piece.now bytes) }
    ensures other { picked second (D.told b.new) (D.told a.new) ≡ picked second (D.told b.old) (D.told a.old) }
    ensures reaches { OnOk result (IsWithin (picked second (D.told a.new) (D.told b.new)) (gate + 1 + length piece.now)) }
    ensures stays_a { (place : ℕ) → IsWithin (D.told a.old) place → IsWithin (D.told a.new) place }
    ensures stays_b { (place : ℕ) → IsWithin (D.told b.old) place → IsWithin (D.told b.new) place }
    ensures grows { Grows (D.told a.old) (D.told a.new) (D.told b.old) (D.told b.new) }
    ensures syncs { D.syncs a.new + D.syncs b.new ≤ D.syncs a.old + D.syncs b.old + 2 }
    ensures syncs_a { D.syncs a.old ≤ D.syncs a.new }
    ensures syncs_b { D.syncs b.old ≤ D.syncs b.new }
    ensures cause { HasCauseOfTwo (D.disk_faults a.old) (D.disk_faults a.new) (D.disk_faults b.old) (D.disk_faults b.new) result }
{
    if second {
        write_behind(b, gate, piece)
    } else {
        write_behind(a, gate, piece)
    }
}

/// Fills the second area or the first anew.
pub fn refill_chosen<D: Disk>(
    second: bool,
    a: &mut D,
    b: &mut D,
    close: bool,
    piece: &[u8],
) -> Result<(), Failed>
    requires below_limit { 1 + length piece.now ≤ area_bytes }
    requires within { IsWithin (picked second (D.told a.old) (D.told b.old)) 1 }
    ensures quiet { OnOk result ((bytes : List ℕ) → IsQuiet (picked second (D.told a.old) (D.told b.old)) bytes
        → IsQuiet (picked second (D.told a.new) (D.told b.new)) (refilled close piece.now bytes)) }
    ensures since { (bytes : List ℕ) → IsQuiet (picked second (D.told a.old) (D.told b.old)) bytes
        → Since (picked second (D.told a.old) (D.told b.old)) (picked second (D.told a.new) (D.told b.new)) (IsRefillImage close piece.now bytes) }
    ensures other { picked second (D.told b.new) (D.told a.new) ≡ picked second (D.told b.old) (D.told a.old) }
    ensures reaches { OnOk result (IsWithin (picked second (D.told a.new) (D.told b.new)) (1 + length piece.now)) }
    ensures stays_a { (place : ℕ) → IsWithin (D.told a.old) place → IsWithin (D.told a.new) place }
    ensures stays_b { (place : ℕ) → IsWithin (D.told b.old) place → IsWithin (D.told b.new) place }
    ensures grows { Grows (D.told a.old) (D.told a.new) (D.told b.old) (D.told b.new) }
    ensures syncs { D.syncs a.new + D.syncs b.new ≤ D.syncs a.old + D.syncs b.old + 3 }
    ensures syncs_a { D.syncs a.old ≤ D.syncs a.new }
    ensures syncs_b { D.syncs b.old ≤ D.syncs b.new }
    ensures cause { HasCauseOfTwo (D.disk_faults a.old) (D.disk_faults a.new) (D.disk_faults b.old) (D.disk_faults b.new) result }
{
    if second {
        refill(b, close, piece)
    } else {
        refill(a, close, piece)
    }
}
