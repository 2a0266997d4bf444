// Keeping bytes in a journal.
ghost use Rattle.std.specs.Prelude.{◌≡◌, ◌⊎◌, ◌+◌, ◌-◌, ◌^◌, ◌<◌, ◌≤◌, ℕ, List, length, true, false, min, OnOk};
ghost use Rattle.ge_model_journal.specs.Disk.{IsImageSince};
ghost use Rattle.ge_model_journal.specs.Journal.{State, IsOneOf, with_record, compacted};
ghost use Rattle.ge_outside.specs.Faults.{Rose};
ghost use Rattle.ge_spool.specs.Settled.{IsSettled, IsAppended, IsCompacted, HasRoom, Grows, is_dead, format_of, generation_of};
ghost use Rattle.ge_keeping.specs.Keeping.{last_generation, record_end, compacts, kept_end, stored, IsStored, stored_syncs, KeepsAs, Keeps, OnUnwritten};

use crate::KeepFault;
use ge_collections::Text;
use ge_limits::AREA_BYTES;
use ge_outside::Disk;
use ge_spool::{AppendFault, RecordBytes, SnapshotBytes, Spool, WRITTEN_FORMAT};
use std::alloc::Global;

// How many records may stand behind a snapshot.
const RECORD_LIMIT: u64 = 4095;

// Where the area ends behind one more record of so many bytes.
fn end_behind(spool: &Spool, size: usize) -> u64
    ensures { result ≡ min (record_end spool.now size) (2 ^ 64 - 1) }
{
    spool.end().saturating_add(6).saturating_add(size as u64)
}

/// Whether a snapshot is kept in place of a record of so many bytes.
pub fn is_compacting(spool: &Spool, size: usize) -> bool
    ensures value { result ≡ compacts spool.now size }
    ensures below { result ≡ true → generation_of spool.now < last_generation }
    ensures format { result ≡ false → format_of spool.now ≡ 2 }
{
    let generation = spool.generation();
    spool.format() != WRITTEN_FORMAT
        || (generation != u64::MAX
            && (spool.records() >= RECORD_LIMIT || end_behind(spool, size) > AREA_BYTES))
}

fn fault_of(fault: AppendFault) -> KeepFault
    ensures { KeepsAs fault result }
{
    match fault {
        AppendFault::Disk => KeepFault::Disk,
        AppendFault::Full(place) => KeepFault::Full(place),
        AppendFault::Dead => KeepFault::Dead,
    }
}

/// Keeps the bytes of a whole value as a snapshot in the next generation.
pub fn keep_snapshot<D: Disk>(
    alloc: Global,
    spool: &mut Spool,
    a: &mut D,
    b: &mut D,
    snapshot: &Text,
) -> Result<(), KeepFault>
    requires alive { is_dead spool.old ≡ false }
    requires room { HasRoom spool.old (D.told a.old) (D.told b.old) }
    requires below { generation_of spool.old < last_generation }
    ensures done { (state : State) → IsSettled spool.old (D.told a.old) (D.told b.old) state
        → OnOk result (IsSettled spool.new (D.told a.new) (D.told b.new) (compacted state snapshot.now)) }
    ensures any_moment { (state : State) → IsSettled spool.old (D.told a.old) (D.told b.old) state
        → (c d : List ℕ) → IsImageSince (length (D.told a.old)) (D.told a.new) c
        → IsImageSince (length (D.told b.old)) (D.told b.new) d
        → IsOneOf state (compacted state snapshot.now) c d }
    ensures answer { Keeps result (19 + length snapshot.now)
        (Rose (D.disk_faults a.old) (D.disk_faults a.new) ⊎ Rose (D.disk_faults b.old) (D.disk_faults b.new)) }
    ensures untouched { OnUnwritten result ((a.new ≡ a.old) × (b.new ≡ b.old)) }
    ensures stored { OnOk result (IsCompacted spool.old spool.new (length snapshot.now)) }
    ensures room { OnOk result (HasRoom spool.new (D.told a.new) (D.told b.new)) }
    ensures alive { OnOk result (is_dead spool.new ≡ false) }
    ensures grows { Grows (D.told a.old) (D.told a.new) (D.told b.old) (D.told b.new) }
    ensures syncs { D.syncs a.new + D.syncs b.new ≤ D.syncs a.old + D.syncs b.old + 3 }
    ensures syncs_a { D.syncs a.old ≤ D.syncs a.new }
    ensures syncs_b { D.syncs b.old ≤ D.syncs b.new }
    ensures faults_a { D.disk_faults a.old ≤ D.disk_faults a.new }
    ensures faults_b { D.disk_faults b.old ≤ D.disk_faults b.new }
{
    let mut bytes = SnapshotBytes::new(alloc, snapshot)?;
    match spool.compact(a, b, &mut bytes) {
        Ok(()) => Ok(()),
        Err(fault) => Err(fault_of(fault)),
    }
}

/// Keeps the bytes of what changed as a record.
pub fn keep_record<D: Disk>(
    alloc: Global,
    spool: &mut Spool,
    a: &mut D,
    b: &mut D,
    body: &Text,
) -> Result<(), KeepFault>
    requires alive { is_dead spool.old ≡ false }
    requires room { HasRoom spool.old (D.told a.old) (D.told b.old) }
    requires some { 0 < length body.now }
    requires format { format_of spool.old ≡ 2 }
    ensures done { (state : State) → IsSettled spool.old (D.told a.old) (D.told b.old) state
        → OnOk result (IsSettled spool.new (D.told a.new) (D.told b.new)
        (with_record state body.now)) }
    ensures any_moment { (state : State) → IsSettled spool.old (D.told a.old) (D.told b.old) state
        → (c d : List ℕ) → IsImageSince (length (D.told a.old)) (D.told a.new) c
        → IsImageSince (length (D.told b.old)) (D.told b.new) d
        → IsOneOf state (with_record state body.now) c d }
    ensures answer { Keeps result (min (record_end spool.old (length body.now)) (2 ^ 64 - 1))
        (Rose (D.disk_faults a.old) (D.disk_faults a.new) ⊎ Rose (D.disk_faults b.old) (D.disk_faults b.new)) }
    ensures untouched { OnUnwritten result ((a.new ≡ a.old) × (b.new ≡ b.old)) }
    ensures stored { OnOk result (IsAppended spool.old spool.new (length body.now)) }
    ensures room { OnOk result (HasRoom spool.new (D.told a.new) (D.told b.new)) }
    ensures alive { OnOk result (is_dead spool.new ≡ false) }
    ensures grows { Grows (D.told a.old) (D.told a.new) (D.told b.old) (D.told b.new) }
    ensures syncs { D.syncs a.new + D.syncs b.new ≤ D.syncs a.old + D.syncs b.old + 2 }
    ensures syncs_a { D.syncs a.old ≤ D.syncs a.new }
    ensures syncs_b { D.syncs b.old ≤ D.syncs b.new }
    ensures faults_a { D.disk_faults a.old ≤ D.disk_faults a.new }
    ensures faults_b { D.disk_faults b.old ≤ D.disk_faults b.new }
{
    let end = end_behind(spool, body.len());
    if end > AREA_BYTES {
        return Err(KeepFault::Full(end));
    }
    let bytes = RecordBytes::new(alloc, body)?;
    match spool.append(a, b, &bytes) {
        Ok(()) => Ok(()),
        Err(fault) => Err(fault_of(fault)),
    }
}

/// Keeps these bytes, which are a whole value, as a record or as a snapshot. At `Ok` they are there for good. At each moment a
/// stop leaves what stood before, or that with them.
pub fn keep<D: Disk>(
    alloc: Global,
    spool: &mut Spool,
    a: &mut D,
    b: &mut D,
    bytes: &Text,
) -> Result<(), KeepFault>
    requires alive { is_dead spool.old ≡ false }
    requires room { HasRoom spool.old (D.told a.old) (D.told b.old) }
    requires some { 0 < length bytes.now }
    ensures done { (state : State) → IsSettled spool.old (D.told a.old) (D.told b.old) state
        → OnOk result (IsSettled spool.new (D.told a.new) (D.told b.new)
        (stored (compacts spool.old (length bytes.now)) state bytes.now bytes.now)) }
    ensures any_moment { (state : State) → IsSettled spool.old (D.told a.old) (D.told b.old) state
        → (c d : List ℕ) → IsImageSince (length (D.told a.old)) (D.told a.new) c
        → IsImageSince (length (D.told b.old)) (D.told b.new) d
        → IsOneOf state (stored (compacts spool.old (length bytes.now)) state bytes.now bytes.now)
        c d }
    ensures answer { Keeps result (kept_end spool.old (length bytes.now) (length bytes.now))
        (Rose (D.disk_faults a.old) (D.disk_faults a.new) ⊎ Rose (D.disk_faults b.old) (D.disk_faults b.new)) }
    ensures untouched { OnUnwritten result ((a.new ≡ a.old) × (b.new ≡ b.old)) }
    ensures stored { OnOk result (IsStored (compacts spool.old
        (length bytes.now)) spool.old spool.new (length bytes.now) (length bytes.now)) }
    ensures room { OnOk result (HasRoom spool.new (D.told a.new) (D.told b.new)) }
    ensures alive { OnOk result (is_dead spool.new ≡ false) }
    ensures grows { Grows (D.told a.old) (D.told a.new) (D.told b.old) (D.told b.new) }
    ensures syncs { D.syncs a.new + D.syncs b.new ≤ D.syncs a.old + D.syncs b.old
        + stored_syncs (compacts spool.old (length bytes.now)) }
    ensures syncs_a { D.syncs a.old ≤ D.syncs a.new }
    ensures syncs_b { D.syncs b.old ≤ D.syncs b.new }
    ensures faults_a { D.disk_faults a.old ≤ D.disk_faults a.new }
    ensures faults_b { D.disk_faults b.old ≤ D.disk_faults b.new }
{
    if is_compacting(spool, bytes.len()) {
        keep_snapshot(alloc, spool, a, b, bytes)
    } else {
        keep_record(alloc, spool, a, b, bytes)
    }
}
