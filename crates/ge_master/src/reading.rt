// The cluster that is read from a journal.
ghost use Rattle.std.specs.Prelude.{◌≡◌, ◌+◌, ◌^◌, ◌<◌, ◌≤◌, length, IfOk};
ghost use Rattle.ge_model_codec.specs.Reading.{ReadsAs, ReadsWhole};
ghost use Rattle.ge_model_journal.specs.Area.{end_from};
ghost use Rattle.ge_model_program.specs.StandsFor.{snapshot_code, entry_reading, cluster_after_record, cluster_in_snapshot, held};
ghost use Rattle.ge_model_codec.specs.Code.{whole};
ghost use Rattle.ge_spool.specs.Opening.{raw_state};
ghost use Rattle.ge_keeping.specs.Reading.{ReadsPart, ReadsBack, ReadsBehind};
ghost use Rattle.ge_master.specs.Reading.{AppliesEntry, EndsWithin, ReadsRecord};

use ge_codec::{Canon, TakeFault};
use ge_core::apply;
use ge_opening_cluster::opening;
use ge_rows::{Cluster, Entry, Text};
use ge_snapshot::{take_cluster, take_cluster_1, take_entry_1};
use ge_spool::{OpenFault, Raw};
use std::alloc::{AllocError, Global};

// An entry at a place of an area of a format, and where it ends.
#[tactic(auto, unfolding(ge_model_program::specs::StandsFor::entry_reading))]
fn take_in_format(
    alloc: Global,
    format: u8,
    bytes: &[u8],
    at: usize,
) -> Result<(Entry, usize), TakeFault>
    requires { at ≤ length bytes.now }
    ensures read { ReadsAs result (entry_reading format bytes.now at) }
    ensures within { IfOk result (λ p. p.1 ≤ length bytes.now) }
{
    if format == 1 {
        take_entry_1(alloc, bytes, at)
    } else {
        Entry::take(alloc, bytes, at)
    }
}

// Applies the entry at a place, and tells where it ends; nothing where none can be read.
fn apply_next(
    alloc: Global,
    cluster: &mut Cluster,
    format: u8,
    bytes: &[u8],
    at: usize,
) -> Result<Option<usize>, AllocError>
    requires { at ≤ length bytes.now }
    ensures applied { IfOk result
        (λ end. AppliesEntry end cluster.old cluster.new (entry_reading format bytes.now at)) }
    ensures within { IfOk result (λ end. EndsWithin end (length bytes.now)) }
{
    match take_in_format(alloc, format, bytes, at) {
        Ok((entry, end)) => {
            apply(alloc, cluster, entry)?;
            Ok(Some(end))
        }
        Err(TakeFault::Memory) => Err(AllocError),
        Err(TakeFault::Short) => Ok(None),
        Err(TakeFault::Tag(_)) => Ok(None),
        Err(TakeFault::Range(_)) => Ok(None),
    }
}

// Applies the entries of a record, and tells whether they could be read. If not, the cluster is given up.
fn apply_record(
    alloc: Global,
    cluster: &mut Cluster,
    format: u8,
    bytes: &[u8],
) -> Result<bool, AllocError>
    ensures { IfOk result (λ good.
        ReadsRecord good cluster.new (cluster_after_record format cluster.old bytes.now)) }
{
    let mut at = 0;
    'entries: loop {
        match apply_next(alloc, cluster, format, bytes, at) {
            Ok(Some(end)) => {
                if end == bytes.len() {
                    return Ok(true);
                }
                at = end;
            }
            Ok(None) => return Ok(false),
            Err(want) => return Err(want),
        }
    }
}

// The cluster that the bytes of a snapshot in a format are.
fn take_snapshot(alloc: Global, format: u8, bytes: &[u8]) -> Result<Cluster, TakeFault>
    ensures { ReadsWhole result (whole (snapshot_code format) bytes.now) }
{
    if format == 1 {
        take_cluster_1(alloc, bytes)
    } else {
        take_cluster(alloc, bytes)
    }
}

// The cluster of a snapshot; nothing where it can't be read.
#[tactic(auto, unfolding(ge_model_program::specs::StandsFor::cluster_in_snapshot))]
fn read_snapshot(alloc: Global, format: u8, bytes: &[u8]) -> Result<Option<Cluster>, AllocError>
    ensures { IfOk result (λ cluster. ReadsPart cluster (cluster_in_snapshot format bytes.now) 18) }
{
    if bytes.is_empty() {
        return Ok(Some(opening(alloc)?));
    }
    match take_snapshot(alloc, format, bytes) {
        Ok(cluster) => Ok(Some(cluster)),
        Err(TakeFault::Memory) => Err(AllocError),
        Err(TakeFault::Short) => Ok(None),
        Err(TakeFault::Tag(_)) => Ok(None),
        Err(TakeFault::Range(_)) => Ok(None),
    }
}

// Applies the record behind a gate of the area that counts, and tells where the next gate stands.
fn apply_behind(
    alloc: Global,
    cluster: &mut Cluster,
    raw: &Raw,
    gate: u64,
    journal_record: &Text,
) -> Result<u64, OpenFault>
    requires { gate + 5 + length journal_record.now < 2 ^ 63 }
    ensures { ReadsBehind result raw.now.area gate (length journal_record.now) cluster.new
        (cluster_after_record raw.now.format cluster.old journal_record.now) }
{
    let good = apply_record(alloc, cluster, raw.format, journal_record.bytes())?;
    if !good {
        return Err(OpenFault::Bad(raw.area, gate + 5));
    }
    Ok(gate + 5 + journal_record.len() as u64)
}

/// The cluster that a journal holds, or the place of the snapshot or record that can't be read. The list of records ends below
/// 2^63.
pub(crate) fn read_back(alloc: Global, raw: &Raw) -> Result<Cluster, OpenFault>
    requires { end_from (18 + length raw.now.snapshot) raw.now.records < 2 ^ 63 }
    ensures { ReadsBack result raw.now.area (held (raw_state raw.now)) }
{
    let read = read_snapshot(alloc, raw.format, raw.snapshot.bytes())?;
    let mut cluster = match read {
        Some(cluster) => cluster,
        None => return Err(OpenFault::Bad(raw.area, 18)),
    };
    let mut gate = 18 + raw.snapshot.len() as u64;
    let records = raw.records.items();
    for record in records {
        gate = match apply_behind(alloc, &mut cluster, raw, gate, record) {
            Ok(next) => next,
            Err(fault) => return Err(fault),
        };
    }
    Ok(cluster)
}
