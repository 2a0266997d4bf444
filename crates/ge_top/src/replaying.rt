// A script over the two areas, batch by batch.
ghost use Rattle.std.specs.Prelude.{◌≡◌, ◌<◌, ◌≤◌, ◌+◌, false, IfSome, OnOk};
ghost use Rattle.ge_limits.specs.Limits.{script_bytes};
ghost use Rattle.ge_outside.specs.Faults.{Rose};
ghost use Rattle.ge_model_grammar.specs.Events.{events_of};
ghost use Rattle.ge_model_grammar.specs.Sources.{IsReadToEnd};
ghost use Rattle.ge_model_core.specs.Plan.{plan_of};
ghost use Rattle.ge_model_program.specs.Simulating.{IfRead};
ghost use Rattle.ge_model_program.specs.Runs.{RanTo, RanCut, RanAll, RanFull};
ghost use Rattle.ge_model_program.specs.View.{view_of};
ghost use Rattle.ge_model_program.specs.Replaying.{Replays};
ghost use Rattle.ge_serve.specs.Areas.{HasFailed, areas_of};
ghost use Rattle.ge_serve.specs.Homes.{IsHome};
ghost use Rattle.ge_serve.specs.Masters.{HasLength, cluster_of, spool_of, parts_of, is_gone, is_stopping};
ghost use Rattle.ge_serve.specs.Ledgers.{ledger_of};
ghost use Rattle.ge_top.specs.Ends.{OnWritten, OnCut, OnFull, OnLong, OnBelow, Blames};

use crate::batches::next_batch;
use crate::replies::write_replies;
use crate::statuses::{DONE, LONG, NO_MEMORY, READ_FAULT, WRITE_FAULT, status_of_stop};
use crate::writing::WriteFault;
use ge_outside::{Disk, Sink, Source};
use ge_script::{Script, ScriptFault};
use ge_serve::{Master, Stop};
use std::alloc::Global;

/// Why not all events were answered.
#[derive(Drop)]
pub(crate) enum ReplayFault {
    /// The master stopped.
    Stopped(Stop),
    /// A read failed.
    Read,
    /// As many bytes as a script may have were read, and the end was not among them.
    Long,
    /// A write failed.
    Write,
    /// Memory ran out.
    Memory,
}

/// Answers the events of a script in batches, and writes the replies to each batch once it stands in the areas, before the
/// next one is read. Behind an event that stops the master nothing more is read.
pub(crate) fn answer_batches<S: Source, K: Sink, D: Disk>(
    alloc: Global,
    m: &mut Master,
    input: &mut S,
    output: &mut K,
    a: &mut D,
    b: &mut D,
    batch: usize,
) -> Result<(), ReplayFault>
    requires some { 0 < batch }
    requires lives { is_gone m.old ≡ false }
    requires going { is_stopping m.old ≡ false }
    requires length { HasLength m.old (D.told a.old) (D.told b.old) }
    ensures all { OnOk result (IfSome (S.rest input.old) (λ script.
        RanAll plan_of (cluster_of m.old) (events_of script)
        (IsHome (parts_of m.old) (areas_of D.told D.syncs D.disk_faults a.old b.old))
        (K.written output.old) (K.written output.new) (D.told a.new) (D.told b.new)
        batch (D.syncs a.old + D.syncs b.old) (D.syncs a.new + D.syncs b.new)
        (ledger_of (spool_of m.old)) (IsReadToEnd (S.rest input.new)))) }
    ensures part { OnWritten result (IfSome (S.rest input.old) (λ script.
        RanTo plan_of (cluster_of m.old) (events_of script)
        (IsHome (parts_of m.old) (areas_of D.told D.syncs D.disk_faults a.old b.old))
        (K.written output.old) (K.written output.new) (D.told a.new) (D.told b.new)
        batch (D.syncs a.old + D.syncs b.old) (D.syncs a.new + D.syncs b.new)
        (ledger_of (spool_of m.old)))) }
    ensures cut { OnCut result (IfSome (S.rest input.old) (λ script.
        RanCut plan_of (cluster_of m.old) (events_of script)
        (IsHome (parts_of m.old) (areas_of D.told D.syncs D.disk_faults a.old b.old))
        (K.written output.old) (K.written output.new) (D.told a.new) (D.told b.new)
        batch (D.syncs a.old + D.syncs b.old) (D.syncs a.new + D.syncs b.new)
        (ledger_of (spool_of m.old)))) }
    ensures full { OnFull result (IfSome (S.rest input.old) (λ script.
        RanFull plan_of (cluster_of m.old) (events_of script)
        (IsHome (parts_of m.old) (areas_of D.told D.syncs D.disk_faults a.old b.old))
        (K.written output.old) (K.written output.new) (D.told a.new) (D.told b.new)
        batch (D.syncs a.old + D.syncs b.old) (D.syncs a.new + D.syncs b.new)
        (ledger_of (spool_of m.old)))) }
    ensures long { OnLong result
        (IfRead (S.rest input.old) (S.rest input.new) (λ count. script_bytes ≤ count)) }
    ensures below { OnBelow result
        (IfRead (S.rest input.old) (S.rest input.new) (λ count. count < script_bytes)) }
    ensures blames { Blames result
        (HasFailed (areas_of D.told D.syncs D.disk_faults a.old b.old)
        (areas_of D.told D.syncs D.disk_faults a.new b.new))
        (Rose (S.read_faults input.old) (S.read_faults input.new))
        (Rose (K.write_faults output.old) (K.write_faults output.new)) }
{
    let mut script = match Script::new(alloc) {
        Ok(script) => script,
        Err(_) => return Err(ReplayFault::Memory),
    };
    'batches: loop {
        let events = match next_batch(alloc, &mut script, input, batch) {
            Ok(events) => events,
            Err(ScriptFault::Read) => return Err(ReplayFault::Read),
            Err(ScriptFault::Long) => return Err(ReplayFault::Long),
            Err(ScriptFault::Memory) => return Err(ReplayFault::Memory),
        };
        if events.is_empty() {
            return Ok(());
        }
        let replies = match m.handle_batch(a, b, &events) {
            Ok(replies) => replies,
            Err(stop) => return Err(ReplayFault::Stopped(stop)),
        };
        match write_replies(alloc, &replies, output) {
            Ok(()) => {}
            Err(WriteFault::Write) => return Err(ReplayFault::Write),
            Err(WriteFault::Memory) => return Err(ReplayFault::Memory),
        }
        if m.stopping() {
            return Ok(());
        }
        if events.len() < batch {
            return Ok(());
        }
    }
}

/// Replays a script over a master that lives: reads it in pieces, answers its events, so many at a time, and writes the replies
/// to a batch once what it changes stands in the areas. The status is 0 where all is done, 3 where the script has no end within
/// 2^40 bytes, 5 where an area has no room for what the next batch changes, 6 and 7 where a read of the input and a write of
/// the output failed, 8 where an area failed, and 10 where there is no memory. At each exit the replies to the first n events
/// are written, and every pair of what a stop may leave of the areas stands for the cluster after n or after m events, m - n
/// being a batch at most.
pub fn replay<S: Source, K: Sink, D: Disk>(
    alloc: Global,
    m: &mut Master,
    input: &mut S,
    output: &mut K,
    a: &mut D,
    b: &mut D,
    batch: u32,
) -> u8
    requires some { 0 < batch }
    requires lives { is_gone m.old ≡ false }
    requires going { is_stopping m.old ≡ false }
    requires length { HasLength m.old (D.told a.old) (D.told b.old) }
    ensures { Replays result (S.rest input.old) (S.rest input.new)
        (S.read_faults input.old) (S.read_faults input.new)
        (view_of K.written K.write_faults D.told D.disk_faults D.syncs output.old a.old b.old)
        (view_of K.written K.write_faults D.told D.disk_faults D.syncs output.new a.new b.new)
        (cluster_of m.old)
        (IsHome (parts_of m.old) (areas_of D.told D.syncs D.disk_faults a.old b.old))
        (ledger_of (spool_of m.old)) batch }
{
    match answer_batches(alloc, m, input, output, a, b, batch as usize) {
        Ok(()) => DONE,
        Err(ReplayFault::Stopped(stop)) => status_of_stop(&stop),
        Err(ReplayFault::Read) => READ_FAULT,
        Err(ReplayFault::Long) => LONG,
        Err(ReplayFault::Write) => WRITE_FAULT,
        Err(ReplayFault::Memory) => NO_MEMORY,
    }
}
