// One event after the other.
ghost use Rattle.std.specs.Prelude.{◌≡◌, [], ◌∷◌, IfOk, OnOk, IfSome, IsErrOf, IsErr, MatchOption, Option, codes, false, ◌≤◌, ◌<◌};
ghost use Rattle.ge_limits.specs.Limits.{script_bytes};
ghost use Rattle.ge_outside.specs.Faults.{Rose};
ghost use Rattle.ge_model_rows.specs.Opening.{opening_cluster};
ghost use Rattle.ge_model_grammar.specs.Events.{events_of};
ghost use Rattle.ge_model_grammar.specs.Sources.{IsReadToEnd};
ghost use Rattle.ge_script.specs.Pieces.{coming, given_count, read_count, total_count, IsOver, GivesNext};
ghost use Rattle.ge_model_core.specs.Plan.{plan_of};
ghost use Rattle.ge_model_core.specs.Trace.{WroteAll, WroteReplies, WroteFront};
ghost use Rattle.ge_model_program.specs.Simulating.{WroteToEnd, IfRead};
ghost use Rattle.ge_rows.specs.declared.cluster.Cluster.{Cluster};
ghost use Rattle.ge_rows.specs.declared.events.Event.{Event};
ghost use Rattle.ge_top.specs.Answering.{bytes_of, IsAnswer};
ghost use Rattle.ge_top.specs.Holding.{HasGained, KeepsHeld};

use crate::changing::follow;
use crate::holding::{hold, write_held};
use ge_opening_cluster::opening;
use ge_outside::{Failed, Sink, Source};
use ge_rows::{Cluster, Event, Text};
use ge_script::{Script, ScriptFault};
use ge_serve::{plan, render};
use std::alloc::{AllocError, Global};
use std::mem::forget;

/// The reply to an event, rendered.
#[derive(Drop)]
pub(crate) enum Rendered {
    /// The reply that the plan gave.
    Planned(Text),
    /// Memory ran out before anything was changed.
    NoMemory,
}

/// The answer to an event.
#[derive(Drop)]
pub(crate) struct Answer {
    pub(crate) reply: Rendered,
    pub(crate) stop: bool,
}

/// Why not all events were answered.
#[derive(Clone, Copy, PartialEq, Eq)]
pub(crate) enum AnswerFault {
    /// A read failed.
    Read,
    /// As many bytes as a script may have were read, and the end was not among them.
    Long,
    /// A write failed.
    Write,
    /// Memory ran out.
    Memory,
}

impl From<AllocError> for AnswerFault {
    ghost use Rattle.ge_top.specs.declared.answering.AnswerFault.TheVariants.{Memory};

    ghost from_gives = { λ _ fault. fault ≡ Memory };

    fn from(_want: AllocError) -> AnswerFault {
        AnswerFault::Memory
    }
}

impl From<Failed> for AnswerFault {
    ghost use Rattle.ge_top.specs.declared.answering.AnswerFault.TheVariants.{Write};

    ghost from_gives = { λ _ fault. fault ≡ Write };

    fn from(_failed: Failed) -> AnswerFault {
        AnswerFault::Write
    }
}

fn reply_bytes(reply: &Rendered) -> &[u8]
    ensures { result.now ≡ bytes_of reply.now }
{
    match reply {
        Rendered::Planned(text) => text.bytes(),
        Rendered::NoMemory => b"99 1\nno memory\n",
    }
}

// The answer to any event that found no memory: nothing is changed.
fn without_memory() -> Answer
    ensures { (c : Cluster) (event : Event) → IsAnswer c event result c }
{
    Answer {
        reply: Rendered::NoMemory,
        stop: false,
    }
}

// The answer to an event, and the cluster after it. After want of memory the cluster is given up.
fn answer_event(alloc: Global, cluster: &mut Cluster, event: &Event) -> Result<Answer, AllocError>
    ensures { IfOk result (λ answer. IsAnswer cluster.old event.now answer cluster.new) }
{
    let Ok(planned) = plan(alloc, cluster, event) else {
        return Ok(without_memory());
    };
    let Ok(text) = render(alloc, &planned.reply) else {
        return Ok(without_memory());
    };
    let stop = planned.stop;
    follow(alloc, cluster, planned)?;
    Ok(Answer {
        reply: Rendered::Planned(text),
        stop,
    })
}

// The next event, or none at the script's end. Where it isn't among the bytes that were read, the held replies are written
// before more is read: who waits for them before it sends more, gets them.
fn next_event<S: Source, K: Sink>(
    script: &mut Script,
    input: &mut S,
    held: &mut Vec<u8>,
    output: &mut K,
) -> Result<Option<Event>, AnswerFault>
    requires { IsOver script.old (S.rest input.old) }
    ensures next { IfOk result (λ next. GivesNext (coming script.old (S.rest input.old))
        (coming script.new (S.rest input.new)) next) }
    ensures over { OnOk result (IsOver script.new (S.rest input.new)) }
    ensures goes_on { IfOk result (λ next. MatchOption next (IsReadToEnd (S.rest input.new))
        (λ event. given_count script.old < given_count script.new)) }
    ensures total { OnOk result (total_count script.new (S.rest input.new)
        ≡ total_count script.old (S.rest input.old)) }
    ensures long { IsErrOf result AnswerFault.Long → script_bytes ≤ read_count script.new }
    ensures long_total { IsErrOf result AnswerFault.Long
        → total_count script.new (S.rest input.new) ≡ total_count script.old (S.rest input.old) }
    ensures cut { IsErrOf result AnswerFault.Write → read_count script.new < script_bytes }
    ensures cut_total { IsErrOf result AnswerFault.Write
        → total_count script.new (S.rest input.new) ≡ total_count script.old (S.rest input.old) }
    ensures held { KeepsHeld result (K.written output.old) (K.written output.new)
        held.old.items held.new.items }
    ensures gained { HasGained (K.written output.old) (K.written output.new) }
    ensures read { IsErrOf result AnswerFault.Read
        → Rose (S.read_faults input.old) (S.read_faults input.new) }
    ensures write { IsErrOf result AnswerFault.Write
        → Rose (K.write_faults output.old) (K.write_faults output.new) }
    ensures read_later { S.read_faults input.old ≤ S.read_faults input.new }
    ensures later { K.write_faults output.old ≤ K.write_faults output.new }
{
    match script.next_held() {
        Ok(Some(event)) => return Ok(Some(event)),
        Ok(None) => write_held(output, held)?,
        Err(_want) => {
            write_held(output, held)?;
            return Err(AnswerFault::Memory);
        }
    }
    match script.next(input) {
        Ok(next) => Ok(next),
        Err(ScriptFault::Read) => Err(AnswerFault::Read),
        Err(ScriptFault::Long) => Err(AnswerFault::Long),
        Err(ScriptFault::Memory) => Err(AnswerFault::Memory),
    }
}

/// Answers the events of a script in order, from the opening cluster. Replies are written together: at the latest before more
/// of the script is read, and before this call ends.
///
/// Behind an event that stops the master nothing more is read. At the script's end the cluster isn't taken apart: the process
/// ends with it, and the system takes its memory back at once.
pub(crate) fn answer_script<S: Source, K: Sink>(
    alloc: Global,
    input: &mut S,
    output: &mut K,
) -> Result<(), AnswerFault>
    ensures ended { OnOk result (IfSome (S.rest input.old) (λ script.
        WroteToEnd (K.written output.old) (K.written output.new)
        opening_cluster (events_of script) (S.rest input.new))) }
    ensures unread { IsErrOf result AnswerFault.Read → IfSome (S.rest input.old) (λ script.
        WroteReplies plan_of (K.written output.old) (K.written output.new)
        opening_cluster (events_of script)) }
    ensures too_long { IsErrOf result AnswerFault.Long → IfSome (S.rest input.old) (λ script.
        WroteReplies plan_of (K.written output.old) (K.written output.new)
        opening_cluster (events_of script)) }
    ensures memory { IsErrOf result AnswerFault.Memory → IfSome (S.rest input.old) (λ script.
        WroteReplies plan_of (K.written output.old) (K.written output.new)
        opening_cluster (events_of script)) }
    ensures front { IfSome (S.rest input.old) (λ script.
        WroteFront plan_of (K.written output.old) (K.written output.new)
        opening_cluster (events_of script)) }
    ensures long { IsErrOf result AnswerFault.Long
        → IfRead (S.rest input.old) (S.rest input.new) (λ count. script_bytes ≤ count) }
    ensures below { OnOk result
        (IfRead (S.rest input.old) (S.rest input.new) (λ count. count < script_bytes)) }
    ensures below_cut { IsErrOf result AnswerFault.Write
        → IfRead (S.rest input.old) (S.rest input.new) (λ count. count < script_bytes) }
    ensures read { IsErrOf result AnswerFault.Read
        → Rose (S.read_faults input.old) (S.read_faults input.new) }
    ensures write { IsErrOf result AnswerFault.Write
        → Rose (K.write_faults output.old) (K.write_faults output.new) }
    ensures read_later { S.read_faults input.old ≤ S.read_faults input.new }
    ensures later { K.write_faults output.old ≤ K.write_faults output.new }
{
    let mut script = Script::new(alloc)?;
    let mut cluster = opening(alloc)?;
    let mut held = Vec::new(alloc);
    'events: loop {
        let event = match next_event(&mut script, input, &mut held, output) {
            Ok(Some(event)) => event,
            Ok(None) => {
                forget(cluster);
                return Ok(());
            }
            Err(fault) => return Err(fault),
        };
        let Ok(answer) = answer_event(alloc, &mut cluster, &event) else {
            write_held(output, &mut held)?;
            return Err(AnswerFault::Memory);
        };
        hold(output, &mut held, reply_bytes(&answer.reply))?;
        if answer.stop {
            write_held(output, &mut held)?;
            return Ok(());
        }
    }
}
