// One frame.
ghost use Rattle.std.specs.Prelude.{◌≡◌, ◌≤◌, [], ◌∷◌, false, IfSome};
ghost use Rattle.std.specs.Result.{is_err};
ghost use Rattle.ge_model_core.specs.Plan.{plan_of};
ghost use Rattle.ge_master.specs.Areas.{areas_of};
ghost use Rattle.ge_master.specs.Masters.{HasLength, parts_of, is_gone};
ghost use Rattle.ge_model_program.specs.Answered.{own_reply};
ghost use Rattle.ge_serve.specs.Replies.{AnswersFrame};

use crate::moments::events_of_frame;
use ge_master::{Master, Stop, render};
use ge_outside::{Clock, Disk};
use ge_rows::{List, Reply, Text};
use std::alloc::Global;

// The reply to a frame's own event, which is the last of those to its events.
#[tactic(auto, using(ge_model_program::proofs::Own::own_last))]
fn reply_to_frame(mut replies: List<Reply>) -> Option<Reply>
    ensures { IfSome result (λ reply. own_reply replies ≡ reply ∷ []) }
{
    match replies.pop() {
        Some(reply) => Some(reply),
        None => None,
    }
}

/// Handles the events of a frame as one batch: the text of the reply to the frame's own, or nothing where there is no memory.
/// The reply to a run that was put in is dropped.
pub(crate) fn answer_frame<D: Disk, C: Clock>(
    alloc: Global,
    m: &mut Master,
    a: &mut D,
    b: &mut D,
    clock: &mut C,
    payload: &Text,
) -> Result<Option<Text>, Stop>
    requires lives { is_gone m.old ≡ false }
    requires length { HasLength m.old (D.told a.old) (D.told b.old) }
    ensures answers { AnswersFrame plan_of (parts_of m.old) (parts_of m.new) payload.now
        (C.answers clock.old) (C.answers clock.new) result
        (areas_of D.told D.syncs D.disk_faults a.old b.old)
        (areas_of D.told D.syncs D.disk_faults a.new b.new) }
    ensures goes { is_gone m.new ≡ is_err result }
    ensures length { HasLength m.new (D.told a.new) (D.told b.new) }
    ensures faults_a { D.disk_faults a.old ≤ D.disk_faults a.new }
    ensures faults_b { D.disk_faults b.old ≤ D.disk_faults b.new }
{
    let moment = clock.now();
    let events = match events_of_frame(alloc, m.cluster(), moment, payload) {
        Ok(events) => events,
        Err(_) => return Ok(None),
    };
    let replies = match m.handle_batch(a, b, &events) {
        Ok(replies) => replies,
        Err(stop) => return Err(stop),
    };
    let reply = match reply_to_frame(replies) {
        Some(reply) => reply,
        None => return Ok(None),
    };
    let text = match render(alloc, &reply) {
        Ok(text) => text,
        Err(_) => return Ok(None),
    };
    Ok(Some(text))
}
