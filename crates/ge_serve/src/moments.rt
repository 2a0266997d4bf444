// The events of a frame.
ghost use Rattle.std.specs.Prelude.{◌≡◌, IfOk};
ghost use Rattle.ge_model_program.specs.Moments.{frame_moment, is_due, put_in_run, runs_before, frame_events};

use ge_limits::MOMENTS;
use ge_rows::{Cluster, Event, Form, List, Text};
use ge_wire::frame_event;
use std::alloc::{AllocError, Global};

// The moment of a frame, for what the clock answers.
fn moment_of_frame(cluster: &Cluster, clock: u64) -> u64
    ensures { result ≡ frame_moment cluster.now clock }
{
    cluster.last.max(clock.min(MOMENTS - 1))
}

// Whether a run is due at a moment.
fn run_is_due(cluster: &Cluster, moment: u64) -> bool
    ensures { result ≡ is_due cluster.now moment }
{
    cluster.sched.interval != 0
        && moment >= cluster.last_run
        && moment - cluster.last_run >= cluster.sched.interval
}

// The request for a run, which root makes.
fn run_at(alloc: Global, moment: u64) -> Result<Event, AllocError>
    ensures { IfOk result (λ event. event ≡ put_in_run moment) }
{
    Ok(Event {
        moment,
        user: Text::from_bytes(alloc, b"root")?,
        group: Text::from_bytes(alloc, b"root")?,
        text: Text::from_bytes(alloc, b"sched")?,
        form: Form::Good,
    })
}

fn runs(alloc: Global, due: bool, moment: u64) -> Result<List<Event>, AllocError>
    ensures { IfOk result (λ events. events ≡ runs_before due moment) }
{
    let mut events = List::new(alloc);
    if due {
        events.push(run_at(alloc, moment)?)?;
        return Ok(events);
    }
    Ok(events)
}

/// The events of a frame, for what the clock answers: perhaps a scheduling run, and then its own.
#[tactic(auto, unfolding(ge_model_program::specs::Moments::frame_events))]
pub(crate) fn events_of_frame(
    alloc: Global,
    cluster: &Cluster,
    clock: u64,
    payload: &Text,
) -> Result<List<Event>, AllocError>
    ensures { IfOk result (λ events. events ≡ frame_events cluster.now clock payload.now) }
{
    let moment = moment_of_frame(cluster, clock);
    let mut events = runs(alloc, run_is_due(cluster, moment), moment)?;
    events.push(frame_event(alloc, payload, moment)?)?;
    Ok(events)
}
