// The plan of a scheduling run.
ghost use Rattle.std.specs.Prelude.{◌≡◌, [], ◌∷◌, ◌++◌, IfOk, OnOk, codes, decimal, filter_map, flat_map};
ghost use Rattle.ge_rows.specs.Parts.{start_of};
ghost use Rattle.ge_model_core.specs.Scheduling as scheduling;
ghost use Rattle.ge_dispatching.specs.Dispatching.{Dispatches};

use crate::deciding::decisions_told;
use ge_answers::refuse;
use ge_base::Refusal;
use ge_listing::append_grants;
use ge_printing::append_decimal;
use ge_rows::{
    Change, Cluster, Decision, Entry, Event, List, Planned, Reply, Reservation, Start, TaskId,
    Text, Twin,
};
use ge_site::is_manager;
use std::alloc::{AllocError, Global};

/// Room for a line, in bytes; one of many grants grows.
const LINE_ROOM: usize = 64;

fn append_task(line: &mut Vec<u8>, task: TaskId) -> Result<(), AllocError>
    ensures { OnOk result (line.new.items ≡ line.old.items ++ scheduling.task_text task) }
{
    append_decimal(line, u128::from(task.job))?;
    line.push(b'.')?;
    append_decimal(line, u128::from(task.task))
}

fn start_line(alloc: Global, start: &Start) -> Result<Text, AllocError>
    ensures { IfOk result (λ line. line ≡ scheduling.start_line start.now) }
{
    let mut line = Vec::with_capacity(alloc, LINE_ROOM)?;
    line.extend_from_slice(b"start ")?;
    append_decimal(&mut line, u128::from(start.serial))?;
    line.push(b' ')?;
    append_task(&mut line, start.task)?;
    line.push(b' ')?;
    append_grants(&mut line, start.grants.items())?;
    Ok(Text::from_vec(line))
}

fn reserve_line(alloc: Global, reservation: &Reservation) -> Result<Text, AllocError>
    ensures { IfOk result (λ line. line ≡ scheduling.reserve_line reservation.now) }
{
    let mut line = Vec::with_capacity(alloc, LINE_ROOM)?;
    line.extend_from_slice(b"reserve ")?;
    append_task(&mut line, reservation.task)?;
    line.push(b' ')?;
    append_decimal(&mut line, u128::from(reservation.at))?;
    line.push(b' ')?;
    append_grants(&mut line, reservation.grants.items())?;
    Ok(Text::from_vec(line))
}

fn push_line(lines: &mut List<Text>, alloc: Global, decision: &Decision) -> Result<(), AllocError>
    ensures { OnOk result (lines.new ≡ lines.old ++ scheduling.decision_lines decision.now) }
{
    match decision {
        Decision::Start(start) => lines.push(start_line(alloc, start)?),
        Decision::Reserve(reservation) => lines.push(reserve_line(alloc, reservation)?),
        Decision::Skip(_) => Ok(()),
    }
}

fn decision_lines(alloc: Global, decisions: &[Decision]) -> Result<List<Text>, AllocError>
    ensures { IfOk result (λ lines. lines ≡ flat_map scheduling.decision_lines decisions.now) }
{
    let mut lines = List::new(alloc);
    for decision in decisions {
        push_line(&mut lines, alloc, decision)?;
    }
    Ok(lines)
}

fn push_start(
    starts: &mut List<Start>,
    alloc: Global,
    decision: &Decision,
) -> Result<(), AllocError>
    ensures { OnOk result (starts.new ≡ starts.old ++ filter_map start_of (decision.now ∷ [])) }
{
    match decision {
        Decision::Start(start) => starts.push(start.twin(alloc)?),
        Decision::Reserve(_) | Decision::Skip(_) => Ok(()),
    }
}

fn starts_in(alloc: Global, decisions: &[Decision]) -> Result<List<Start>, AllocError>
    ensures { IfOk result (λ starts. starts ≡ filter_map start_of decisions.now) }
{
    let mut starts = List::new(alloc);
    for decision in decisions {
        push_start(&mut starts, alloc, decision)?;
    }
    Ok(starts)
}

fn decided(alloc: Global, e: &Event, decisions: &[Decision]) -> Result<Planned, AllocError>
    ensures { IfOk result (λ planned. planned ≡ scheduling.decided e.now decisions.now) }
{
    let lines = decision_lines(alloc, decisions)?;
    let starts = starts_in(alloc, decisions)?;
    Ok(Planned {
        entry: Some(Entry {
            moment: e.moment,
            change: Change::Run(starts),
        }),
        reply: Reply { code: 0, lines },
        stop: false,
    })
}

// The plan, in the words of the model.
#[tactic(auto, unfolding(ge_model_core::specs::Scheduling::sched_plan))]
fn planned_run(alloc: Global, c: &Cluster, e: &Event) -> Result<Planned, AllocError>
    ensures { IfOk result (λ planned. planned ≡ scheduling.sched_plan c.now e.now) }
{
    if !is_manager(c, &e.user) {
        return refuse(alloc, Refusal::NotPermitted);
    }
    let decisions = decisions_told(alloc, c, e)?;
    decided(alloc, e, decisions.items())
}

/// The plan of a scheduling run at the event's moment: NotPermitted for whoever is no manager, else a line for each start and each
/// reservation, and an entry with the starts, also where there is none. Priorities are made only where a task may start or have
/// slots kept, and the order only as far as one may.
///
/// - `planned`: it is the model's plan.
/// - `dispatches`: the decisions that it tells, one for each eligible task, go by falling priority (sge_priority); each task starts
///   where it fits beside all that is decided before it, or is reserved, or waits; no limit is taken over its capacity at any
///   moment; and a task without a parallel environment is reserved no later than it could start (sched_conf).
pub fn plan_run(alloc: Global, c: &Cluster, e: &Event) -> Result<Planned, AllocError>
    ensures planned { IfOk result (λ planned. planned ≡ scheduling.sched_plan c.now e.now) }
    ensures dispatches { IfOk result (λ planned. Dispatches c.now e.now planned) }
{
    planned_run(alloc, c, e)
}
