// The decisions of a run of which anything is told.
ghost use Rattle.std.specs.Prelude.{◌≡◌, ◌++◌, IfOk};
ghost use Rattle.ge_model_order.specs.Priority.{order_of, prios_at};
ghost use Rattle.ge_model_place.specs.Running.{run_of};
ghost use Rattle.ge_model_core.specs.Scheduling as scheduling;
ghost use Rattle.ge_order.specs.Parted.{first_of, second_of};
ghost use Rattle.ge_scheduling.specs.Bases.{IsBasis};
ghost use Rattle.ge_scheduling.specs.UnderWay.{IsUnderWay, tasks_decided};
ghost use Rattle.ge_dispatching.specs.Telling.{TellsRun};

use crate::prioritizing::run_prios;
use ge_order::{Bound, Prios, bound_for, first_part, order, second_part};
use ge_rows::{Cluster, Decision, Event, List, Prio};
use ge_scheduling::{
    Basis, Run, all_wait, basis_of, begin_run, decide_tasks, decisions_of, others_wait,
};
use std::alloc::{AllocError, Global};

/// How many jobs are put in order before it is asked whether all others wait. Most runs of a full cluster have few slots to
/// give; one that goes on to the others has walked the priorities once more.
const FEW: usize = 128;

// The run with the tasks of the jobs of these priorities decided too, in their order.
fn decide_jobs(
    alloc: Global,
    c: &Cluster,
    run: Run,
    prios: &List<Prio>,
    now: u64,
) -> Result<Run, AllocError>
    requires { IsUnderWay c.now run }
    ensures under_way { IfOk result (λ more. IsUnderWay c.now more) }
    ensures moment { IfOk result (λ more. more.moment ≡ run.moment) }
    ensures tasks { IfOk result (λ more. tasks_decided more
        ≡ tasks_decided run ++ order_of c.now prios.now now) }
{
    let tasks = order(alloc, c, prios, now)?;
    let more = decide_tasks(alloc, c, run, tasks.items())?;
    Ok(more)
}

// The decisions of a run once the tasks of the jobs of these priorities are decided too.
fn decide_last(
    alloc: Global,
    c: &Cluster,
    run: Run,
    prios: &List<Prio>,
    now: u64,
) -> Result<List<Decision>, AllocError>
    requires { IsUnderWay c.now run }
    ensures { IfOk result (λ decisions. decisions
        ≡ run_of c.now (tasks_decided run ++ order_of c.now prios.now now) run.moment) }
{
    let more = decide_jobs(alloc, c, run, prios, now)?;
    Ok(decisions_of(more))
}

// The decisions of a run on its basis, over all candidates at once.
fn decide_all(
    alloc: Global,
    c: &Cluster,
    basis: Basis,
    prios: &Prios,
    now: u64,
) -> Result<List<Decision>, AllocError>
    requires { IsBasis c.now basis }
    ensures { IfOk result (λ decisions.
        TellsRun c.now (order_of c.now prios.now now) basis.moment decisions) }
{
    let prios = prios.list(alloc)?;
    let run = begin_run(alloc, c, basis)?;
    let decisions = decide_last(alloc, c, run, &prios, now)?;
    Ok(decisions)
}

// The run on a basis with the tasks of the jobs before a bound decided.
fn decide_first(
    alloc: Global,
    c: &Cluster,
    basis: Basis,
    prios: &Prios,
    bound: &Bound,
    now: u64,
) -> Result<Run, AllocError>
    requires { IsBasis c.now basis }
    ensures under_way { IfOk result (λ begun. IsUnderWay c.now begun) }
    ensures moment { IfOk result (λ begun. begun.moment ≡ basis.moment) }
    ensures tasks { IfOk result (λ begun. tasks_decided begun
        ≡ order_of c.now (first_of bound.now prios.now) now) }
{
    let first = first_part(alloc, prios, bound)?;
    let run = begin_run(alloc, c, basis)?;
    let begun = decide_jobs(alloc, c, run, &first, now)?;
    Ok(begun)
}

// The decisions of a run once the tasks of the jobs behind a bound are decided too.
fn decide_second(
    alloc: Global,
    c: &Cluster,
    begun: Run,
    prios: &Prios,
    bound: &Bound,
    now: u64,
) -> Result<List<Decision>, AllocError>
    requires { IsUnderWay c.now begun }
    ensures { IfOk result (λ decisions. decisions ≡ run_of c.now
        (tasks_decided begun ++ order_of c.now (second_of bound.now prios.now) now)
        begun.moment) }
{
    let second = second_part(alloc, prios, bound)?;
    let decisions = decide_last(alloc, c, begun, &second, now)?;
    Ok(decisions)
}

// The decisions of a run on its basis, first over the jobs before a bound. Those of tasks that wait behind it are left out
// where each does.
fn decide_in_parts(
    alloc: Global,
    c: &Cluster,
    basis: Basis,
    prios: &Prios,
    bound: &Bound,
    now: u64,
) -> Result<List<Decision>, AllocError>
    requires { IsBasis c.now basis }
    ensures { IfOk result (λ decisions.
        TellsRun c.now (order_of c.now prios.now now) basis.moment decisions) }
{
    let begun = decide_first(alloc, c, basis, prios, bound, now)?;
    if others_wait(c, &begun) {
        return Ok(decisions_of(begun));
    }
    let decisions = decide_second(alloc, c, begun, prios, bound, now)?;
    Ok(decisions)
}

// The decisions of a run on its basis, over all candidates in the order of their priorities: in parts where there are many.
fn decide_prios(
    alloc: Global,
    c: &Cluster,
    basis: Basis,
    prios: &Prios,
    now: u64,
) -> Result<List<Decision>, AllocError>
    requires { IsBasis c.now basis }
    ensures { IfOk result (λ decisions.
        TellsRun c.now (order_of c.now prios.now now) basis.moment decisions) }
{
    match bound_for(alloc, prios, FEW)? {
        None => decide_all(alloc, c, basis, prios, now),
        Some(bound) => decide_in_parts(alloc, c, basis, prios, &bound, now),
    }
}

// The same over the priorities of all candidates.
fn decisions_on(
    alloc: Global,
    c: &Cluster,
    basis: Basis,
    now: u64,
) -> Result<List<Decision>, AllocError>
    requires { IsBasis c.now basis }
    ensures { IfOk result (λ decisions.
        TellsRun c.now (order_of c.now (prios_at c.now now) now) basis.moment decisions) }
{
    let prios = run_prios(alloc, c, now)?;
    let decisions = decide_prios(alloc, c, basis, &prios, now)?;
    Ok(decisions)
}

/// The decisions of a run of which anything is told. Where each task waits, in whatever order, none is made.
pub(crate) fn decisions_told(
    alloc: Global,
    c: &Cluster,
    e: &Event,
) -> Result<List<Decision>, AllocError>
    ensures { IfOk result (λ decisions. scheduling.decided e.now decisions
        ≡ scheduling.decided e.now (scheduling.decisions_at c.now e.now.moment)) }
{
    let basis = basis_of(alloc, c, e.moment)?;
    if all_wait(c, &basis) {
        return Ok(List::new(alloc));
    }
    let decisions = decisions_on(alloc, c, basis, e.moment)?;
    Ok(decisions)
}
