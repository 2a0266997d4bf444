// A run.
ghost use Rattle.std.specs.Prelude.{◌≡◌, IfOk};
ghost use Rattle.ge_model_place.specs.Running.{run_of};
ghost use Rattle.ge_model_place.specs.Runs.{IsRun, KeepsLimits, DecidesEach};
ghost use Rattle.ge_scheduling.specs.Sooner.{ReservesEarliest};

use crate::basis::basis_of;
use crate::underway::{begin_run, decide_tasks, decisions_of};
use ge_rows::{Cluster, Decision, List, TaskId};
use std::alloc::{AllocError, Global};

fn decide_all(
    alloc: Global,
    cluster: &Cluster,
    order: &[TaskId],
    now: u64,
) -> Result<List<Decision>, AllocError>
    ensures { IfOk result (λ decisions. decisions ≡ run_of cluster.now order.now now) }
{
    let basis = basis_of(alloc, cluster, now)?;
    let begun = begin_run(alloc, cluster, basis)?;
    let run = decide_tasks(alloc, cluster, begun, order)?;
    Ok(decisions_of(run))
}

/// The decisions of a run over these tasks at a moment, in seconds: one for each, in their order. Groups are spelled out and
/// instances are put in order once, at the start.
///
/// - `run`: each task starts where its owner may have one more and it can be placed now, over what is booked by then; else it
///   is reserved at the first end of a booking at which it can be placed, where its job asks for that and fewer were reserved
///   than may be; else it waits. A task whose job isn't there waits, and so does one for which no number is left.
/// - `limits`: from now on never more of a limit is booked than there is, unless more was booked before the run.
/// - `earliest`: a task of a job without a parallel environment is reserved no later than it could start.
///
/// See the manual page sched_conf, and qsub for `-R`.
///
/// # Errors
///
/// Where there is no memory for the decisions or what they book.
pub fn run(
    alloc: Global,
    cluster: &Cluster,
    order: &[TaskId],
    now: u64,
) -> Result<List<Decision>, AllocError>
    ensures computed { IfOk result (λ decisions. decisions ≡ run_of cluster.now order.now now) }
    ensures each { IfOk result (λ decisions. DecidesEach order.now decisions) }
    ensures run { IfOk result (λ decisions. IsRun cluster.now order.now now decisions) }
    ensures limits { IfOk result (λ decisions. KeepsLimits cluster.now now decisions) }
    ensures earliest { IfOk result (λ decisions. ReservesEarliest cluster.now now decisions) }
{
    decide_all(alloc, cluster, order, now)
}
