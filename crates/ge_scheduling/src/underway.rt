// A run under way: its tasks are decided part by part.
ghost use Rattle.std.specs.Prelude.{◌≡◌, ◌++◌, [], IfOk, IsTrue};
ghost use Rattle.ge_model_rows.specs.ClusterRows.{Cluster as Rows};
ghost use Rattle.ge_model_place.specs.Running.{run_of};
ghost use Rattle.ge_scheduling.specs.Bases.{IsBasis};
ghost use Rattle.ge_scheduling.specs.UnderWay.{IsUnderWay, OthersWait, leaves_nothing, tasks_decided};

use crate::advancing::{Progress, advance_all, begin};
use crate::basis::{Basis, none_is_kept};
use ge_attempts::{Holders, Setting, holders_of, kinds_of, no_slot_is_left};
use ge_opening::any_forced;
use ge_rows::{Cluster, Decision, Groups, InstanceId, List, TaskId};
use ge_site::global_host;
use std::alloc::{AllocError, Global};
use std::collections::{BTreeMap, BTreeSet};

/// A run under way: what stays the same during it, and what was booked and decided so far. Contracts say by the tasks of its
/// decisions which run it is.
#[derive(Drop)]
pub struct Run {
    pub(crate) moment: u64,
    pub(crate) groups: Groups,
    pub(crate) order: List<InstanceId>,
    pub(crate) holders: Holders,
    pub(crate) so_far: Progress,
}

/// A run on its basis, of which no task is decided yet.
///
/// # Errors
///
/// Where there is no memory for what is left at each instance.
pub fn begin_run(alloc: Global, cluster: &Cluster, basis: Basis) -> Result<Run, AllocError>
    requires { IsBasis cluster.now basis }
    ensures under_way { IfOk result (λ run. IsUnderWay cluster.now run) }
    ensures moment { IfOk result (λ run. run.moment ≡ basis.moment) }
    ensures none { IfOk result (λ run. tasks_decided run ≡ []) }
{
    let Basis {
        moment,
        groups,
        order,
        booked,
        vacant: _,
    } = basis;
    let holders = holders_of(alloc, cluster, order.items())?;
    let none = BTreeMap::new(alloc);
    let at = Setting {
        cluster,
        groups: &groups,
        order: order.items(),
        holders: &holders,
        kinds: kinds_of(cluster, &none),
        moment,
        global: global_host(alloc, cluster)?,
        forced: any_forced(cluster),
    };
    let so_far = begin(alloc, &at, booked)?;
    Ok(Run {
        moment,
        groups,
        order,
        holders,
        so_far,
    })
}

/// The run with these tasks decided too, in their order: as the model's run over all its tasks does.
///
/// # Errors
///
/// Where there is no memory for the decisions or what they book.
pub fn decide_tasks(
    alloc: Global,
    cluster: &Cluster,
    run: Run,
    tasks: &[TaskId],
) -> Result<Run, AllocError>
    requires { IsUnderWay cluster.now run }
    ensures under_way { IfOk result (λ more. IsUnderWay cluster.now more) }
    ensures moment { IfOk result (λ more. more.moment ≡ run.moment) }
    ensures tasks { IfOk result (λ more. tasks_decided more ≡ tasks_decided run ++ tasks.now) }
{
    let Run {
        moment,
        groups,
        order,
        holders,
        mut so_far,
    } = run;
    so_far.full = BTreeSet::new(alloc);
    let none = BTreeMap::new(alloc);
    let at = Setting {
        cluster,
        groups: &groups,
        order: order.items(),
        holders: &holders,
        kinds: kinds_of(cluster, &none),
        moment,
        global: global_host(alloc, cluster)?,
        forced: any_forced(cluster),
    };
    let so_far = advance_all(alloc, &at, so_far, tasks)?;
    Ok(Run {
        moment,
        groups,
        order,
        holders,
        so_far,
    })
}

/// Whether each task that isn't decided yet waits, in whatever order they are: no instance has enough left for any job, there is
/// no reservation that a job may be sent into, and as many tasks have slots kept as may, or no job asks for it (sched_conf,
/// `max_reservation`; qsub, `-R`).
pub fn others_wait(cluster: &Cluster, run: &Run) -> bool
    requires { IsUnderWay cluster.now run.now }
    ensures left { result ≡ leaves_nothing cluster.now run.now }
    ensures waits { IsTrue result → OthersWait cluster.now run.now }
{
    no_slot_is_left(cluster, &run.so_far.room.vacant)
        && none_is_kept(cluster, run.so_far.tally.reserved)
}

/// The decisions of a run on the tasks that were decided.
pub fn decisions_of(run: Run) -> List<Decision>
    ensures made { result ≡ run.so_far.decisions }
    ensures computed { (c : Rows) → IsUnderWay c run
        → result ≡ run_of c (tasks_decided run) run.moment }
{
    let Run {
        moment: _,
        groups: _,
        order: _,
        holders: _,
        so_far,
    } = run;
    let Progress {
        booked: _,
        decisions,
        tally: _,
        passed: _,
        full: _,
        room: _,
    } = so_far;
    decisions
}
