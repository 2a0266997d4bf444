// The plans of orders and job, and those of qacct and qrstat.
ghost use Rattle.std.specs.Prelude.{◌≡◌, IfOk};
ghost use Rattle.ge_model_core.specs.Reports.{orders_plan, task_plan};
ghost use Rattle.ge_model_core.specs.Showing.{job_account_plan, account_plan};
ghost use Rattle.ge_model_core.specs.Booking.{show_booked_plan};

use crate::stopping::note_manager;
use ge_answers::{refuse, show};
use ge_base::Refusal;
use ge_jobs::is_running;
use ge_listing::{account, booked_lines, orders, task_lines};
use ge_pieces::note;
use ge_rows::{Cluster, Event, List, Planned, Query, Text};
use std::alloc::{AllocError, Global};

/// The plan of `orders`: what a host is to run and to kill, by serial.
///
/// `NotPermitted` comes where the user is no manager, and `NoSuchObject` for a host that isn't there.
#[tactic(auto, unfolding(ge_model_core::specs::Reports::orders_plan))]
pub fn plan_orders(
    alloc: Global,
    cluster: &Cluster,
    e: &Event,
    host: &Text,
) -> Result<Planned, AllocError>
    ensures { IfOk result (λ planned. planned ≡ orders_plan cluster.now e.now host.now) }
{
    let mut faults = None;
    note_manager(cluster, e, &mut faults);
    let missing = cluster.hosts.get(host).is_none();
    note(&mut faults, missing, Refusal::NoSuchObject);
    match faults {
        Some(refusal) => refuse(alloc, refusal),
        None => Ok(show(orders(alloc, cluster, host)?)),
    }
}

/// The plan of `job`: what the task of a serial is to do.
///
/// `NotPermitted` comes where the user is no manager, and `NoSuchObject` for a serial that no running task has.
#[tactic(auto, unfolding(ge_model_core::specs::Reports::task_plan))]
pub fn plan_task(
    alloc: Global,
    cluster: &Cluster,
    e: &Event,
    serial: u64,
) -> Result<Planned, AllocError>
    ensures { IfOk result (λ planned. planned ≡ task_plan cluster.now e.now serial) }
{
    let mut faults = None;
    note_manager(cluster, e, &mut faults);
    let missing = !is_running(alloc, &cluster.jobs, serial);
    note(&mut faults, missing, Refusal::NoSuchObject);
    match faults {
        Some(refusal) => refuse(alloc, refusal),
        None => Ok(show(task_lines(alloc, cluster, serial)?)),
    }
}

// A job without accounting lines isn't known.
fn show_some(alloc: Global, lines: List<Text>) -> Result<Planned, AllocError>
    ensures { IfOk result (λ planned. planned ≡ job_account_plan lines) }
{
    if lines.len() == 0 {
        return refuse(alloc, Refusal::NoSuchObject);
    }
    Ok(show(lines))
}

/// The plan of `qacct`: accounting lines, or their sums. Anybody may ask.
///
/// `NoSuchObject` comes for a job that has no line. See the manual page qacct.
#[tactic(auto, unfolding(ge_model_core::specs::Showing::account_plan))]
pub fn plan_account(alloc: Global, cluster: &Cluster, what: &Query) -> Result<Planned, AllocError>
    ensures { IfOk result (λ planned. planned ≡ account_plan cluster.now what.now) }
{
    let lines = account(alloc, cluster, what)?;
    match what {
        Query::Job(_) => show_some(alloc, lines),
        Query::Total => Ok(show(lines)),
        Query::Owner(_) => Ok(show(lines)),
    }
}

/// The plan of `qrstat`: advance reservations, all or the one with a number. Anybody may ask.
///
/// `NoSuchObject` comes for a number that no reservation has. See the manual page qrstat.
#[tactic(auto, unfolding(ge_model_core::specs::Booking::show_booked_plan))]
pub fn plan_show_booked(
    alloc: Global,
    cluster: &Cluster,
    e: &Event,
    one: Option<u32>,
) -> Result<Planned, AllocError>
    ensures { IfOk result (λ planned. planned ≡ show_booked_plan cluster.now e.now one) }
{
    if let Some(number) = one {
        if cluster.advances.get(&number).is_none() {
            return refuse(alloc, Refusal::NoSuchObject);
        }
    }
    let lines = booked_lines(alloc, cluster, one, e.moment)?;
    Ok(show(lines))
}
