// The plan of end.
ghost use Rattle.std.specs.Prelude.{◌≡◌, ◌++◌, IfOk};
ghost use Rattle.ge_model_rows.specs.Faults.{after_faults, first_fault};
ghost use Rattle.ge_model_rows.specs.EntryRows.{End};
ghost use Rattle.ge_model_core.specs.Answers.{changed, done_lines};
ghost use Rattle.ge_model_core.specs.Configuring.{manager_faults};
ghost use Rattle.ge_model_core.specs.Reports.{serial_faults, end_faults, end_plan};

use crate::stopping::note_manager;
use ge_answers::{done, refuse};
use ge_base::Refusal;
use ge_jobs::is_running;
use ge_limits::AMOUNTS;
use ge_pieces::note;
use ge_rows::{Change, Cluster, Event, Planned};
use std::alloc::{AllocError, Global};

// A serial that was given out is that of a running task, or the report is stale.
fn note_serial(alloc: Global, cluster: &Cluster, serial: u64, faults: &mut Option<Refusal>)
    ensures { faults.new ≡ after_faults faults.old (serial_faults cluster.now serial) }
{
    if serial == 0 || cluster.next_serial <= serial {
        note(faults, true, Refusal::NoSuchObject);
    } else {
        let ended = !is_running(alloc, &cluster.jobs, serial);
        note(faults, ended, Refusal::StaleReport);
    }
}

// An exit status has a byte, and amounts have their bound.
fn note_amounts(exit: u64, cpu: u64, mem: u64, io: u64, faults: &mut Option<Refusal>)
    ensures { faults.new ≡ after_faults faults.old (end_faults exit cpu mem io) }
{
    let passes = 255 < exit || AMOUNTS <= cpu || AMOUNTS <= mem || AMOUNTS <= io;
    note(faults, passes, Refusal::BadValue);
}

fn end_fault(
    alloc: Global,
    cluster: &Cluster,
    e: &Event,
    serial: u64,
    exit: u64,
    cpu: u64,
    mem: u64,
    io: u64,
) -> Option<Refusal>
    ensures { result ≡ first_fault (manager_faults cluster.now e.now
        ++ serial_faults cluster.now serial ++ end_faults exit cpu mem io) }
{
    let mut faults = None;
    note_manager(cluster, e, &mut faults);
    note_serial(alloc, cluster, serial, &mut faults);
    note_amounts(exit, cpu, mem, io, &mut faults);
    faults
}

// An exit status that was accepted is below 256, so that it has room.
fn accept_end(
    alloc: Global,
    e: &Event,
    serial: u64,
    exit: u64,
    cpu: u64,
    mem: u64,
    io: u64,
) -> Result<Planned, AllocError>
    ensures { IfOk result (λ planned. planned ≡ changed e.now
        (End serial exit cpu mem io) done_lines) }
{
    match u32::try_from(exit) {
        Ok(exit) => done(alloc, e, Change::End(serial, exit, cpu, mem, io)),
        Err(_) => Err(AllocError),
    }
}

/// The plan of `end`: the task of a serial ended, with its exit status and what it used. The line is `done`.
///
/// `NotPermitted` comes where the user is no manager, `NoSuchObject` for a serial that no run has given out, `BadValue` for an exit
/// status above 255 and an amount of 2^48 or more, and `StaleReport` for a serial whose task runs no more. See the manual page
/// accounting.
#[tactic(auto, unfolding(ge_model_core::specs::Reports::end_plan))]
pub fn plan_end(
    alloc: Global,
    cluster: &Cluster,
    e: &Event,
    serial: u64,
    exit: u64,
    cpu: u64,
    mem: u64,
    io: u64,
) -> Result<Planned, AllocError>
    ensures { IfOk result (λ planned. planned ≡ end_plan cluster.now e.now serial exit cpu mem io) }
{
    match end_fault(alloc, cluster, e, serial, exit, cpu, mem, io) {
        Some(refusal) => refuse(alloc, refusal),
        None => accept_end(alloc, e, serial, exit, cpu, mem, io),
    }
}
