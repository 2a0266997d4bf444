// What an entry makes of a world.
ghost use Rattle.std.specs.Prelude.{◌≡◌, ◌++◌, ◌==◌, IfOk, OnOk, Some, map};
ghost use Rattle.std.specs.List.{list_any};
ghost use Rattle.ge_model_core.specs.Plan.{plan_of};
ghost use Rattle.ge_model_jobs.specs.Soundness.{serial_of, serials_of};
ghost use Rattle.ge_model_world.specs.Worlds.{finish_by, gone, with_entry};
ghost use Rattle.ge_world_laws.specs.Product.{is_end as is_end_change, product};

use ge_core::{apply, plan};
use ge_model_world::{Finished, World};
use ge_rows::{Change, Entry, Event, Job, JobTable, List, Reply};
use std::alloc::{AllocError, Global};

// Puts the serials of a job's running tasks behind others.
fn put_serials(serials: &mut List<u64>, job: &Job) -> Result<(), AllocError>
    ensures { OnOk result (serials.new ≡ serials.old ++ map serial_of job.now.running) }
{
    for (_task, running) in job.running.iter() {
        serials.push(running.serial)?;
    }
    Ok(())
}

// The serials of all running tasks, by job and task.
fn running_serials(alloc: Global, jobs: &JobTable) -> Result<List<u64>, AllocError>
    ensures { IfOk result (λ serials. serials ≡ serials_of jobs.now) }
{
    let mut serials = List::new(alloc);
    for (_number, row) in jobs.iter() {
        put_serials(&mut serials, row.job())?;
    }
    Ok(serials)
}

fn is_among(serials: &[u64], serial: u64) -> bool
    ensures { result ≡ list_any (λ n. n == serial) serials.now }
{
    serials.iter().any(|n| *n == serial)
}

fn finish(is_end: bool, place: u64, serial: u64) -> Finished
    ensures { result ≡ finish_by is_end place serial }
{
    if is_end {
        Finished::Reported(serial, place)
    } else {
        Finished::Forced(serial)
    }
}

// Notes the serials that run before and not after as accounted.
fn note_finished(
    finished: &mut List<Finished>,
    before: &[u64],
    after: &[u64],
    is_end: bool,
    place: u64,
) -> Result<(), AllocError>
    ensures { OnOk result (finished.new
        ≡ finished.old ++ map (finish_by is_end place) (gone before.now after.now)) }
{
    for serial in before {
        if !is_among(after, *serial) {
            finished.push(finish(is_end, place, *serial))?;
        }
    }
    Ok(())
}

fn is_end(change: &Change) -> bool
    ensures { result ≡ is_end_change change.now }
{
    match change {
        Change::End(_, _, _, _, _) => true,
        _ => false,
    }
}

// The world after an entry of its master. After want of memory it is given up.
fn take_entry(alloc: Global, w: &mut World, entry: Entry) -> Result<(), AllocError>
    ensures { OnOk result (w.new ≡ with_entry product w.old (Some entry)) }
{
    let before = running_serials(alloc, &w.cluster.jobs)?;
    let place = w.cluster.lines.len() as u64;
    let ends = is_end(&entry.change);
    apply(alloc, &mut w.cluster, entry)?;
    let after = running_serials(alloc, &w.cluster.jobs)?;
    note_finished(&mut w.finished, before.items(), after.items(), ends, place)
}

// The world after what may be an entry.
fn take_change(alloc: Global, w: &mut World, entry: Option<Entry>) -> Result<(), AllocError>
    ensures world { OnOk result (w.new ≡ with_entry product w.old entry) }
    ensures sent { OnOk result (w.new.sent ≡ w.old.sent) }
    ensures reports { OnOk result (w.new.reports ≡ w.old.reports) }
{
    match entry {
        Some(entry) => take_entry(alloc, w, entry),
        None => Ok(()),
    }
}

/// The master handles an event: its reply, and the world after its entry.
pub(crate) fn handle_event(alloc: Global, w: &mut World, e: &Event) -> Result<Reply, AllocError>
    ensures world { OnOk result (w.new
        ≡ with_entry product w.old (plan_of w.old.cluster e.now).entry) }
    ensures sent { OnOk result (w.new.sent ≡ w.old.sent) }
    ensures reports { OnOk result (w.new.reports ≡ w.old.reports) }
    ensures reply { IfOk result (λ reply. reply ≡ (plan_of w.old.cluster e.now).reply) }
{
    let (entry, reply, _stop) = plan(alloc, &w.cluster, e)?.into_parts();
    take_change(alloc, w, entry)?;
    Ok(reply)
}
