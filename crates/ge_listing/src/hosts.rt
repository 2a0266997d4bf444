//! What a host is to run and to kill.

ghost use Rattle.std.specs.Prelude.{◌≡◌, ◌++◌, ◌∷◌, [], IfOk, OnOk, codes, decimal, fold, map};
ghost use Rattle.std.specs.Map.{values_of};
ghost use Rattle.ge_model_report.specs.Orders.{is_run_at, order_text, orders_of};
ghost use Rattle.ge_listing.specs.Gathered.{on_host, with_order, with_orders, with_orders_at};

use crate::grants::slots_of;
use ge_printing::{Column, join_columns};
use ge_rows::{
    Cluster, Grant, Job, JobMark, JobTable, List, MarkSort, Running, Text, Twin, job_at,
};
use std::alloc::{AllocError, Global};
use std::collections::BTreeMap;

/// Where an order stands: by its serial, then its job, then its task.
type Place = (u64, u32, u32);

fn is_run_at(host: &Text, grants: &[Grant]) -> bool
    ensures { result ≡ is_run_at host.now grants.now }
{
    match grants {
        [] => false,
        [grant, ..] => grant.at.host == *host,
    }
}

// To run a task, or to kill one that is marked for deletion.
fn order_of(alloc: Global, job: u32, task: u32, running: &Running) -> Result<Text, AllocError>
    ensures { IfOk result (λ text. text ≡ order_text
        ((running.now.serial, job, task), running.now)) }
{
    let serial = Column::Number(u128::from(running.serial));
    if running.deleting {
        return join_columns(alloc, &[Column::Word(b"kill"), serial]);
    }
    let columns = [
        Column::Word(b"run"),
        serial,
        Column::Number(u128::from(job)),
        Column::Number(u128::from(task)),
        Column::Number(slots_of(running.grants.items())),
    ];
    join_columns(alloc, &columns)
}

// One more task, where the host runs it.
fn put_task(
    alloc: Global,
    texts: &mut BTreeMap<Place, Text>,
    host: &Text,
    job: u32,
    task: u32,
    running: &Running,
) -> Result<(), AllocError>
    ensures { OnOk result (texts.new.entries ≡ with_order host.now job texts.old.entries
        (task, running.now)) }
{
    if !is_run_at(host, running.grants.items()) {
        return Ok(());
    }
    let text = order_of(alloc, job, task, running)?;
    texts.insert((running.serial, job, task), text)?;
    Ok(())
}

fn put_job(
    alloc: Global,
    texts: &mut BTreeMap<Place, Text>,
    host: &Text,
    number: u32,
    job: &Job,
) -> Result<(), AllocError>
    ensures { OnOk result (texts.new.entries ≡ with_orders host.now texts.old.entries
        (number, job.now)) }
{
    for (task, running) in job.running.iter() {
        put_task(alloc, texts, host, number, *task, running)?;
    }
    Ok(())
}

// The numbers of the jobs that have slots of a host, which the table keeps.
fn jobs_on(alloc: Global, jobs: &JobTable, host: &Text) -> Result<Vec<u32>, AllocError>
    ensures { IfOk result (λ numbers. numbers.items ≡ on_host host.now jobs.now) }
{
    let mark = JobMark::new(alloc, MarkSort::Host, host.bytes(), b"", 0)?;
    jobs.bearers(alloc, &mark)
}

fn put_job_at(
    alloc: Global,
    texts: &mut BTreeMap<Place, Text>,
    host: &Text,
    jobs: &JobTable,
    number: u32,
) -> Result<(), AllocError>
    ensures { OnOk result (texts.new.entries ≡ with_orders_at host.now jobs.now
        texts.old.entries number) }
{
    match job_at(jobs, number) {
        Some(job) => put_job(alloc, texts, host, number, job),
        None => Ok(()),
    }
}

fn gathered_at(
    alloc: Global,
    jobs: &JobTable,
    host: &Text,
    numbers: Vec<u32>,
) -> Result<BTreeMap<Place, Text>, AllocError>
    ensures { IfOk result (λ texts. texts.entries
        ≡ fold (with_orders_at host.now jobs.now) [] numbers.items) }
{
    let mut texts = BTreeMap::new(alloc);
    for number in numbers {
        put_job_at(alloc, &mut texts, host, jobs, number)?;
    }
    Ok(texts)
}

// The orders of all jobs. Those that have no slots of the host aren't looked at.
fn gathered(
    alloc: Global,
    jobs: &JobTable,
    host: &Text,
) -> Result<BTreeMap<Place, Text>, AllocError>
    ensures { IfOk result (λ texts. texts.entries ≡ fold (with_orders host.now) [] jobs.now) }
{
    jobs.orderly();
    let numbers = jobs_on(alloc, jobs, host)?;
    gathered_at(alloc, jobs, host, numbers)
}

fn gathered_lines(alloc: Global, jobs: &JobTable, host: &Text) -> Result<List<Text>, AllocError>
    ensures { IfOk result (λ lines. lines ≡ values_of (fold (with_orders host.now) [] jobs.now)) }
{
    let texts = gathered(alloc, jobs, host)?;
    let mut lines = List::new(alloc);
    for text in texts.values() {
        lines.push(text.twin(alloc)?)?;
    }
    Ok(lines)
}

/// What the daemon of a host is to run and to kill, by serial: the tasks whose first grant is on the host.
///
/// A line is `run`, the serial, the job, the task and the slots of all grants, or `kill` and the serial of a task that is
/// marked for deletion.
#[tactic(auto, using(crate::proofs::GatheredOrders::gathered_are_orders))]
pub fn orders(alloc: Global, c: &Cluster, host: &Text) -> Result<List<Text>, AllocError>
    ensures { IfOk result (λ lines. lines ≡ orders_of c.now host.now) }
{
    match gathered_lines(alloc, &c.jobs, host) {
        Ok(lines) => Ok(lines),
        Err(want) => Err(want),
    }
}
