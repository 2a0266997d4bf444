// Tasks that are deleted.
ghost use Rattle.std.specs.Prelude.{◌≡◌, ◌++◌, IfOk, OnOk, OnErr, cond, filter, fold, flat_map, map};
ghost use Rattle.std.specs.Map.{keys_of};
ghost use Rattle.ge_collections.specs.Keyed.{drop_number};
ghost use Rattle.ge_model_jobs.specs.Picks.{names_task};
ghost use Rattle.ge_model_jobs.specs.Ending.{has_no_task, without_picked, is_unnamed, marked, run_on, lose_tasks};
ghost use Rattle.ge_model_rows.specs.Pieces.{is_empty as has_nothing};
ghost use Rattle.ge_jobs.specs.Deletions.{deleting, mark_number, marks_if_named, lost_by_delete, without_spent};

use crate::asking::get;
use crate::ending::{has_none, remove};
use crate::narrowing::narrowed;
use crate::picking::{NamedTasks, names, unnamed_in};
use ge_collections::Edit;
use ge_rows::{InRow, Job, JobMark, JobTable, List, Running, Table, TaskSet, TryEdit, task_marks};
use std::alloc::{AllocError, Global};

// A running task is marked for deletion.
#[derive(Clone, Copy)]
struct Marked;

impl Edit<Running> for Marked {
    ghost edited = { λ m task. deleting task };

    fn edit(&self, task: &mut Running) {
        task.deleting = true;
    }
}

// The numbers of the running tasks that a target names.
fn named_numbers(
    alloc: Global,
    tasks: &Option<TaskSet>,
    running: &Table<u32, Running>,
) -> Result<List<u32>, AllocError>
    ensures { IfOk result (λ numbers. numbers ≡ filter (names_task tasks.now)
        (keys_of running.now)) }
{
    let mut numbers = List::new(alloc);
    for number in running.keys() {
        if names(tasks, *number) {
            numbers.push(*number)?;
        }
    }
    Ok(numbers)
}

fn remove_all(running: &mut Table<u32, Running>, numbers: &[u32])
    ensures { running.new ≡ fold drop_number running.old numbers.now }
{
    for number in numbers {
        let _task = running.remove(number);
    }
}

fn mark_all(running: &mut Table<u32, Running>, numbers: &[u32])
    ensures { running.new ≡ fold mark_number running.old numbers.now }
{
    for number in numbers {
        let _found = running.change(number, &Marked);
    }
}

// By force those named are gone.
#[tactic(auto, using(crate::proofs::NamedRows::all_removed))]
fn remove_named(
    alloc: Global,
    tasks: &Option<TaskSet>,
    running: &mut Table<u32, Running>,
) -> Result<(), AllocError>
    ensures ok { OnOk result (running.new ≡ filter (is_unnamed tasks.now) running.old) }
    ensures err { OnErr result (running.new ≡ running.old) }
{
    running.orderly();
    let numbers = named_numbers(alloc, tasks, running)?;
    remove_all(running, numbers.items());
    Ok(())
}

// Else they are marked.
#[tactic(auto, using(crate::proofs::NamedRows::all_marked))]
fn mark_named(
    alloc: Global,
    tasks: &Option<TaskSet>,
    running: &mut Table<u32, Running>,
) -> Result<(), AllocError>
    ensures ok { OnOk result (running.new ≡ map (marked tasks.now) running.old) }
    ensures err { OnErr result (running.new ≡ running.old) }
{
    running.orderly();
    let numbers = named_numbers(alloc, tasks, running)?;
    mark_all(running, numbers.items());
    Ok(())
}

// The running tasks after a deletion.
fn run_without(
    alloc: Global,
    force: bool,
    tasks: &Option<TaskSet>,
    running: &mut Table<u32, Running>,
) -> Result<(), AllocError>
    ensures ok { OnOk result (running.new ≡ run_on force tasks.now running.old) }
    ensures err { OnErr result (running.new ≡ running.old) }
{
    if force {
        remove_named(alloc, tasks, running)?;
        return Ok(());
    }
    mark_named(alloc, tasks, running)?;
    Ok(())
}

// A job loses the tasks that a target names.
fn delete_in(
    alloc: Global,
    force: bool,
    tasks: &Option<TaskSet>,
    job: &mut Job,
) -> Result<(), AllocError>
    ensures ok { OnOk result (job.new ≡ without_picked force tasks.now job.old) }
    ensures err { OnErr result (job.new ≡ job.old) }
{
    let queued = unnamed_in(alloc, tasks, &job.queued)?;
    let broken = unnamed_in(alloc, tasks, &job.broken)?;
    run_without(alloc, force, tasks, &mut job.running)?;
    job.queued = queued;
    job.broken = broken;
    Ok(())
}

// One more task's marks, where a target names it.
fn push_named(
    alloc: Global,
    marks: &mut Vec<JobMark>,
    tasks: &Option<TaskSet>,
    number: u32,
    task: &Running,
) -> Result<(), AllocError>
    ensures { OnOk result (marks.new.items ≡ marks.old.items
        ++ marks_if_named tasks.now (number, task.now)) }
{
    if names(tasks, number) {
        let mut more = task_marks(alloc, task)?;
        marks.append(&mut more)?;
    }
    Ok(())
}

// The marks of the running tasks that a target names.
fn named_marks(
    alloc: Global,
    tasks: &Option<TaskSet>,
    running: &Table<u32, Running>,
) -> Result<Vec<JobMark>, AllocError>
    ensures { IfOk result (λ marks. marks.items ≡ flat_map (marks_if_named tasks.now) running.now) }
{
    let mut marks = Vec::new(alloc);
    for row in running.iter() {
        push_named(alloc, &mut marks, tasks, *row.0, row.1)?;
    }
    Ok(marks)
}

// A deletion, as an edit of its job.
#[derive(Clone, Copy)]
struct Deleted<'a> {
    force: bool,
    tasks: &'a Option<TaskSet>,
}

impl TryEdit<Job> for Deleted<'_> {
    ghost edited = { λ d job. without_picked d.force d.tasks.now job };

    ghost lost = { λ d job. lost_by_delete d.force d.tasks.now job };

    fn lost(&self, alloc: Global, job: &Job) -> Result<Vec<JobMark>, AllocError> {
        if !self.force {
            return Ok(Vec::new(alloc));
        }
        named_marks(alloc, self.tasks, &job.running)
    }

    fn gained(&self, alloc: Global, _job: &Job) -> Result<Vec<JobMark>, AllocError> {
        Ok(Vec::new(alloc))
    }

    fn relabels(&self, _job: &Job) -> bool {
        false
    }

    fn try_edit(&self, alloc: Global, job: &mut Job) -> Result<(), AllocError> {
        delete_in(alloc, self.force, self.tasks, job)?;
        Ok(())
    }
}

fn runs_none(running: &Table<u32, Running>) -> bool
    ensures { result ≡ has_nothing running.now }
{
    running.len() == 0
}

// Whether a job has no task.
fn is_without_tasks(job: &Job) -> bool
    ensures { result ≡ has_no_task job.now }
{
    has_none(&job.queued) && has_none(&job.broken) && runs_none(&job.running)
}

// A job without a task left goes.
fn drop_spent(jobs: &mut JobTable, number: u32)
    ensures { jobs.new ≡ without_spent jobs.old number }
{
    let Some(job) = get(jobs, number) else {
        return;
    };
    if is_without_tasks(job) {
        remove(jobs, number);
    }
}

/// The tasks of a job that a target names are deleted (qdel): those that wait or are in error go, and those that run are
/// marked, or go by force (qdel -f). A job without a task left goes. After want of memory the table is as it was.
#[tactic(auto, using(crate::proofs::NamedRows::one_deleted))]
pub fn delete(
    alloc: Global,
    jobs: &mut JobTable,
    number: u32,
    force: bool,
    tasks: &Option<TaskSet>,
) -> Result<(), AllocError>
    ensures ok { OnOk result (jobs.new ≡ lose_tasks
        (without_picked force tasks.now) jobs.old number) }
    ensures err { OnErr result (jobs.new ≡ jobs.old) }
{
    let edit = InRow {
        edit: &Deleted { force, tasks },
    };
    let _found = jobs.try_change(alloc, &number, &edit)?;
    drop_spent(jobs, number);
    Ok(())
}

/// The tasks of a job that targets name together are deleted. A job that isn't there stays so. After want of memory the table is
/// as it was.
pub fn delete_named(
    alloc: Global,
    jobs: &mut JobTable,
    number: u32,
    force: bool,
    named: &NamedTasks,
) -> Result<(), AllocError>
    ensures ok { OnOk result (jobs.new ≡ lose_tasks
        (without_picked force named.now) jobs.old number) }
    ensures err { OnErr result (jobs.new ≡ jobs.old) }
{
    let Some(job) = get(jobs, number) else {
        return Ok(());
    };
    let part = narrowed(alloc, named, job)?;
    delete(alloc, jobs, number, force, &part)?;
    Ok(())
}
