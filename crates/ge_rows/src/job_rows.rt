// What the table of jobs keeps of them.
ghost use Rattle.std.specs.Prelude.{◌≡◌, ◌≤◌, ◌^◌, ◌++◌, [], ◌∷◌, IfOk, OnOk, map, flat_map};
ghost use Rattle.ge_rows.specs.Marks.{mark_of, project_marks, advance_marks, grant_marks, task_marks as marks_of_task, pe_marks, attribute_mark, own_marks};
ghost use Rattle.ge_rows.specs.Weights.{live_tasks as live_of};
ghost use Rattle.ge_rows.specs.JobShort.{job_facts as facts_of_job};
ghost use Rattle.ge_job_index.specs.Marked.{is_among};
ghost use Rattle.std.specs.Map.{keys_of, values_of};

use crate::asked::{least_amount, shortest_time};
use crate::jobs::{Grant, Job, PeRequest, Running};
use crate::labels::{JobFacts, JobLabel, labels_of};
use crate::marks::{JobMark, MarkSort};
use crate::tasks::{TaskSet, TaskSpan};
use crate::values::Value;
use ge_collections::{Table, Text, Twin, twins2};
use ge_job_index::Row;
use std::alloc::{AllocError, Global};

// One mark more, of one name.
fn push(
    alloc: Global,
    marks: &mut Vec<JobMark>,
    sort: MarkSort,
    name: &Text,
    number: u64,
) -> Result<(), AllocError>
    ensures { OnOk result (marks.new.items ≡ marks.old.items ++ mark_of sort name.now [] number ∷ []) }
{
    let mark = JobMark {
        sort,
        name: name.twin(alloc)?,
        other: Text::new(alloc),
        number,
    };
    marks.push(mark)?;
    Ok(())
}

// One mark more, of two names.
fn push_two(
    alloc: Global,
    marks: &mut Vec<JobMark>,
    sort: MarkSort,
    name: &Text,
    other: &Text,
) -> Result<(), AllocError>
    ensures { OnOk result (marks.new.items ≡ marks.old.items ++ mark_of sort name.now other.now 0 ∷ []) }
{
    let (name, other) = twins2(alloc, name, other)?;
    let mark = JobMark {
        sort,
        name,
        other,
        number: 0,
    };
    marks.push(mark)?;
    Ok(())
}

// The marks of a task's grants.
fn push_grants(alloc: Global, marks: &mut Vec<JobMark>, grants: &[Grant]) -> Result<(), AllocError>
    ensures { OnOk result (marks.new.items ≡ marks.old.items ++ flat_map grant_marks grants.now) }
{
    for grant in grants {
        push(alloc, marks, MarkSort::Queue, &grant.at.queue, 0)?;
        push(alloc, marks, MarkSort::Host, &grant.at.host, 0)?;
    }
    Ok(())
}

// The marks of a running task.
fn push_task(alloc: Global, marks: &mut Vec<JobMark>, task: &Running) -> Result<(), AllocError>
    ensures { OnOk result (marks.new.items ≡ marks.old.items ++ marks_of_task task.now) }
{
    let none = Text::new(alloc);
    push(alloc, marks, MarkSort::Runs, &none, 0)?;
    push(alloc, marks, MarkSort::Serial, &none, task.serial)?;
    push_grants(alloc, marks, task.grants.items())
}

// How many marks a running task has, so that room for them is made once.
fn room_for(task: &Running) -> usize {
    task.grants.len().saturating_mul(2).saturating_add(2)
}

/// The marks that a running task gives its job. An edit that starts or ends one tells them to the table of jobs.
pub fn task_marks(alloc: Global, task: &Running) -> Result<Vec<JobMark>, AllocError>
    ensures { IfOk result (λ marks. marks.items ≡ marks_of_task task.now) }
{
    let mut marks = Vec::with_capacity(alloc, room_for(task))?;
    push_task(alloc, &mut marks, task)?;
    Ok(marks)
}

// The marks of all running tasks.
fn push_tasks(
    alloc: Global,
    marks: &mut Vec<JobMark>,
    running: &Table<u32, Running>,
) -> Result<(), AllocError>
    ensures { OnOk result (marks.new.items ≡ marks.old.items ++ flat_map marks_of_task (values_of running.now)) }
{
    for task in running.values() {
        push_task(alloc, marks, task)?;
    }
    Ok(())
}

// The marks of the attributes that are asked for.
fn push_asked(
    alloc: Global,
    marks: &mut Vec<JobMark>,
    asked: &Table<Text, Value>,
) -> Result<(), AllocError>
    ensures { OnOk result (marks.new.items ≡ marks.old.items ++ map attribute_mark (keys_of asked.now)) }
{
    for name in asked.keys() {
        push(alloc, marks, MarkSort::Attribute, name, 0)?;
    }
    Ok(())
}

// The mark of a project, where there is one.
fn push_project(alloc: Global, marks: &mut Vec<JobMark>, project: &Text) -> Result<(), AllocError>
    ensures { OnOk result (marks.new.items ≡ marks.old.items ++ project_marks project.now) }
{
    if project.is_empty() {
        return Ok(());
    }
    push(alloc, marks, MarkSort::Project, project, 0)
}

// The mark of an advance reservation, where there is one.
fn push_advance(alloc: Global, marks: &mut Vec<JobMark>, advance: u32) -> Result<(), AllocError>
    ensures { OnOk result (marks.new.items ≡ marks.old.items ++ advance_marks advance) }
{
    if advance == 0 {
        return Ok(());
    }
    push(
        alloc,
        marks,
        MarkSort::Advance,
        &Text::new(alloc),
        u64::from(advance),
    )
}

// The mark of a parallel environment, where one is asked for.
fn push_pe(
    alloc: Global,
    marks: &mut Vec<JobMark>,
    pe: &Option<PeRequest>,
) -> Result<(), AllocError>
    ensures { OnOk result (marks.new.items ≡ marks.old.items ++ pe_marks pe.now) }
{
    match pe {
        Some(pe) => push(alloc, marks, MarkSort::Pe, &pe.name, 0),
        None => Ok(()),
    }
}

// What a job names.
fn push_own(alloc: Global, marks: &mut Vec<JobMark>, job: &Job) -> Result<(), AllocError>
    ensures { OnOk result (marks.new.items ≡ marks.old.items ++ own_marks job.now) }
{
    push_two(alloc, marks, MarkSort::Owner, &job.owner, &job.name)?;
    push_project(alloc, marks, &job.project)?;
    push_advance(alloc, marks, job.advance)?;
    push_pe(alloc, marks, &job.request.pe)?;
    push_asked(alloc, marks, &job.request.asked)
}

// Whether one of a task's grants bears a mark.
fn grants_bear(grants: &[Grant], mark: &JobMark) -> bool
    ensures { result ≡ is_among (⟦<JobMark as Ord>⟧.cmp) mark.now (flat_map grant_marks grants.now) }
{
    for grant in grants {
        if grant_bears(grant, mark) {
            return true;
        }
    }
    false
}

fn grant_bears(grant: &Grant, mark: &JobMark) -> bool
    ensures { result ≡ is_among (⟦<JobMark as Ord>⟧.cmp) mark.now (grant_marks grant.now) }
{
    mark.is(MarkSort::Queue, grant.at.queue.bytes(), b"", 0)
        || mark.is(MarkSort::Host, grant.at.host.bytes(), b"", 0)
}

// Whether a running task bears a mark.
fn task_bears(task: &Running, mark: &JobMark) -> bool
    ensures { result ≡ is_among (⟦<JobMark as Ord>⟧.cmp) mark.now (marks_of_task task.now) }
{
    mark.is(MarkSort::Runs, b"", b"", 0)
        || mark.is(MarkSort::Serial, b"", b"", task.serial)
        || grants_bear(task.grants.items(), mark)
}

fn tasks_bear(running: &Table<u32, Running>, mark: &JobMark) -> bool
    ensures { result ≡ is_among (⟦<JobMark as Ord>⟧.cmp) mark.now (flat_map marks_of_task (values_of running.now)) }
{
    for task in running.values() {
        if task_bears(task, mark) {
            return true;
        }
    }
    false
}

fn asked_bear(asked: &Table<Text, Value>, mark: &JobMark) -> bool
    ensures { result ≡ is_among (⟦<JobMark as Ord>⟧.cmp) mark.now (map attribute_mark (keys_of asked.now)) }
{
    for name in asked.keys() {
        if mark.is(MarkSort::Attribute, name.bytes(), b"", 0) {
            return true;
        }
    }
    false
}

fn project_bears(project: &Text, mark: &JobMark) -> bool
    ensures { result ≡ is_among (⟦<JobMark as Ord>⟧.cmp) mark.now (project_marks project.now) }
{
    !project.is_empty() && mark.is(MarkSort::Project, project.bytes(), b"", 0)
}

fn advance_bears(advance: u32, mark: &JobMark) -> bool
    ensures { result ≡ is_among (⟦<JobMark as Ord>⟧.cmp) mark.now (advance_marks advance) }
{
    advance != 0 && mark.is(MarkSort::Advance, b"", b"", u64::from(advance))
}

fn pe_bears(pe: &Option<PeRequest>, mark: &JobMark) -> bool
    ensures { result ≡ is_among (⟦<JobMark as Ord>⟧.cmp) mark.now (pe_marks pe.now) }
{
    match pe {
        Some(pe) => mark.is(MarkSort::Pe, pe.name.bytes(), b"", 0),
        None => false,
    }
}

// Whether a job names what a mark says.
fn own_bear(job: &Job, mark: &JobMark) -> bool
    ensures { result ≡ is_among (⟦<JobMark as Ord>⟧.cmp) mark.now (own_marks job.now) }
{
    mark.is(MarkSort::Owner, job.owner.bytes(), job.name.bytes(), 0)
        || project_bears(&job.project, mark)
        || advance_bears(job.advance, mark)
        || pe_bears(&job.request.pe, mark)
        || asked_bear(&job.request.asked, mark)
}

// How many tasks of a job wait, are in error or run.
fn live_tasks(job: &Job) -> u128
    ensures { result ≡ live_of job.now }
{
    job.queued.size() + job.broken.size() + job.running.len() as u128
}

// The facts of a job.
fn facts_of(job: &Job) -> JobFacts
    ensures { result ≡ facts_of_job job.now }
{
    JobFacts {
        submitted: job.submitted,
        not_before: job.not_before,
        deadline: job.deadline,
        share: job.share,
        oticket: job.oticket,
        priority: job.priority,
        hold: job.hold,
        waits: !job.queued.spans().is_empty(),
        follows: !job.after.items().is_empty() || !job.after_each.items().is_empty(),
        runs: !job.running.is_empty(),
        parallel: job.request.pe.is_some(),
        lasts: shortest_time(&job.request.asked),
        least: least_amount(&job.request.asked),
    }
}

// How many marks most jobs have: a few of their own, and those of tasks that have slots at one place.
fn room_of(job: &Job) -> usize {
    job.running.len().saturating_mul(4).saturating_add(3)
}

impl Row for Job {
    ghost use Rattle.ge_rows.specs.Marks.{job_marks};
    ghost use Rattle.ge_rows.specs.Weights.{live_tasks, script_bytes};
    ghost use Rattle.ge_rows.specs.Orderly.{IsOrderlyJob};
    ghost use Rattle.ge_rows.specs.JobShort.{job_facts, job_labels};

    /// What it names, and what its running tasks have.
    type Mark = JobMark;

    type Facts = JobFacts;

    /// Its owner, its project and its kind.
    type Label = JobLabel;

    ghost weights = { λ job. (live_tasks job, script_bytes job) };

    ghost marks = { job_marks };

    ghost short = { job_facts };

    ghost labels = { job_labels };

    ghost IsOrderly = { IsOrderlyJob };

    fn weights(&self) -> (u128, u128) {
        (live_tasks(self), self.script.len() as u128)
    }

    fn bears(&self, mark: &JobMark) -> bool {
        own_bear(self, mark) || tasks_bear(&self.running, mark)
    }

    fn marks(&self, alloc: Global) -> Result<Vec<JobMark>, AllocError> {
        let mut marks = Vec::with_capacity(alloc, room_of(self))?;
        push_own(alloc, &mut marks, self)?;
        push_tasks(alloc, &mut marks, &self.running)?;
        Ok(marks)
    }

    fn keeps_short() -> bool {
        true
    }

    fn short(&self) -> JobFacts {
        facts_of(self)
    }

    fn labels(&self, alloc: Global) -> Result<(JobLabel, JobLabel, JobLabel), AllocError> {
        labels_of(alloc, self)
    }

    fn orderly(&self) {
        let _queued = self.queued.spans();
        let _broken = self.broken.spans();
        let _running = self.running.len();
        let _asked = self.request.asked.len();
    }
}
