// A job in the table of jobs.
ghost use Rattle.std.specs.Prelude.{◌≡◌, IfOk};
ghost use Rattle.std.specs.Option.{option_copied};
ghost use Rattle.ge_collections.specs.Keyed.{at_number};

use crate::jobs::Job;
use crate::labels::{JobFacts, JobLabel};
use crate::marks::JobMark;
use ge_job_index::{Edit, Index, Row, TryEdit};
use std::alloc::{AllocError, Global};
use std::marker::Model;

/// A job in memory of its own, as the table of jobs keeps it. A map whose keys rise is half full, so that a job that lay in
/// it would take nearly twice its size; and jobs that come and go move a word here. Contracts see the job.
#[derive(Drop)]
pub struct JobRow {
    own: Box<Job>,
}

impl Model for JobRow {
    ghost use Rattle.ge_rows.specs.declared.jobs.Job.{Job};

    ghost Value = { Job };

    ghost view = { λ row. row.own.value };
}

impl JobRow {
    /// A job, moved into memory of its own. One that finds none is dropped.
    pub fn new(alloc: Global, job: Job) -> Result<JobRow, AllocError>
        ensures { IfOk result (λ row. row ≡ job) }
    {
        match Box::new(alloc, job) {
            Ok(own) => Ok(JobRow { own }),
            Err(_refused) => Err(AllocError),
        }
    }

    /// The job.
    pub fn job(&self) -> &Job
        ensures { result.now ≡ self.now }
    {
        &self.own
    }
}

/// The live jobs by number.
pub type JobTable = Index<u32, JobRow>;

/// The job of a number in the table of jobs.
pub fn job_at(jobs: &JobTable, number: u32) -> Option<&Job>
    ensures { option_copied result ≡ at_number jobs.now number }
{
    match jobs.get(&number) {
        Some(row) => Some(row.job()),
        None => None,
    }
}

impl Row for JobRow {
    ghost use Rattle.ge_rows.specs.Marks.{job_marks};
    ghost use Rattle.ge_rows.specs.Weights.{live_tasks, script_bytes};
    ghost use Rattle.ge_rows.specs.Orderly.{IsOrderlyJob};
    ghost use Rattle.ge_rows.specs.JobShort.{job_facts, job_labels};

    /// What it names, and what its running tasks have.
    type Mark = JobMark;

    type Facts = JobFacts;

    /// Its owner, its project and its kind.
    type Label = JobLabel;

    ghost weights = { λ job. (live_tasks job, script_bytes job) };

    ghost marks = { job_marks };

    ghost short = { job_facts };

    ghost labels = { job_labels };

    ghost IsOrderly = { IsOrderlyJob };

    fn weights(&self) -> (u128, u128) {
        self.own.weights()
    }

    fn bears(&self, mark: &JobMark) -> bool {
        self.own.bears(mark)
    }

    fn marks(&self, alloc: Global) -> Result<Vec<JobMark>, AllocError> {
        self.own.marks(alloc)
    }

    fn keeps_short() -> bool {
        true
    }

    fn short(&self) -> JobFacts {
        self.own.short()
    }

    fn labels(&self, alloc: Global) -> Result<(JobLabel, JobLabel, JobLabel), AllocError> {
        self.own.labels(alloc)
    }

    fn orderly(&self) {
        self.own.orderly();
    }
}

/// An edit of a job, as one of its row.
#[derive(Clone, Copy)]
pub struct InRow<'a, E> {
    /// The edit.
    pub edit: &'a E,
}

impl<E: Edit<Job>> Edit<JobRow> for InRow<'_, E> {
    ghost edited = { λ e job. E.edited e.edit.now job };

    ghost lost = { λ e job. E.lost e.edit.now job };

    ghost gained = { λ e job. E.gained e.edit.now job };

    fn lost(&self, alloc: Global, row: &JobRow) -> Result<Vec<JobMark>, AllocError> {
        self.edit.lost(alloc, &row.own)
    }

    fn gained(&self, alloc: Global, row: &JobRow) -> Result<Vec<JobMark>, AllocError> {
        self.edit.gained(alloc, &row.own)
    }

    fn relabels(&self, row: &JobRow) -> bool {
        self.edit.relabels(&row.own)
    }

    fn edit(&self, row: &mut JobRow) {
        self.edit.edit(&mut row.own);
    }
}

impl<E: TryEdit<Job>> TryEdit<JobRow> for InRow<'_, E> {
    ghost edited = { λ e job. E.edited e.edit.now job };

    ghost lost = { λ e job. E.lost e.edit.now job };

    ghost gained = { λ e job. E.gained e.edit.now job };

    fn lost(&self, alloc: Global, row: &JobRow) -> Result<Vec<JobMark>, AllocError> {
        self.edit.lost(alloc, &row.own)
    }

    fn gained(&self, alloc: Global, row: &JobRow) -> Result<Vec<JobMark>, AllocError> {
        self.edit.gained(alloc, &row.own)
    }

    fn relabels(&self, row: &JobRow) -> bool {
        self.edit.relabels(&row.own)
    }

    fn try_edit(&self, alloc: Global, row: &mut JobRow) -> Result<(), AllocError> {
        self.edit.try_edit(alloc, &mut row.own)
    }
}
