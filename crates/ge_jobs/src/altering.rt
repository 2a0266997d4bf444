// Jobs that are submitted and altered.
ghost use Rattle.std.specs.Prelude.{◌≡◌, ◌∷◌, [], ◌++◌, IfOk, OnOk, OnErr, map};
ghost use Rattle.std.specs.Map.{keys_of};
ghost use Rattle.std.specs.Option.{unwrap_or};
ghost use Rattle.ge_rows.specs.Marks.{mark_of, project_marks, advance_marks, pe_marks, attribute_mark, own_marks};
ghost use Rattle.ge_model_jobs.specs.Altering.{submitted, patched, alter_job};
ghost use Rattle.ge_jobs.specs.JobEdits.{marks_of_names};

use ge_rows::{
    InRow, Job, JobMark, JobRow, JobTable, List, MarkSort, Patch, PeRequest, Request, Table, Text,
    TryEdit, Twin, Value, twins2, twins4,
};
use std::alloc::{AllocError, Global};

/// A job comes under its number (qsub). After want of memory the table is as it was.
pub fn submit(jobs: &mut JobTable, job: JobRow) -> Result<(), AllocError>
    ensures ok { OnOk result (jobs.new ≡ submitted jobs.old job) }
    ensures err { OnErr result (jobs.new ≡ jobs.old) }
{
    let number = job.job().number;
    let _before = jobs.insert(number, job)?;
    Ok(())
}

// One mark more.
fn push(
    alloc: Global,
    marks: &mut Vec<JobMark>,
    sort: MarkSort,
    name: &Text,
    other: &[u8],
) -> Result<(), AllocError>
    ensures { OnOk result (marks.new.items ≡ marks.old.items ++ mark_of sort name.now other.now 0
        ∷ []) }
{
    let mark = JobMark::new(alloc, sort, name.bytes(), other, 0)?;
    marks.push(mark)?;
    Ok(())
}

fn push_project(alloc: Global, marks: &mut Vec<JobMark>, project: &Text) -> Result<(), AllocError>
    ensures { OnOk result (marks.new.items ≡ marks.old.items ++ project_marks project.now) }
{
    if project.is_empty() {
        return Ok(());
    }
    push(alloc, marks, MarkSort::Project, project, b"")
}

fn push_advance(alloc: Global, marks: &mut Vec<JobMark>, advance: u32) -> Result<(), AllocError>
    ensures { OnOk result (marks.new.items ≡ marks.old.items ++ advance_marks advance) }
{
    if advance == 0 {
        return Ok(());
    }
    let mark = JobMark::new(alloc, MarkSort::Advance, b"", b"", u64::from(advance))?;
    marks.push(mark)?;
    Ok(())
}

fn push_pe(
    alloc: Global,
    marks: &mut Vec<JobMark>,
    pe: &Option<PeRequest>,
) -> Result<(), AllocError>
    ensures { OnOk result (marks.new.items ≡ marks.old.items ++ pe_marks pe.now) }
{
    match pe {
        Some(pe) => push(alloc, marks, MarkSort::Pe, &pe.name, b""),
        None => Ok(()),
    }
}

fn push_asked(
    alloc: Global,
    marks: &mut Vec<JobMark>,
    asked: &Table<Text, Value>,
) -> Result<(), AllocError>
    ensures { OnOk result (marks.new.items ≡ marks.old.items
        ++ map attribute_mark (keys_of asked.now)) }
{
    for name in asked.keys() {
        push(alloc, marks, MarkSort::Attribute, name, b"")?;
    }
    Ok(())
}

// What a job is found by that names these.
fn marks_of(
    alloc: Global,
    owner: &Text,
    name: &Text,
    project: &Text,
    advance: u32,
    request: &Request,
) -> Result<Vec<JobMark>, AllocError>
    ensures { IfOk result (λ marks. marks.items
        ≡ marks_of_names owner.now name.now project.now advance request.now.pe request.now.asked) }
{
    let mut marks = Vec::new(alloc);
    push(alloc, &mut marks, MarkSort::Owner, owner, name.bytes())?;
    push_project(alloc, &mut marks, project)?;
    push_advance(alloc, &mut marks, advance)?;
    push_pe(alloc, &mut marks, &request.pe)?;
    push_asked(alloc, &mut marks, &request.asked)?;
    Ok(marks)
}

// The new value where there is one, else the old.
fn chosen<'a, T>(new: &'a Option<T>, old: &'a T) -> &'a T
    ensures { result.now ≡ unwrap_or new.now old.now }
{
    match new {
        Some(new) => new,
        None => old,
    }
}

// Puts a new value in the place of the old, where there is one.
fn put<T: Drop>(place: &mut T, new: Option<T>)
    ensures { place.new ≡ unwrap_or new place.old }
{
    if let Some(new) = new {
        *place = new;
    }
}

// What a patch gives, as an edit of a job.
#[derive(Clone, Copy)]
struct Patched<'a> {
    patch: &'a Patch,
}

impl TryEdit<Job> for Patched<'_> {
    ghost edited = { λ p job. patched p.patch.now job };

    ghost lost = { λ p job. own_marks job };

    ghost gained = { λ p job. own_marks (patched p.patch.now job) };

    fn lost(&self, alloc: Global, job: &Job) -> Result<Vec<JobMark>, AllocError> {
        marks_of(
            alloc,
            &job.owner,
            &job.name,
            &job.project,
            job.advance,
            &job.request,
        )
    }

    fn gained(&self, alloc: Global, job: &Job) -> Result<Vec<JobMark>, AllocError> {
        let patch = self.patch;
        marks_of(
            alloc,
            &job.owner,
            chosen(&patch.name, &job.name),
            chosen(&patch.project, &job.project),
            job.advance,
            chosen(&patch.request, &job.request),
        )
    }

    fn try_edit(&self, alloc: Global, job: &mut Job) -> Result<(), AllocError> {
        let patch = self.patch;
        let (name, request, project, account) = twins4(
            alloc,
            &patch.name,
            &patch.request,
            &patch.project,
            &patch.account,
        )?;
        let (after, after_each) = twins2(alloc, &patch.after, &patch.after_each)?;
        put(&mut job.name, name);
        put(&mut job.request, request);
        put(&mut job.priority, patch.priority);
        put(&mut job.share, patch.share);
        put(&mut job.project, project);
        put(&mut job.reserve, patch.reserve);
        put(&mut job.not_before, patch.not_before);
        put(&mut job.deadline, patch.deadline);
        put(&mut job.account, account);
        put(&mut job.after, after);
        put(&mut job.after_each, after_each);
        put(&mut job.oticket, patch.oticket);
        Ok(())
    }
}

/// A job gets what a patch gives (qalter); the rest stays. After want of memory the table is as it was.
pub fn alter(
    alloc: Global,
    jobs: &mut JobTable,
    number: u32,
    patch: &Patch,
) -> Result<(), AllocError>
    ensures ok { OnOk result (jobs.new ≡ alter_job jobs.old (number, patch.now)) }
    ensures err { OnErr result (jobs.new ≡ jobs.old) }
{
    let edit = InRow {
        edit: &Patched { patch },
    };
    let _found = jobs.try_change(alloc, &number, &edit)?;
    Ok(())
}
