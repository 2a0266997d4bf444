//! The jobs of an owner, by the marks of the table of jobs.

ghost use Rattle.std.specs.Prelude.{◌≡◌, ℕ, [], ◌∷◌, ◌++◌, None, cond, IfOk, OnOk};
ghost use Rattle.std.specs.List.Sorted.{IsStrictlySortedBy};
ghost use Rattle.std.specs.Map.{keys_of};
ghost use Rattle.std.specs.Ordering.{nat_cmp};
ghost use Rattle.ge_rows.specs.Marks.{mark_of};
ghost use Rattle.ge_rows.specs.declared.marks.MarkSort.TheVariants as sort;
ghost use Rattle.ge_job_options.specs.Holding.{at_name, name_at, is_keyed, PutsName, named_shown, jobs_of_owner};

use ge_rows::{JobMark, JobTable, MarkSort, Text, Twin, job_at};
use std::alloc::{AllocError, Global};
use std::collections::BTreeMap;

/// Names of jobs by number, lent.
pub(crate) type Names<'a> = BTreeMap<u32, &'a Text>;

// The name of a job at its number, if the job is there.
#[tactic(auto, using(crate::proofs::Owned::name_put, crate::proofs::Owned::name_lacks))]
fn put_name<'a>(names: &mut Names<'a>, jobs: &'a JobTable, number: u32) -> Result<(), AllocError>
    ensures { OnOk result (PutsName jobs.now names.old.entries names.new.entries number) }
{
    if let Some(job) = job_at(jobs, number) {
        names.insert(number, &job.name)?;
    }
    Ok(())
}

// The names of the jobs whose numbers stand with marks.
#[tactic(auto, using(crate::proofs::Owned::names_more))]
fn names_of<'a>(
    alloc: Global,
    jobs: &'a JobTable,
    marked: &[(JobMark, u32)],
) -> Result<Names<'a>, AllocError>
    ensures names { IfOk result (λ names. (q : ℕ) → at_name q names.entries
        ≡ cond (is_keyed q marked.now) (name_at jobs.now q) None) }
    ensures rising { IfOk result (λ names. IsStrictlySortedBy nat_cmp (keys_of names.entries)) }
{
    let mut names = BTreeMap::new(alloc);
    for pair in marked {
        put_name(&mut names, jobs, pair.1)?;
    }
    let _count = names.len();
    Ok(names)
}

// The first mark that is behind all of an owner.
fn past_owner(alloc: Global, owner: &Text) -> Result<JobMark, AllocError>
    ensures { IfOk result (λ mark. mark ≡ mark_of sort.Owner (owner.now ++ 0 ∷ []) [] 0) }
{
    let mut next = owner.twin(alloc)?;
    next.push(0)?;
    JobMark::new(alloc, MarkSort::Owner, next.bytes(), b"", 0)
}

/// The jobs of an owner by number, each with its name, without a walk over jobs of others.
#[tactic(auto, using(crate::proofs::Owned::jobs_named))]
pub(crate) fn own_jobs<'a>(
    alloc: Global,
    jobs: &'a JobTable,
    owner: &Text,
) -> Result<Names<'a>, AllocError>
    ensures { IfOk result (λ names. named_shown names.entries ≡ jobs_of_owner jobs.now owner.now) }
{
    let _count = jobs.len();
    let low = JobMark::new(alloc, MarkSort::Owner, owner.bytes(), b"", 0)?;
    let high = past_owner(alloc, owner)?;
    let marked = jobs.marked_between(alloc, &low, &high)?;
    let names = names_of(alloc, jobs, marked.as_slice())?;
    Ok(names)
}
