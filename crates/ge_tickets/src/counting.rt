//! How many jobs each user has among some, and each project.

ghost use Rattle.std.specs.Prelude.{◌≡◌, ◌+◌, [], ◌∷◌, ℕ, cond, IfOk, OnOk, List as Items};
ghost use Rattle.std.specs.List.{count_by};
ghost use Rattle.ge_collections.specs.Keyed.{text_eq};
ghost use Rattle.ge_model_rows.specs.Pieces.{is_empty};
ghost use Rattle.ge_model_order.specs.Tickets.{is_owned_by, is_in_project, jobs_of};
ghost use Rattle.ge_tickets.specs.Counted.{count_at, is_named, AreCounts};

use ge_rows::{Cluster, Table, Text, Twin, job_at};
use std::alloc::{AllocError, Global};

/// How many jobs each user has, and each project.
#[derive(Drop)]
pub(crate) struct Counts {
    /// By the owner's name.
    pub(crate) owners: Table<Text, u64>,
    /// By the project's name; jobs without a project aren't counted.
    pub(crate) projects: Table<Text, u64>,
}

/// How many jobs are counted at a name.
pub(crate) fn count_of(counts: &Table<Text, u64>, name: &Text) -> u64
    ensures { result ≡ count_at counts.now name.now }
{
    match counts.get(name) {
        Some(number) => *number,
        None => 0,
    }
}

/// Counts one more at a name. More than 2^64 - 1 want more memory than there is.
fn raise(alloc: Global, counts: &mut Table<Text, u64>, name: &Text) -> Result<(), AllocError>
    ensures { OnOk result ((q : Items ℕ) → count_at counts.new q ≡ count_at counts.old q + cond (text_eq name.now q) 1 0) }
{
    match count_of(counts, name).checked_add(1) {
        Some(more) => {
            let _before = counts.insert(name.twin(alloc)?, more)?;
            Ok(())
        }
        None => Err(AllocError),
    }
}

fn is_none(project: &Text) -> bool
    ensures { result ≡ is_empty project.now }
{
    project.bytes().is_empty()
}

fn raise_project(
    alloc: Global,
    counts: &mut Table<Text, u64>,
    project: &Text,
) -> Result<(), AllocError>
    ensures { OnOk result ((q : Items ℕ) → count_at counts.new q ≡ count_at counts.old q + cond (is_named q project.now) 1 0) }
{
    if is_none(project) {
        Ok(())
    } else {
        raise(alloc, counts, project)
    }
}

fn count_owner(
    alloc: Global,
    c: &Cluster,
    counts: &mut Table<Text, u64>,
    number: u32,
) -> Result<(), AllocError>
    ensures { OnOk result ((q : Items ℕ) → count_at counts.new q ≡ count_at counts.old q + count_by (is_owned_by q) (jobs_of c.now (number ∷ []))) }
{
    match job_at(&c.jobs, number) {
        Some(job) => raise(alloc, counts, &job.owner),
        None => Ok(()),
    }
}

fn count_project(
    alloc: Global,
    c: &Cluster,
    counts: &mut Table<Text, u64>,
    number: u32,
) -> Result<(), AllocError>
    ensures { OnOk result ((q : Items ℕ) → count_at counts.new q ≡ count_at counts.old q + count_by (is_in_project q) (jobs_of c.now (number ∷ []))) }
{
    match job_at(&c.jobs, number) {
        Some(job) => raise_project(alloc, counts, &job.project),
        None => Ok(()),
    }
}

fn owners(alloc: Global, c: &Cluster, numbers: &[u32]) -> Result<Table<Text, u64>, AllocError>
    ensures { IfOk result (λ counts. (q : Items ℕ) → count_at counts q ≡ count_by (is_owned_by q) (jobs_of c.now numbers.now)) }
{
    let mut counts = Table::new(alloc);
    for number in numbers {
        count_owner(alloc, c, &mut counts, *number)?;
    }
    Ok(counts)
}

fn projects(alloc: Global, c: &Cluster, numbers: &[u32]) -> Result<Table<Text, u64>, AllocError>
    ensures { IfOk result (λ counts. (q : Items ℕ) → count_at counts q ≡ count_by (is_in_project q) (jobs_of c.now numbers.now)) }
{
    let mut counts = Table::new(alloc);
    for number in numbers {
        count_project(alloc, c, &mut counts, *number)?;
    }
    Ok(counts)
}

/// How many of these jobs each user has, and each project.
pub(crate) fn count(alloc: Global, c: &Cluster, numbers: &[u32]) -> Result<Counts, AllocError>
    ensures { IfOk result (λ counts. AreCounts counts (jobs_of c.now numbers.now)) }
{
    let owners = owners(alloc, c, numbers)?;
    let projects = projects(alloc, c, numbers)?;
    Ok(Counts { owners, projects })
}
