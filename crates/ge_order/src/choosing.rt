// The candidates of a run.
ghost use Rattle.std.specs.Prelude.{◌≡◌, IfOk, not};
ghost use Rattle.ge_model_rows.specs.Pieces.{is_empty as is_empty_list};
ghost use Rattle.ge_model_order.specs.Candidates.{is_candidate as is_a_candidate, candidates as candidates_of};
ghost use Rattle.ge_order.specs.Told as telling;

use ge_jobs::eligible;
use ge_rows::{Cluster, JobFacts, List, ShortRow};
use std::alloc::{AllocError, Global};
use std::collections::BTreeMap;

fn has_some(numbers: &[u32]) -> bool
    ensures { result ≡ not (is_empty_list numbers.now) }
{
    !numbers.is_empty()
}

// Whether a job has an eligible task.
#[tactic(auto, unfolding(ge_model_order::specs::Candidates::is_candidate))]
fn is_candidate(alloc: Global, c: &Cluster, number: u32, now: u64) -> Result<bool, AllocError>
    ensures { IfOk result (λ found. found ≡ is_a_candidate c.now now number) }
{
    let tasks = eligible(alloc, &c.jobs, number, now, 1)?;
    Ok(has_some(tasks.items()))
}

// Whether no task of a job may start, whatever other jobs do.
fn rests(facts: &JobFacts, now: u64) -> bool
    ensures { result ≡ telling.rests facts.now now }
{
    !facts.waits || !(facts.hold == 0) || now < facts.not_before
}

// Whether a job has an eligible task, where its facts tell that.
fn told(facts: &JobFacts, now: u64) -> Option<bool>
    ensures { result ≡ telling.told_by facts.now now }
{
    if rests(facts, now) {
        Some(false)
    } else if facts.follows {
        None
    } else {
        Some(true)
    }
}

/// The same of any job: where its facts don't tell, its tasks do.
pub(crate) fn has_task(
    alloc: Global,
    c: &Cluster,
    number: u32,
    row: &ShortRow<JobFacts>,
    now: u64,
) -> Result<bool, AllocError>
    ensures { IfOk result (λ found. found ≡ telling.has_task c.now now (number, row.now)) }
{
    match told(&row.facts, now) {
        Some(found) => Ok(found),
        None => {
            let found = is_candidate(alloc, c, number, now)?;
            Ok(found)
        }
    }
}

// The jobs of these short rows that have an eligible task.
fn choose(
    alloc: Global,
    c: &Cluster,
    rows: &BTreeMap<u32, ShortRow<JobFacts>>,
    now: u64,
) -> Result<List<u32>, AllocError>
    ensures { IfOk result (λ numbers. numbers
        ≡ telling.chosen c.now now rows.now.entries) }
{
    let mut numbers = Vec::with_capacity(alloc, rows.len())?;
    for (number, row) in rows.iter() {
        if has_task(alloc, c, *number, row, now)? {
            numbers.push_reserved(*number);
        }
    }
    Ok(List::from_vec(numbers))
}

// The same by the jobs themselves, for a table without short rows.
fn choose_each(alloc: Global, c: &Cluster, now: u64) -> Result<List<u32>, AllocError>
    ensures { IfOk result (λ numbers. numbers ≡ candidates_of c.now now) }
{
    let mut numbers = List::new(alloc);
    for number in c.jobs.keys() {
        if is_candidate(alloc, c, *number, now)? {
            numbers.push(*number)?;
        }
    }
    Ok(numbers)
}

/// The jobs with a task that a run may start at a moment, by number.
pub fn candidates(alloc: Global, c: &Cluster, now: u64) -> Result<List<u32>, AllocError>
    ensures { IfOk result (λ numbers. numbers ≡ candidates_of c.now now) }
{
    c.jobs.orderly();
    match c.jobs.shorts() {
        Some(shorts) => {
            let numbers = choose(alloc, c, shorts.rows, now)?;
            Ok(numbers)
        }
        None => choose_each(alloc, c, now),
    }
}
