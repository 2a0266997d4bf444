//! The tickets of jobs where they have none but their own.

ghost use Rattle.std.specs.Prelude.{◌≡◌, IfOk, IsTrue, map};
ghost use Rattle.ge_collections.specs.Met.{AreFound};
ghost use Rattle.ge_tickets.specs.Own.{OwnAlone, is_own_alone, own_tickets as own_of, told_tickets as told_of};

use crate::dividing::{cut, functional};
use ge_collections::{row_at, walk};
use ge_rows::{Cluster, JobFacts, List, ShortRow, job_at};
use std::alloc::{AllocError, Global};
use std::collections::BTreeMap;
use std::collections::btree_map::Iter;

/// Whether jobs have no functional or override tickets but those that each was given: no user and no project has a row, and no
/// tickets are divided by the shares of jobs.
pub fn has_own_alone(c: &Cluster) -> bool
    ensures value { result ≡ is_own_alone c.now }
    ensures alone { IsTrue result → OwnAlone c.now }
{
    c.users.is_empty() && c.projects.is_empty() && functional(c, c.sched.w_job) == 0
}

fn own_tickets(c: &Cluster, number: u32) -> u64
    ensures { result ≡ own_of c.now number }
{
    match job_at(&c.jobs, number) {
        Some(job) => cut(u128::from(job.oticket)),
        None => 0,
    }
}

fn list_each(alloc: Global, c: &Cluster, numbers: &[u32]) -> Result<List<u64>, AllocError>
    ensures { IfOk result (λ tickets. tickets ≡ map (own_of c.now) numbers.now) }
{
    let mut tickets = List::new(alloc);
    for number in numbers {
        tickets.push(own_tickets(c, *number))?;
    }
    Ok(tickets)
}

// The same by short rows, met in a walk.
fn told_tickets<'a>(
    rows: &'a BTreeMap<u32, ShortRow<JobFacts>>,
    left: &mut Iter<'a, u32, ShortRow<JobFacts>>,
    number: u32,
) -> u64
    ensures tickets { AreFound rows.now.entries left.old → result ≡ told_of rows.now.entries number }
    ensures others { AreFound rows.now.entries left.old → AreFound rows.now.entries left.new }
{
    match row_at(rows, left, number) {
        Some(row) => cut(u128::from(row.facts.oticket)),
        None => 0,
    }
}

fn list_told(
    alloc: Global,
    rows: &BTreeMap<u32, ShortRow<JobFacts>>,
    numbers: &[u32],
) -> Result<List<u64>, AllocError>
    ensures { IfOk result (λ tickets. tickets ≡ map (told_of rows.now.entries) numbers.now) }
{
    let mut tickets = List::from_vec(Vec::with_capacity(alloc, numbers.len())?);
    let mut left = walk(rows);
    for number in numbers {
        tickets.push(told_tickets(rows, &mut left, *number))?;
    }
    Ok(tickets)
}

/// The tickets that each of these jobs itself was given. The jobs' short rows tell them, where there are some.
pub(crate) fn list_own(alloc: Global, c: &Cluster, numbers: &[u32]) -> Result<List<u64>, AllocError>
    ensures { IfOk result (λ tickets. tickets ≡ map (own_of c.now) numbers.now) }
{
    match c.jobs.shorts() {
        Some(shorts) => {
            let tickets = list_told(alloc, shorts.rows, numbers)?;
            Ok(tickets)
        }
        None => list_each(alloc, c, numbers),
    }
}
