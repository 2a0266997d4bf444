//! The tickets of each job of a list.

ghost use Rattle.std.specs.Prelude.{◌≡◌, IfOk, map};
ghost use Rattle.ge_model_order.specs.Tickets.{tickets_of};
ghost use Rattle.ge_tickets.specs.Counted.{tickets_by_counts};

use crate::counting::{Counts, count};
use crate::dividing::tickets_at;
use crate::owning::{has_own_alone, list_own};
use crate::summing::{ShareSums, sum_shares};
use ge_rows::{Cluster, List};
use std::alloc::{AllocError, Global};

fn list_tickets(
    alloc: Global,
    c: &Cluster,
    counts: &Counts,
    sums: &ShareSums,
    numbers: &[u32],
) -> Result<List<u64>, AllocError>
    ensures { IfOk result (λ tickets. tickets ≡ map (tickets_by_counts c.now counts.now sums.now) numbers.now) }
{
    let mut tickets = List::new(alloc);
    for number in numbers {
        tickets.push(tickets_at(c, counts, sums, *number))?;
    }
    Ok(tickets)
}

// The tickets of each of these jobs, by the jobs of each user and each project.
fn counted_tickets(alloc: Global, c: &Cluster, jobs: &List<u32>) -> Result<List<u64>, AllocError>
    ensures { IfOk result (λ tickets. tickets ≡ tickets_of c.now jobs.now) }
{
    let numbers = jobs.items();
    let counts = count(alloc, c, numbers)?;
    let sums = sum_shares(c, numbers, &counts);
    let tickets = list_tickets(alloc, c, &counts, &sums, numbers)?;
    Ok(tickets)
}

/// The functional and override tickets of each of these jobs, in the list's order: 0 of a job that isn't there, and at most
/// 2^64 - 1 (sched_conf, user, project, qsub).
///
/// # Errors
/// Where there is no memory for the list or for the counts.
pub fn tickets(alloc: Global, c: &Cluster, jobs: &List<u32>) -> Result<List<u64>, AllocError>
    ensures { IfOk result (λ tickets. tickets ≡ tickets_of c.now jobs.now) }
{
    if has_own_alone(c) {
        let tickets = list_own(alloc, c, jobs.items())?;
        return Ok(tickets);
    }
    counted_tickets(alloc, c, jobs)
}
