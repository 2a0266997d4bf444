// The priorities of all candidates.
ghost use Rattle.std.specs.Prelude.{◌≡◌, [], IfOk, IsTrue};
ghost use Rattle.ge_model_order.specs.Priority.{added_tickets, all_tickets_of, prios_at};

use ge_order::{Prios, candidates, own_prios, prios};
use ge_rows::{Cluster, List, Prio};
use ge_tickets::{share_tickets, tickets};
use std::alloc::{AllocError, Global};

// Two lists of tickets, added job by job; a sum that passes 64 bits is cut.
fn added(alloc: Global, tickets: &[u64], others: &[u64]) -> Result<List<u64>, AllocError>
    ensures { IfOk result (λ sums. sums ≡ added_tickets tickets.now others.now) }
{
    let mut sums = List::from_vec(Vec::with_capacity(alloc, tickets.len())?);
    for (one, other) in tickets.iter().zip(others) {
        sums.push(one.saturating_add(*other))?;
    }
    Ok(sums)
}

// Where there is no share tree, no job has share tickets.
fn has_no_tree(c: &Cluster) -> bool
    ensures { IsTrue result → c.now.shares ≡ [] }
{
    c.shares.is_empty()
}

fn all_tickets(
    alloc: Global,
    c: &Cluster,
    jobs: &List<u32>,
    now: u64,
) -> Result<List<u64>, AllocError>
    ensures { IfOk result (λ sums. sums ≡ all_tickets_of c.now jobs.now now) }
{
    let functional = tickets(alloc, c, jobs)?;
    if has_no_tree(c) {
        return Ok(functional);
    }
    let shared = share_tickets(alloc, c, jobs, now)?;
    added(alloc, functional.items(), shared.items())
}

// The priorities of all candidates, with whatever tickets they have.
#[tactic(auto, unfolding(ge_model_order::specs::Priority::prios_at))]
fn prios_with_all(alloc: Global, c: &Cluster, now: u64) -> Result<List<Prio>, AllocError>
    ensures { IfOk result (λ prios. prios ≡ prios_at c.now now) }
{
    let jobs = candidates(alloc, c, now)?;
    let tickets = all_tickets(alloc, c, &jobs, now)?;
    prios(alloc, c, &jobs, &tickets, now)
}

/// The priorities of all candidates at a moment, as a run stands on them.
pub(crate) fn run_prios(alloc: Global, c: &Cluster, now: u64) -> Result<Prios, AllocError>
    ensures { IfOk result (λ prios. prios ≡ prios_at c.now now) }
{
    if has_no_tree(c) {
        if let Some(prios) = own_prios(alloc, c, now)? {
            return Ok(prios);
        }
    }
    let prios = prios_with_all(alloc, c, now)?;
    Prios::from_list(alloc, &prios)
}

/// The priorities of all candidates at a moment, in order of their numbers.
pub fn priorities(alloc: Global, c: &Cluster, now: u64) -> Result<List<Prio>, AllocError>
    ensures { IfOk result (λ prios. prios ≡ prios_at c.now now) }
{
    let prios = run_prios(alloc, c, now)?;
    prios.list(alloc)
}
