// The order of a run.
ghost use Rattle.std.specs.Prelude.{◌≡◌, IfOk, OnOk, map, flat_map, fold, [], IsPermutation};
ghost use Rattle.std.specs.Map.{keys_of};
ghost use Rattle.std.specs.Ordering.{is_lt};
ghost use Rattle.ge_model_order.specs.Priority.{rank_cmp, rank_of, with_rank, order_of};
ghost use Rattle.ge_order.specs.Ranked.{AreRanks, rise, rise_above, tasks_at_rank};

use crate::tasks::{add_tasks, walk_jobs};
use ge_rows::{Cluster, List, Prio, TaskId};
use std::alloc::{AllocError, Global};
use std::cmp::Reverse;
use std::collections::BTreeMap;

/// What a job is ordered by: the total, the greater first, and then its number.
pub(crate) type Rank = (Reverse<u128>, u32);

/// The rank of a priority.
pub(crate) fn rank(prio: &Prio) -> Rank
    ensures { result ≡ rank_of prio.now }
{
    (Reverse(prio.total), prio.job)
}

fn ranks(alloc: Global, prios: &[Prio]) -> Result<Vec<Rank>, AllocError>
    ensures { IfOk result (λ ranks. ranks.items ≡ map rank_of prios.now) }
{
    let mut ranks = Vec::with_capacity(alloc, prios.len())?;
    for prio in prios {
        ranks.push(rank(prio))?;
    }
    Ok(ranks)
}

/// Whether a rank is below another.
pub(crate) fn is_below(low: &Rank, rank: &Rank) -> bool
    ensures { result ≡ is_lt (rank_cmp low.now rank.now) }
{
    low.cmp(rank).is_lt()
}

// Whether each rank is below the next one.
fn rises(ranks: &[Rank]) -> bool
    ensures { result ≡ rise ranks.now }
{
    let Some((first, others)) = ranks.split_first() else {
        return true;
    };
    rises_above(first, others)
}

fn rises_above(first: &Rank, others: &[Rank]) -> bool
    ensures { result ≡ rise_above first.now others.now }
{
    let mut low = first;
    for rank in others {
        if !is_below(low, rank) {
            return false;
        }
        low = rank;
    }
    true
}

// The ranks in their order, by a table: for priorities of which two have the same rank.
fn tabled(alloc: Global, prios: &[Prio]) -> Result<Vec<Rank>, AllocError>
    ensures { IfOk result (λ ranks. AreRanks prios.now ranks.items) }
{
    let rows = table(alloc, prios)?;
    let mut ranks = Vec::new(alloc);
    for rank in rows.keys() {
        ranks.push(*rank)?;
    }
    Ok(ranks)
}

// One more priority, at its rank.
fn put(rows: &mut BTreeMap<Rank, Prio>, prio: &Prio) -> Result<(), AllocError>
    ensures { OnOk result (rows.new.entries ≡ with_rank rows.old.entries prio.now) }
{
    rows.insert(rank(prio), *prio)?;
    Ok(())
}

fn table(alloc: Global, prios: &[Prio]) -> Result<BTreeMap<Rank, Prio>, AllocError>
    ensures { IfOk result (λ rows. rows.entries ≡ fold with_rank [] prios.now) }
{
    let mut rows = BTreeMap::new(alloc);
    for prio in prios {
        put(&mut rows, prio)?;
    }
    Ok(rows)
}

fn sorted(alloc: Global, prios: &[Prio]) -> Result<Vec<Rank>, AllocError>
    ensures { IfOk result (λ sorted. IsPermutation (map rank_of prios.now) sorted.items) }
{
    let mut sorted = ranks(alloc, prios)?;
    sorted.sort()?;
    Ok(sorted)
}

// The ranks by total falling, then job, each once.
fn ranked(alloc: Global, prios: &[Prio]) -> Result<Vec<Rank>, AllocError>
    ensures { IfOk result (λ ranks. AreRanks prios.now ranks.items) }
{
    let sorted = sorted(alloc, prios)?;
    if rises(sorted.as_slice()) {
        Ok(sorted)
    } else {
        tabled(alloc, prios)
    }
}

// The eligible tasks of the jobs of these ranks.
fn tasks_at(
    alloc: Global,
    c: &Cluster,
    ranks: &[Rank],
    now: u64,
) -> Result<List<TaskId>, AllocError>
    ensures { IfOk result (λ order. order ≡ flat_map (tasks_at_rank c.now now) ranks.now) }
{
    let mut order = List::from_vec(Vec::with_capacity(alloc, ranks.len())?);
    let mut left = walk_jobs(c);
    for rank in ranks {
        add_tasks(alloc, c, &mut left, rank.1, now, &mut order)?;
    }
    Ok(order)
}

/// The eligible tasks of the jobs of these priorities, by total falling, then job, then task: of each job the first by number,
/// as many as a run considers (sched_conf, max_pending_tasks_per_job).
pub fn order(
    alloc: Global,
    c: &Cluster,
    prios: &List<Prio>,
    now: u64,
) -> Result<List<TaskId>, AllocError>
    ensures { IfOk result (λ order. order ≡ order_of c.now prios.now now) }
{
    let ranks = ranked(alloc, prios.items())?;
    let order = tasks_at(alloc, c, ranks.as_slice(), now)?;
    Ok(order)
}
