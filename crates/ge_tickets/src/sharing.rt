//! Usage and jobs along the lines, and the share tickets of each job of a list.

ghost use Rattle.std.specs.Prelude.{◌≡◌, true, [], IfOk, OnOk, IsTrue, fold, map};
ghost use Rattle.ge_model_order.specs.Share.{share_tickets_of, leaf_tickets};
ghost use Rattle.ge_tickets.specs.Listed.{with_usage_by, usage_by, with_number, jobs_by, number_tickets, no_tickets};

use crate::adding::{amount, raise_along};
use crate::decaying::{decay, epoch};
use crate::dividing_shares::give;
use crate::finding::{LeafFinder, leaf_of, line_up, prepare};
use crate::leveling::divide_tickets;
use crate::walking::{Walk, walk_tree};
use ge_base::sum_of;
use ge_rows::{Cluster, List, Table, Text, job_at};
use std::alloc::{AllocError, Global};

// Whether the usage that is summed up is that of a row's user and project.
fn is_of(begun: bool, user: &[u8], project: &[u8], key: &(Text, Text, u64)) -> bool
    ensures { IsTrue result
        → (begun ≡ true) × (user.now ≡ key.now.0) × (project.now ≡ key.now.1) }
{
    begun && user == key.0.bytes() && project == key.1.bytes()
}

// The rows are in order of users and projects, so that the epochs of both are summed up before the line is raised, once.
fn add_usages(
    alloc: Global,
    c: &Cluster,
    finder: &LeafFinder,
    now_epoch: u64,
) -> Result<Table<u32, u128>, AllocError>
    ensures { IfOk result (λ usage. usage ≡ fold (with_usage_by now_epoch finder.now)
        [] c.now.usage) }
{
    let mut usage = Table::new(alloc);
    let mut begun = false;
    let mut user: &[u8] = &[];
    let mut project: &[u8] = &[];
    let mut line: &[u32] = &[];
    let mut sum: u128 = 0;
    for (key, amount) in c.usage.iter() {
        let more = decay(*amount, key.2, now_epoch);
        if is_of(begun, user, project, key) {
            sum = sum_of(sum, more);
        } else {
            raise_along(&mut usage, line, sum)?;
            line = line_up(alloc, finder, &key.0, &key.1)?;
            user = key.0.bytes();
            project = key.1.bytes();
            begun = true;
            sum = more;
        }
    }
    raise_along(&mut usage, line, sum)?;
    Ok(usage)
}

fn usage_of_nodes(
    alloc: Global,
    c: &Cluster,
    finder: &LeafFinder,
    now: u64,
) -> Result<Table<u32, u128>, AllocError>
    ensures { IfOk result (λ usage. usage ≡ usage_by c.now finder.now now) }
{
    let usage = add_usages(alloc, c, finder, epoch(now, c.sched.halftime))?;
    Ok(usage)
}

fn add_job(
    alloc: Global,
    c: &Cluster,
    finder: &LeafFinder,
    jobs: &mut Table<u32, u128>,
    number: u32,
) -> Result<(), AllocError>
    ensures { OnOk result (jobs.new ≡ with_number c.now finder.now jobs.old number) }
{
    match job_at(&c.jobs, number) {
        None => Ok(()),
        Some(job) => {
            let line = line_up(alloc, finder, &job.owner, &job.project)?;
            raise_along(jobs, line, 1)
        }
    }
}

fn jobs_of_nodes(
    alloc: Global,
    c: &Cluster,
    finder: &LeafFinder,
    numbers: &[u32],
) -> Result<Table<u32, u128>, AllocError>
    ensures { IfOk result (λ jobs. jobs ≡ jobs_by c.now finder.now numbers.now) }
{
    let mut jobs = Table::new(alloc);
    for number in numbers {
        add_job(alloc, c, finder, &mut jobs, *number)?;
    }
    Ok(jobs)
}

fn tickets_from(tickets: &Table<u32, u128>, jobs: &Table<u32, u128>, leaf: Option<u32>) -> u64
    ensures { result ≡ leaf_tickets tickets.now jobs.now leaf }
{
    match leaf {
        None => 0,
        Some(id) => give(amount(tickets, id), amount(jobs, id)),
    }
}

fn tickets_at(
    alloc: Global,
    c: &Cluster,
    finder: &LeafFinder,
    tickets: &Table<u32, u128>,
    jobs: &Table<u32, u128>,
    number: u32,
) -> Result<u64, AllocError>
    ensures { IfOk result (λ own. own
        ≡ number_tickets c.now finder.now tickets.now jobs.now number) }
{
    match job_at(&c.jobs, number) {
        None => Ok(0),
        Some(job) => {
            let leaf = leaf_of(alloc, finder, &job.owner, &job.project)?;
            Ok(tickets_from(tickets, jobs, leaf))
        }
    }
}

fn list_tickets(
    alloc: Global,
    c: &Cluster,
    finder: &LeafFinder,
    tickets: &Table<u32, u128>,
    jobs: &Table<u32, u128>,
    numbers: &[u32],
) -> Result<List<u64>, AllocError>
    ensures { IfOk result (λ list. list ≡ map (number_tickets c.now finder.now tickets.now jobs.now)
        numbers.now) }
{
    let mut list = List::new(alloc);
    for number in numbers {
        let own = tickets_at(alloc, c, finder, tickets, jobs, *number)?;
        list.push(own)?;
    }
    Ok(list)
}

// The share tickets of each of these jobs, where there is a tree.
fn tree_tickets(
    alloc: Global,
    c: &Cluster,
    jobs: &List<u32>,
    now: u64,
) -> Result<List<u64>, AllocError>
    ensures { IfOk result (λ tickets. tickets ≡ share_tickets_of c.now jobs.now now) }
{
    let numbers = jobs.items();
    let walk = walk_tree(alloc, c)?;
    let Walk { order, lines } = walk;
    let nodes = order.items();
    let finder = prepare(alloc, nodes, lines)?;
    let jobs = jobs_of_nodes(alloc, c, &finder, numbers)?;
    let usage = usage_of_nodes(alloc, c, &finder, now)?;
    let tickets = divide_tickets(alloc, c.sched.share, &usage, &jobs, nodes)?;
    let list = list_tickets(alloc, c, &finder, &tickets, &jobs, numbers)?;
    Ok(list)
}

fn list_none(alloc: Global, numbers: &[u32]) -> Result<List<u64>, AllocError>
    ensures { IfOk result (λ list. list ≡ map no_tickets numbers.now) }
{
    let mut list = List::from_vec(Vec::with_capacity(alloc, numbers.len())?);
    for _number in numbers {
        list.push(0)?;
    }
    Ok(list)
}

fn has_no_tree(c: &Cluster) -> bool
    ensures { IsTrue result → c.now.shares ≡ [] }
{
    c.shares.is_empty()
}

/// The share tickets of each of these jobs at a moment, in the list's order: 0 of a job that isn't there or has no leaf, and
/// at most 2^64 - 1 (share_tree, sched_conf).
///
/// # Errors
/// Where there is no memory for the list or for what is kept of the tree meanwhile.
pub fn share_tickets(
    alloc: Global,
    c: &Cluster,
    jobs: &List<u32>,
    now: u64,
) -> Result<List<u64>, AllocError>
    ensures { IfOk result (λ tickets. tickets ≡ share_tickets_of c.now jobs.now now) }
{
    if has_no_tree(c) {
        let list = list_none(alloc, jobs.items())?;
        return Ok(list);
    }
    tree_tickets(alloc, c, jobs, now)
}
