//! What a job has from its user, from its project and from itself.

ghost use Rattle.std.specs.Prelude.{◌≡◌, ◌/◌, [], ◌∷◌, max};
ghost use Rattle.ge_base.specs.Fixed.{cut_sum, cut_product};
ghost use Rattle.ge_model_order.specs.Amounts.{portion, equal_part, cut_at_64};
ghost use Rattle.ge_model_order.specs.Tickets.{user_of, weighted};
ghost use Rattle.ge_tickets.specs.Counted.{from_user, from_named, from_project, from_itself, counted_tickets, tickets_by_counts};

use crate::counting::{Counts, count_of};
use crate::summing::ShareSums;
use ge_base::{product_of, sum_of};
use ge_rows::{Cluster, Job, Text, UserRow, job_at};

fn part_of(amount: u128, part: u128, whole: u128) -> u128
    ensures { result ≡ portion amount part whole }
{
    if whole == 0 {
        0
    } else {
        product_of(amount, part) / whole
    }
}

/// The functional tickets that a weight gives.
pub(crate) fn functional(c: &Cluster, weight: u64) -> u128
    ensures { result ≡ weighted c.now weight }
{
    product_of(u128::from(c.sched.functional), u128::from(weight)) / 1_000_000
}

fn row_of(c: &Cluster, user: &Text) -> UserRow
    ensures { result ≡ user_of c.now user.now }
{
    match c.users.get(user) {
        Some(row) => *row,
        None => UserRow {
            fshare: 0,
            oticket: 0,
        },
    }
}

fn shared(tickets: u128, share: u64, override_tickets: u64, shares: u128, count: u64) -> u128
    ensures { result ≡ cut_sum (portion tickets share (cut_product shares count)) (equal_part override_tickets count) }
{
    sum_of(
        part_of(
            tickets,
            u128::from(share),
            product_of(shares, u128::from(count)),
        ),
        u128::from(override_tickets / count.max(1)),
    )
}

fn by_user(c: &Cluster, shares: u128, user: &Text, count: u64) -> u128
    ensures { result ≡ from_user c.now shares user.now count }
{
    let row = row_of(c, user);
    shared(
        functional(c, c.sched.w_user),
        row.fshare,
        row.oticket,
        shares,
        count,
    )
}

fn by_name(c: &Cluster, shares: u128, project: &Text, count: u64) -> u128
    ensures { result ≡ from_named c.now shares project.now count }
{
    let tickets = functional(c, c.sched.w_project);
    match c.projects.get(project) {
        Some(row) => shared(tickets, row.fshare, row.oticket, shares, count),
        None => shared(tickets, 0, 0, shares, count),
    }
}

fn by_project(c: &Cluster, shares: u128, project: &Text, count: u64) -> u128
    ensures { result ≡ from_project c.now shares project.now count }
{
    match project.bytes() {
        [] => 0,
        [_, ..] => by_name(c, shares, project, count),
    }
}

fn by_itself(c: &Cluster, shares: u128, job: &Job) -> u128
    ensures { result ≡ from_itself c.now shares job.now }
{
    let part = part_of(functional(c, c.sched.w_job), u128::from(job.share), shares);
    sum_of(part, u128::from(job.oticket))
}

/// An amount, cut at the end of 64 bits.
pub(crate) fn cut(tickets: u128) -> u64
    ensures { result ≡ cut_at_64 tickets }
{
    tickets.min(18_446_744_073_709_551_615) as u64
}

fn job_tickets(c: &Cluster, counts: &Counts, sums: &ShareSums, job: &Job) -> u64
    ensures { result ≡ counted_tickets c.now counts.now sums.now job.now }
{
    let user = by_user(
        c,
        sums.users,
        &job.owner,
        count_of(&counts.owners, &job.owner),
    );
    let jobs = count_of(&counts.projects, &job.project);
    let project = by_project(c, sums.projects, &job.project, jobs);
    cut(sum_of(sum_of(user, project), by_itself(c, sums.jobs, job)))
}

/// The tickets of a job, 0 where it isn't there.
pub(crate) fn tickets_at(c: &Cluster, counts: &Counts, sums: &ShareSums, number: u32) -> u64
    ensures { result ≡ tickets_by_counts c.now counts.now sums.now number }
{
    match job_at(&c.jobs, number) {
        Some(job) => job_tickets(c, counts, sums, job),
        None => 0,
    }
}
