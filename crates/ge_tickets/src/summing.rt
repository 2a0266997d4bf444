//! The shares of all users, of all projects and of the jobs themselves.

ghost use Rattle.std.specs.Prelude.{◌≡◌, ℕ, nat_lt, fold};
ghost use Rattle.ge_tickets.specs.Counted.{count_at, counted_shares, with_job_share, sums_of};

use crate::counting::{Counts, count_of};
use ge_base::sum_of;
use ge_rows::{Cluster, ProjectRow, Table, Text, UserRow, job_at};

/// The shares of all users with a job, of all projects with one, and of the jobs.
#[derive(Clone, Copy)]
pub(crate) struct ShareSums {
    /// Of the users.
    pub(crate) users: u128,
    /// Of the projects.
    pub(crate) projects: u128,
    /// Of the jobs (`-js`).
    pub(crate) jobs: u128,
}

fn is_counted(counts: &Table<Text, u64>, name: &Text) -> bool
    ensures { result ≡ nat_lt 0 (count_at counts.now name.now) }
{
    0 < count_of(counts, name)
}

fn user_shares(users: &Table<Text, UserRow>, counts: &Table<Text, u64>) -> u128
    ensures { result ≡ counted_shares (λ user. user.fshare) users.now counts.now }
{
    let mut total: u128 = 0;
    for (name, row) in users.iter() {
        if is_counted(counts, name) {
            total = sum_of(total, u128::from(row.fshare));
        }
    }
    total
}

fn project_shares(projects: &Table<Text, ProjectRow>, counts: &Table<Text, u64>) -> u128
    ensures { result ≡ counted_shares (λ project. project.fshare) projects.now counts.now }
{
    let mut total: u128 = 0;
    for (name, row) in projects.iter() {
        if is_counted(counts, name) {
            total = sum_of(total, u128::from(row.fshare));
        }
    }
    total
}

fn add_job_share(c: &Cluster, total: u128, number: u32) -> u128
    ensures { result ≡ with_job_share c.now total number }
{
    match job_at(&c.jobs, number) {
        Some(job) => sum_of(total, u128::from(job.share)),
        None => total,
    }
}

fn job_shares(c: &Cluster, numbers: &[u32]) -> u128
    ensures { result ≡ fold (with_job_share c.now) 0 numbers.now }
{
    let mut total: u128 = 0;
    for number in numbers {
        total = add_job_share(c, total, *number);
    }
    total
}

/// The three sums, where the jobs are counted.
pub(crate) fn sum_shares(c: &Cluster, numbers: &[u32], counts: &Counts) -> ShareSums
    ensures { result ≡ sums_of c.now numbers.now counts.now }
{
    ShareSums {
        users: user_shares(&c.users, &counts.owners),
        projects: project_shares(&c.projects, &counts.projects),
        jobs: job_shares(c, numbers),
    }
}
