// What is known of jobs before their priorities can be told.
ghost use Rattle.std.specs.Prelude.{◌≡◌, IfOk, map, fold, unwrap_or, None};
ghost use Rattle.ge_model_order.specs.Amounts.{least, greatest};
ghost use Rattle.ge_order.specs.Standings.{AreUnits, standing_of, urgencies_of, with_lesser, with_greater};

use crate::asked::{Units, units_of};
use crate::telling::standings_told;
use crate::urging::urgency_with;
use ge_jobs::get;
use ge_rows::Cluster;
use std::alloc::{AllocError, Global};

/// What the priority of a job stands on beside its tickets.
#[derive(Clone, Copy)]
pub(crate) struct Urgent {
    /// `-p`.
    pub priority: i32,
    /// Its urgency.
    pub urgency: u128,
}

/// A job of a list, which may not be there.
#[derive(Clone, Copy)]
pub(crate) struct Standing {
    /// Its number.
    pub job: u32,
    /// What is known of it, if it is there.
    pub urgent: Option<Urgent>,
}

fn standing_at(c: &Cluster, units: Units<'_>, number: u32, now: u64) -> Standing
    ensures { AreUnits c.now units.entry → result ≡ standing_of c.now now number }
{
    match get(&c.jobs, number) {
        None => Standing {
            job: number,
            urgent: None,
        },
        Some(job) => Standing {
            job: number,
            urgent: Some(Urgent {
                priority: job.priority,
                urgency: urgency_with(c, units, job, now),
            }),
        },
    }
}

// The same of each job by its row, for a table without short rows.
fn standings_each(
    alloc: Global,
    c: &Cluster,
    jobs: &[u32],
    now: u64,
) -> Result<Vec<Standing>, AllocError>
    ensures { IfOk result (λ standings. standings.items ≡ map (standing_of c.now now) jobs.now) }
{
    let units = units_of(c);
    let mut standings = Vec::new(alloc);
    for number in jobs {
        standings.push(standing_at(c, units, *number, now))?;
    }
    Ok(standings)
}

/// What is known of these jobs.
pub(crate) fn standings(
    alloc: Global,
    c: &Cluster,
    jobs: &[u32],
    now: u64,
) -> Result<Vec<Standing>, AllocError>
    ensures { IfOk result (λ standings. standings.items ≡ map (standing_of c.now now) jobs.now) }
{
    c.jobs.orderly();
    match c.jobs.shorts() {
        Some(shorts) => {
            let standings = standings_told(alloc, c, shorts.rows, jobs, now)?;
            Ok(standings)
        }
        None => standings_each(alloc, c, jobs, now),
    }
}

fn lesser(low: Option<u128>, standing: &Standing) -> Option<u128>
    ensures { result ≡ with_lesser low standing.now }
{
    match (standing.urgent, low) {
        (None, _) => low,
        (Some(urgent), None) => Some(urgent.urgency),
        (Some(urgent), Some(low)) => Some(low.min(urgent.urgency)),
    }
}

fn greater(high: u128, standing: &Standing) -> u128
    ensures { result ≡ with_greater high standing.now }
{
    match standing.urgent {
        None => high,
        Some(urgent) => high.max(urgent.urgency),
    }
}

// The least urgency, if there is one, and the greatest, 0 where there is none.
fn extremes_found(standings: &[Standing]) -> (Option<u128>, u128)
    ensures low { result.0 ≡ fold with_lesser None standings.now }
    ensures high { result.1 ≡ fold with_greater 0 standings.now }
{
    let mut low = None;
    let mut high = 0;
    for standing in standings {
        low = lesser(low, standing);
        high = greater(high, standing);
    }
    (low, high)
}

/// The least and the greatest urgency, 0 where there is none.
#[tactic(auto, using(crate::proofs::Scaled::lowest_is, crate::proofs::Scaled::highest_is))]
pub(crate) fn extremes(standings: &[Standing]) -> (u128, u128)
    ensures low { result.0 ≡ least (urgencies_of standings.now) }
    ensures high { result.1 ≡ greatest (urgencies_of standings.now) }
{
    let (low, high) = extremes_found(standings);
    (low.unwrap_or(0), high)
}
