// Priorities in two parts, of which the first comes before a bound in the order of a run.
ghost use Rattle.std.specs.Prelude.{◌≡◌, ◌<◌, ◌*◌, ◌++◌, length, None, IfOk, IfSome, OnOk};
ghost use Rattle.ge_order.specs.Alike as alike;
ghost use Rattle.ge_order.specs.Alike.{prios_of_lot};
ghost use Rattle.ge_order.specs.Parted.{comes_before, first_of, second_of, IsLimit, OrdersInParts};

use crate::lots::{Lot, Prios, prio_at};
use crate::ordering::{Rank, rank};
use ge_rows::{List, Prio};
use std::alloc::{AllocError, Global};
use std::cmp::Reverse;

/// How many ranks a bound is chosen from, at most.
const SAMPLES: usize = 256;

/// A rank that parts priorities: those before it in the order of a run, and the others.
#[derive(Clone, Copy)]
pub struct Bound {
    pub(crate) rank: Rank,
}

/// The rank of a lot's first job, how many jobs it stands for, and the lot's place.
type Sample = (Rank, usize, usize);

// Samples at even distances, sorted: one of so many jobs, or of a lot that has more.
fn samples(alloc: Global, lots: &[Lot], distance: usize) -> Result<Vec<Sample>, AllocError> {
    let mut samples = Vec::new(alloc);
    let mut jobs = 0_usize;
    for (place, lot) in lots.iter().enumerate() {
        jobs = jobs.saturating_add(lot.len());
        if jobs >= distance {
            samples.push((rank(&lot.first), jobs, place))?;
            jobs = 0;
        }
    }
    samples.sort()?;
    Ok(samples)
}

// The rank of the job that stands at a place behind the first of a sample's lot; of the first, where there is none.
fn rank_within(lots: &[Lot], sample: &Sample, behind: usize) -> Rank {
    let (rank, _, place) = sample;
    let Some(lot) = lots.get(*place) else {
        return *rank;
    };
    match lot.others.get(behind) {
        Some(number) => (rank.0, *number),
        None => *rank,
    }
}

// The rank before which so many jobs lie, as samples tell.
fn rank_behind(lots: &[Lot], samples: &[Sample], few: usize) -> Option<Rank> {
    let mut left = few;
    for sample in samples {
        if sample.1 > left {
            return Some(rank_within(lots, sample, left));
        }
        left = left.saturating_sub(sample.1);
    }
    None
}

/// A bound before which some `few` of these priorities lie, as a sample of them tells. Any bound parts priorities rightly. None
/// where there are fewer than four times as many: then parts don't pay.
///
/// # Errors
///
/// Where there is no memory for the sample.
#[tactic(auto, using(crate::proofs::InParts::any_parts))]
pub fn bound_for(alloc: Global, prios: &Prios, few: usize) -> Result<Option<Bound>, AllocError>
    ensures none { length prios.now < 4 * few → IfOk result (λ found. found ≡ None) }
    ensures orders { IfOk result (λ found. IfSome found
        (λ bound. OrdersInParts bound prios.now)) }
{
    let len = prios.len();
    if len / 4 < few {
        return Ok(None);
    }
    let distance = len.div_ceil(SAMPLES).max(1);
    let samples = samples(alloc, prios.lots(), distance)?;
    let rank = rank_behind(prios.lots(), samples.as_slice(), few);
    Ok(rank.map(|rank| Bound { rank }))
}

// The number below which jobs with a priority come before a bound: each does, none, or those before the bound's own job.
#[tactic(auto, using(crate::proofs::Limited::all_before, crate::proofs::Limited::some_before, crate::proofs::Limited::none_before))]
fn limit_of(bound: &Bound, first: &Prio) -> u64
    ensures { IsLimit bound.now first.now result }
{
    let (Reverse(least), job) = bound.rank;
    if first.total > least {
        1 << 32
    } else if first.total == least {
        u64::from(job)
    } else {
        0
    }
}

fn comes_first(_bound: &Bound, limit: u64, _first: &Prio, number: u32) -> bool
    requires { IsLimit _bound.now _first.now limit }
    ensures { result ≡ comes_before _bound.now (alike.prio_at _first.now number) }
{
    u64::from(number) < limit
}

// Those of a lot that come before a bound, at the end of a list.
fn append_before(part: &mut Vec<Prio>, lot: &Lot, bound: &Bound) -> Result<(), AllocError>
    ensures { OnOk result (part.new.items
        ≡ part.old.items ++ first_of bound.now (prios_of_lot lot.now)) }
{
    let limit = limit_of(bound, &lot.first);
    if comes_first(bound, limit, &lot.first, lot.first.job) {
        part.push(lot.first)?;
    }
    for number in lot.others.iter() {
        if comes_first(bound, limit, &lot.first, *number) {
            part.push(prio_at(&lot.first, *number))?;
        }
    }
    Ok(())
}

// Those of a lot that don't.
fn append_behind(part: &mut Vec<Prio>, lot: &Lot, bound: &Bound) -> Result<(), AllocError>
    ensures { OnOk result (part.new.items
        ≡ part.old.items ++ second_of bound.now (prios_of_lot lot.now)) }
{
    let limit = limit_of(bound, &lot.first);
    if !comes_first(bound, limit, &lot.first, lot.first.job) {
        part.push(lot.first)?;
    }
    for number in lot.others.iter() {
        if !comes_first(bound, limit, &lot.first, *number) {
            part.push(prio_at(&lot.first, *number))?;
        }
    }
    Ok(())
}

/// The priorities that come before a bound in the order of a run, in their order. The order of all is that of these, and then
/// that of [`second_part`].
///
/// # Errors
///
/// Where there is no memory for them.
pub fn first_part(alloc: Global, prios: &Prios, bound: &Bound) -> Result<List<Prio>, AllocError>
    ensures { IfOk result (λ part. part ≡ first_of bound.now prios.now) }
{
    let lots = prios.lots();
    let mut part = Vec::new(alloc);
    for lot in lots {
        append_before(&mut part, lot, bound)?;
    }
    Ok(List::from_vec(part))
}

/// The priorities that don't come before a bound, in their order.
///
/// # Errors
///
/// Where there is no memory for them.
pub fn second_part(alloc: Global, prios: &Prios, bound: &Bound) -> Result<List<Prio>, AllocError>
    ensures { IfOk result (λ part. part ≡ second_of bound.now prios.now) }
{
    let lots = prios.lots();
    let mut part = Vec::with_capacity(alloc, prios.len())?;
    for lot in lots {
        append_behind(&mut part, lot, bound)?;
    }
    Ok(List::from_vec(part))
}
