//! Many windows over as many bookings of one limit, which a body that sums its bookings at each look wouldn't end with.

use ge_pieces::{behind_word, digits_worth, first_word};
use ge_rows::{Booking, Demand, InstanceId, LimitId, List, TaskId, Text};
use ge_timeline::Timeline;
use std::alloc::{AllocError, Global};

// The slots of an instance.
fn slots(alloc: Global) -> Result<LimitId, AllocError> {
    let queue = Text::from_bytes(alloc, b"gen.q")?;
    let host = Text::from_bytes(alloc, b"g0")?;
    let name = Text::from_bytes(alloc, b"slots")?;
    Ok(LimitId::Instance(InstanceId { queue, host }, name))
}

// The moment at which the booking of a job begins.
fn beginning_of(job: u32) -> u64 {
    u64::from(job).saturating_mul(10)
}

// As many slots as the job's number says, for five seconds.
fn booking(alloc: Global, job: u32) -> Result<Booking, AllocError> {
    let mut demands = List::new(alloc);
    demands.push(Demand {
        limit: slots(alloc)?,
        amount: u128::from(job),
    })?;
    let from = beginning_of(job);
    Ok(Booking {
        task: TaskId { job, task: 1 },
        demands,
        from,
        until: from.saturating_add(5),
    })
}

fn booked(alloc: Global, jobs: u32) -> Result<Timeline, AllocError> {
    let mut timeline = Timeline::new(alloc)?;
    for job in 1..jobs.saturating_add(1) {
        timeline.add(booking(alloc, job)?)?;
    }
    Ok(timeline)
}

// How many windows of twenty seconds have another greatest sum than that of the later booking in them, or the last one its own.
fn count_wrong(timeline: &Timeline, limit: &LimitId, jobs: u32) -> u32 {
    let mut count: u32 = 0;
    for job in 1..jobs.saturating_add(1) {
        let from = beginning_of(job);
        let want = u128::from(job.saturating_add(1).min(jobs));
        let until = from.saturating_add(20);
        let is_wrong = timeline.greatest(limit, from, until) != want
            || timeline.is_above(limit, from, until, want)
            || !timeline.is_above(limit, from, until, want.saturating_sub(1));
        if is_wrong {
            count = count.saturating_add(1);
        }
    }
    count
}

/// A page `windows`: how many jobs book a slot limit one after the other, and how often a window at each is looked at. It tells
/// each time how many windows have another greatest sum than they should.
pub(crate) fn windows_page(alloc: Global, body: &[u8]) -> Result<Vec<u8>, AllocError> {
    let jobs = digits_worth(first_word(body)).min(100_000) as u32;
    let limit = slots(alloc)?;
    let timeline = booked(alloc, jobs)?;
    let mut text = Vec::new(alloc);
    for _ in 0..digits_worth(behind_word(body)).min(10) {
        let wrong = count_wrong(&timeline, &limit, jobs);
        text.extend_from_slice(format!(in alloc; "{jobs} windows, {wrong} wrong\n")?.as_bytes())?;
    }
    Ok(text)
}
