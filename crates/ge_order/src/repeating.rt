// What candidates stand on in a walk over short rows: jobs that follow each other are mostly alike.
ghost use Rattle.std.specs.Prelude.{◌≡◌, Some, IsTrue, None};
ghost use Rattle.ge_order.specs.Repeated.{bounds_with, urged_by};
ghost use Rattle.ge_order.specs.Standings.{lesser as least_of};

use ge_rows::{JobFacts, ShortRow};

/// What a candidate stands on at one moment, as its short row tells, and its urgency.
#[derive(Clone, Copy)]
pub(crate) struct Urged {
    /// The number of its kind.
    pub kind: u32,
    /// When it was submitted.
    pub submitted: u64,
    /// Its deadline, 0 for none.
    pub deadline: u64,
    /// The tickets that it was given.
    pub oticket: u64,
    /// `-p`.
    pub priority: i32,
    /// Its urgency.
    pub urgency: u128,
}

/// What urgencies and tickets reach.
#[derive(Clone, Copy)]
pub(crate) struct Bounds {
    /// The least urgency.
    pub low: Option<u128>,
    /// The greatest urgency, 0 where there is none.
    pub high: u128,
    /// The most tickets.
    pub most: u64,
}

/// What is reached before the first candidate.
pub(crate) fn no_bounds() -> Bounds
    ensures { result ≡ record { low = None; high = 0; most = 0 } }
{
    Bounds {
        low: None,
        high: 0,
        most: 0,
    }
}

/// Whether the candidate of a short row differs from another in its number alone.
pub(crate) fn is_like(known: &Urged, row: &ShortRow<JobFacts>) -> bool
    ensures { IsTrue result → known.now ≡ urged_by row.now known.now.urgency }
{
    known.submitted == row.facts.submitted
        && known.kind == row.third
        && known.priority == row.facts.priority
        && known.oticket == row.facts.oticket
        && known.deadline == row.facts.deadline
}

/// What a candidate with this urgency stands on.
pub(crate) fn stands_on(row: &ShortRow<JobFacts>, urgency: u128) -> Urged
    ensures { result ≡ urged_by row.now urgency }
{
    Urged {
        kind: row.third,
        submitted: row.facts.submitted,
        deadline: row.facts.deadline,
        oticket: row.facts.oticket,
        priority: row.facts.priority,
        urgency,
    }
}

fn lesser(low: Option<u128>, urgency: u128) -> u128
    ensures { result ≡ least_of low urgency }
{
    match low {
        None => urgency,
        Some(low) => low.min(urgency),
    }
}

/// What is reached with one more candidate.
pub(crate) fn bounds_of(bounds: &Bounds, urgency: u128, tickets: u64) -> Bounds
    ensures { result ≡ bounds_with bounds.now urgency tickets }
{
    Bounds {
        low: Some(lesser(bounds.low, urgency)),
        high: bounds.high.max(urgency),
        most: bounds.most.max(tickets),
    }
}
