// What short rows tell of all candidates, in one walk.
ghost use Rattle.std.specs.Prelude.{◌≡◌, IfOk, map};
ghost use Rattle.ge_tickets.specs.Own.{told_tickets};
ghost use Rattle.ge_order.specs.Alike.{candidates_in};
ghost use Rattle.ge_order.specs.Kinds.{TellJobs, told_standing};
ghost use Rattle.ge_order.specs.Repeated.{standing, Gathers, IsScale};
ghost use Rattle.ge_order.specs.Told.{chosen};

use crate::alike::{Alike, Open, close, join_last};
use crate::asked::{Units, units_of};
use crate::choosing::has_task;
use crate::kinds::{Kinds, no_kinds, row_urgency};
use crate::parts::cut_at_64;
use crate::priority::Scale;
use crate::repeating::{Bounds, bounds_of, no_bounds, stands_on};
use crate::urging::urgency_by;
use ge_rows::{Cluster, JobFacts, ShortRow};
use std::alloc::{AllocError, Global};
use std::collections::BTreeMap;
use std::mem;

/// A job that has an eligible task, and what its priority stands on.
#[derive(Clone, Copy)]
pub(crate) struct Candidate {
    /// Its number.
    pub job: u32,
    /// `-p`.
    pub priority: i32,
    /// The tickets that it was given.
    pub tickets: u64,
    /// Its urgency.
    pub urgency: u128,
}

/// All candidates, and what their urgencies and tickets are parts of.
#[derive(Drop)]
pub(crate) struct Gathered {
    pub(crate) lots: Vec<Alike>,
    pub(crate) scale: Scale,
}

/// The candidates so far: those that are alike together, and of the last of these what more may join them.
#[derive(Drop)]
pub(crate) struct Gathering {
    pub(crate) kinds: Kinds,
    pub(crate) bounds: Bounds,
    pub(crate) lots: Vec<Alike>,
    pub(crate) last: Option<Open>,
}

// One more candidate that isn't like the last.
fn begin(
    alloc: Global,
    c: &Cluster,
    units: Units<'_>,
    gathering: &mut Gathering,
    number: u32,
    row: &ShortRow<JobFacts>,
    now: u64,
) -> Result<u128, AllocError>
    ensures { Gathers c.now units.entry now gathering.old gathering.new number row.now result }
{
    let asked = row_urgency(c, units, &mut gathering.kinds, number, row);
    let urgency = urgency_by(c, asked, row.facts.submitted, row.facts.deadline, now);
    let tickets = cut_at_64(u128::from(row.facts.oticket));
    gathering.bounds = bounds_of(&gathering.bounds, urgency, tickets);
    let lot = Open {
        urged: stands_on(row, urgency),
        first: number,
        others: Vec::new(alloc),
    };
    let last = mem::replace(&mut gathering.last, Some(lot));
    close(&mut gathering.lots, last)?;
    Ok(urgency)
}

// One more candidate; its urgency is worked out only where it isn't like the last.
fn take(
    alloc: Global,
    c: &Cluster,
    units: Units<'_>,
    gathering: &mut Gathering,
    number: u32,
    row: &ShortRow<JobFacts>,
    now: u64,
) -> Result<u128, AllocError>
    ensures { Gathers c.now units.entry now gathering.old gathering.new number row.now result }
{
    if let Some(urgency) = join_last(&mut gathering.last, number, row)? {
        return Ok(urgency);
    }
    begin(alloc, c, units, gathering, number, row, now)
}

/// What short rows tell of the jobs that have an eligible task.
pub(crate) fn gather(
    alloc: Global,
    c: &Cluster,
    rows: &BTreeMap<u32, ShortRow<JobFacts>>,
    now: u64,
) -> Result<Gathered, AllocError>
    ensures standings { TellJobs c.now rows.now.entries → IfOk result (λ found.
        map standing (candidates_in found.lots.items)
        ≡ map (told_standing c.now rows.now.entries now)
        (chosen c.now now rows.now.entries)) }
    ensures tickets { IfOk result (λ found. map (λ x. x.tickets) (candidates_in found.lots.items)
        ≡ map (told_tickets rows.now.entries) (chosen c.now now rows.now.entries)) }
    ensures scale { IfOk result (λ found. IsScale found.scale
        (map standing (candidates_in found.lots.items))
        (map (λ x. x.tickets) (candidates_in found.lots.items))) }
{
    let units = units_of(c);
    let mut gathering = Gathering {
        kinds: no_kinds(),
        bounds: no_bounds(),
        lots: Vec::new(alloc),
        last: None,
    };
    for (number, row) in rows.iter() {
        if has_task(alloc, c, *number, row, now)? {
            let _urgency = take(alloc, c, units, &mut gathering, *number, row, now)?;
        }
    }
    let Gathering {
        kinds: _,
        bounds,
        mut lots,
        last,
    } = gathering;
    close(&mut lots, last)?;
    let scale = Scale {
        low: bounds.low.unwrap_or(0),
        high: bounds.high,
        most: bounds.most,
    };
    Ok(Gathered { lots, scale })
}
