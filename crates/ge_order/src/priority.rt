// The priorities of jobs (sge_priority).
ghost use Rattle.std.specs.Prelude.{◌≡◌, ℕ, List as Items, IfOk, IfSome, map, zip};
ghost use Rattle.ge_model_order.specs.Amounts.{greatest as greatest_of};
ghost use Rattle.ge_model_order.specs.Candidates.{candidates};
ghost use Rattle.ge_model_order.specs.Priority.{prios_of};
ghost use Rattle.ge_model_order.specs.Tickets.{tickets_of};
ghost use Rattle.ge_order.specs.Alike.{candidates_in, candidates_of, prios_in, prios_of_lot};
ghost use Rattle.ge_order.specs.Repeated.{prio_of_candidate};
ghost use Rattle.ge_order.specs.Standings.{prio_of, standing_of};
ghost use Rattle.ge_order.specs.Weighed.{IsWorked};

use crate::alike::Alike;
use crate::gathering::{Candidate, Gathered, gather};
use crate::lots::{Lot, Prios};
use crate::standing::{Standing, extremes, standings};
use crate::weighing::{Worked, work_after, work_on, work_out};
use ge_rows::{Cluster, List, Prio, Sched};
use ge_tickets::has_own_alone;
use std::alloc::{AllocError, Global};

/// What urgencies and tickets are parts of: the least and the greatest urgency, and the most tickets.
#[derive(Clone, Copy)]
pub(crate) struct Scale {
    /// The least urgency.
    pub low: u128,
    /// The greatest urgency.
    pub high: u128,
    /// The most tickets.
    pub most: u64,
}

fn greatest(tickets: &[u64]) -> u64
    ensures { result ≡ greatest_of tickets.now }
{
    let mut most = 0;
    for held in tickets {
        most = most.max(*held);
    }
    most
}

// The priority of a job for which this was worked out.
fn prio_by(job: u32, worked: &Worked) -> Prio
    ensures { result ≡ record {
      job = job;
      np = worked.now.np;
      nu = worked.now.nu;
      nt = worked.now.nt;
      total = worked.now.total;
    } }
{
    Prio {
        job,
        np: worked.np,
        nu: worked.nu,
        nt: worked.nt,
        total: worked.total,
    }
}

// The priority of a candidate, after what was worked out for the last one.
fn prio_after(sched: &Sched, scale: &Scale, last: &mut Worked, candidate: &Candidate) -> Prio
    ensures prio { IsWorked sched.now scale.now last.old
        → result ≡ prio_of_candidate sched.now scale.now candidate.now }
    ensures kept { IsWorked sched.now scale.now last.old → IsWorked sched.now scale.now last.new }
{
    work_on(sched, scale, last, candidate);
    prio_by(candidate.job, last)
}

// The same of a job that may not be there.
fn prio_at(
    sched: &Sched,
    scale: &Scale,
    last: &mut Worked,
    standing: &Standing,
    tickets: u64,
) -> Prio
    ensures prio { IsWorked sched.now scale.now last.old
        → result ≡ prio_of sched.now scale.now (standing.now, tickets) }
    ensures kept { IsWorked sched.now scale.now last.old → IsWorked sched.now scale.now last.new }
{
    let Some(urgent) = standing.urgent else {
        return Prio {
            job: standing.job,
            np: 0,
            nu: 0,
            nt: 0,
            total: 0,
        };
    };
    let candidate = Candidate {
        job: standing.job,
        priority: urgent.priority,
        tickets,
        urgency: urgent.urgency,
    };
    work_after(sched, scale, last, &candidate);
    prio_by(standing.job, last)
}

// What is worked out for a job that has nothing, to begin with.
fn first_worked(sched: &Sched, scale: &Scale) -> Worked
    ensures { IsWorked sched.now scale.now result }
{
    let nothing = Candidate {
        job: 0,
        priority: 0,
        tickets: 0,
        urgency: 0,
    };
    work_out(sched, scale, &nothing)
}

fn prios_on(
    alloc: Global,
    sched: &Sched,
    scale: &Scale,
    standings: &[Standing],
    tickets: &[u64],
) -> Result<List<Prio>, AllocError>
    ensures { IfOk result (λ prios. prios ≡ map (prio_of sched.now scale.now)
        (zip standings.now tickets.now)) }
{
    let mut prios = Vec::with_capacity(alloc, standings.len())?;
    let mut last = first_worked(sched, scale);
    for (standing, tickets) in standings.iter().zip(tickets) {
        prios.push_reserved(prio_at(sched, scale, &mut last, standing, *tickets));
    }
    Ok(List::from_vec(prios))
}

// The priorities of jobs of which this is known, with their tickets.
fn prios_known(
    alloc: Global,
    c: &Cluster,
    standings: &[Standing],
    tickets: &[u64],
) -> Result<List<Prio>, AllocError>
    ensures { (jobs : Items ℕ) (now : ℕ) → standings.now ≡ map (standing_of c.now now) jobs
        → IfOk result (λ prios. prios ≡ prios_of c.now jobs tickets.now now) }
{
    let (low, high) = extremes(standings);
    let scale = Scale {
        low,
        high,
        most: greatest(tickets),
    };
    let prios = prios_on(alloc, &c.sched, &scale, standings, tickets)?;
    Ok(prios)
}

// The priorities of a candidate and of those like it.
fn lot_after(sched: &Sched, scale: &Scale, last: &mut Worked, alike: Alike) -> Lot
    ensures prios { IsWorked sched.now scale.now last.old → prios_of_lot result
        ≡ map (prio_of_candidate sched.now scale.now) (candidates_of alike) }
    ensures kept { IsWorked sched.now scale.now last.old → IsWorked sched.now scale.now last.new }
{
    let Alike { first, others } = alike;
    Lot {
        first: prio_after(sched, scale, last, &first),
        others,
    }
}

fn lots_of(
    alloc: Global,
    sched: &Sched,
    scale: &Scale,
    alike: Vec<Alike>,
) -> Result<Vec<Lot>, AllocError>
    ensures { IfOk result (λ lots. prios_in lots.items
        ≡ map (prio_of_candidate sched.now scale.now) (candidates_in alike.items)) }
{
    let mut lots = Vec::with_capacity(alloc, alike.len())?;
    let mut last = first_worked(sched, scale);
    for lot in alike {
        lots.push(lot_after(sched, scale, &mut last, lot))?;
    }
    Ok(lots)
}

/// The priorities of jobs at a moment, in their order; the second list has the tickets of each. Urgency and tickets count by what
/// these jobs have of them, so that all candidates of a run belong into one list. A job that isn't there has a row of zeros.
pub fn prios(
    alloc: Global,
    c: &Cluster,
    jobs: &List<u32>,
    tickets: &List<u64>,
    now: u64,
) -> Result<List<Prio>, AllocError>
    ensures { IfOk result (λ prios. prios ≡ prios_of c.now jobs.now tickets.now now) }
{
    let standings = standings(alloc, c, jobs.items(), now)?;
    let prios = prios_known(alloc, c, standings.as_slice(), tickets.items())?;
    Ok(prios)
}

/// The priorities of all candidates at a moment, with their functional and override tickets, where they have none of these but
/// those that each was given: what the short rows of jobs tell, in one walk. None where jobs have others, or no short rows.
pub fn own_prios(alloc: Global, c: &Cluster, now: u64) -> Result<Option<Prios>, AllocError>
    ensures { IfOk result (λ found. IfSome found (λ prios. prios
        ≡ prios_of c.now (candidates c.now now) (tickets_of c.now (candidates c.now now)) now)) }
{
    if !has_own_alone(c) {
        return Ok(None);
    }
    c.jobs.orderly();
    let Some(shorts) = c.jobs.shorts() else {
        return Ok(None);
    };
    let Gathered { lots, scale } = gather(alloc, c, shorts.rows, now)?;
    let lots = lots_of(alloc, &c.sched, &scale, lots)?;
    Ok(Some(Prios::of_lots(lots)))
}
