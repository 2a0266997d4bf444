// Candidates that are alike. Most jobs are like the one before, so of each of those its number alone is kept.
ghost use Rattle.std.specs.Prelude.{◌≡◌, ◌++◌, [], ◌∷◌, cond, map, Some, IfOk, IfSome, OnOk, IsTrue};
ghost use Rattle.std.specs.Option.{option_to_list};
ghost use Rattle.ge_order.specs.Alike.{alike_of, candidate_by as candidate_urged, candidates_in, candidates_of, opened_in, urged_in};
ghost use Rattle.ge_order.specs.Repeated.{candidate_of, urged_by};

use crate::gathering::Candidate;
use crate::parts::cut_at_64;
use crate::repeating::{Urged, is_like};
use ge_rows::{JobFacts, ShortRow};
use std::alloc::AllocError;

/// A candidate, and those behind it that differ from it in their numbers alone.
#[derive(Drop)]
pub(crate) struct Alike {
    /// The first one.
    pub first: Candidate,
    /// The numbers of the others.
    pub others: Vec<u32>,
}

/// Candidates that are alike, which may become more.
#[derive(Drop)]
pub(crate) struct Open {
    /// What they stand on.
    pub urged: Urged,
    /// The number of the first one.
    pub first: u32,
    /// The numbers of the others.
    pub others: Vec<u32>,
}

fn candidate_by(number: u32, urged: &Urged) -> Candidate
    ensures { result ≡ candidate_urged number urged.now }
{
    Candidate {
        job: number,
        priority: urged.priority,
        tickets: cut_at_64(u128::from(urged.oticket)),
        urgency: urged.urgency,
    }
}

// One more candidate, if its short row is like theirs.
fn join(lot: &mut Open, number: u32, row: &ShortRow<JobFacts>) -> Result<bool, AllocError>
    ensures list { IfOk result (λ joined. candidates_of (alike_of lot.new)
        ≡ candidates_of (alike_of lot.old)
        ++ cond joined (candidate_of number row.now lot.old.urged.urgency ∷ []) []) }
    ensures same { IfOk result (λ joined. lot.new.urged ≡ lot.old.urged) }
    ensures like { IfOk result (λ joined. IsTrue joined → lot.old.urged
        ≡ urged_by row.now lot.old.urged.urgency) }
{
    if !is_like(&lot.urged, row) {
        return Ok(false);
    }
    lot.others.push(number)?;
    Ok(true)
}

/// One more candidate among those that are alike, if it is like them; its urgency then.
pub(crate) fn join_last(
    last: &mut Option<Open>,
    number: u32,
    row: &ShortRow<JobFacts>,
) -> Result<Option<u128>, AllocError>
    ensures list { IfOk result (λ urgency. opened_in last.new ≡ opened_in last.old
        ++ map (candidate_of number row.now) (option_to_list urgency)) }
    ensures same { IfOk result (λ urgency. urged_in last.new ≡ urged_in last.old) }
    ensures like { IfOk result (λ found. IfSome found (λ urgency. urged_in last.old
        ≡ Some (urged_by row.now urgency))) }
{
    match last {
        None => Ok(None),
        Some(lot) => {
            if join(lot, number, row)? {
                Ok(Some(lot.urged.urgency))
            } else {
                Ok(None)
            }
        }
    }
}

/// Candidates that don't become more, if there are some.
pub(crate) fn close(lots: &mut Vec<Alike>, last: Option<Open>) -> Result<(), AllocError>
    ensures { OnOk result (candidates_in lots.new.items
        ≡ candidates_in lots.old.items ++ opened_in last) }
{
    if let Some(lot) = last {
        let Open {
            urged,
            first,
            others,
        } = lot;
        lots.push(Alike {
            first: candidate_by(first, &urged),
            others,
        })?;
    }
    Ok(())
}
