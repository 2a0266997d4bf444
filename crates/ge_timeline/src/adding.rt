// Amounts of limits are added.
ghost use Rattle.std.specs.Prelude.{◌≡◌, ℕ, ◌<◌, Some, IfOk, OnOk, List as Items, [], ◌∷◌, ◌++◌};
ghost use Rattle.ge_timeline.specs.StepFunctions.{level_with};
ghost use Rattle.ge_model_place.specs.Bookings.{plain_sum};
ghost use Rattle.ge_model_rows.specs.ScheduleRows.{LimitId as Limit};
ghost use Rattle.ge_timeline.specs.Looks.{changes};
ghost use Rattle.ge_timeline.specs.Shown.{number_in, Shows, IsWhole, sums_but, changes_but};

use crate::functions::add_at;
use crate::index::Index;
use crate::points::Point;
use ge_rows::{Booking, LimitId, List, Twin};
use slab::Slab;
use std::alloc::{AllocError, Global};

// Room for the points of most limits: those of a host's slots, of which each task adds two. So few step functions are moved while
// they grow.
const MOST_POINTS: usize = 16;

// The number of a limit, which gets an empty step function where it has none.
pub(crate) fn key_of(
    alloc: Global,
    index: &mut Index,
    functions: &mut Slab<Vec<Point>>,
    limit: &LimitId,
) -> Result<usize, AllocError>
    ensures number { IfOk result (λ number. number_in index.new limit.now ≡ Some number) }
    ensures shows { OnOk result ((sums : Limit → ℕ → ℕ) (moments : Limit → Items ℕ)
        → Shows index.old functions.old sums moments → Shows index.new functions.new sums moments) }
{
    match index.number_of(limit) {
        Some(number) => Ok(number),
        None => {
            let limit = limit.twin(alloc)?;
            let points = Vec::with_capacity(alloc, MOST_POINTS)?;
            let number = functions.insert(points)?;
            index.give(alloc, limit, number)?;
            Ok(number)
        }
    }
}

// Adds an amount of a limit from one moment on until before another.
pub(crate) fn add_amount(
    alloc: Global,
    index: &mut Index,
    functions: &mut Slab<Vec<Point>>,
    limit: &LimitId,
    from: u64,
    until: u64,
    amount: u128,
) -> Result<(), AllocError>
    requires some { from < until }
    requires whole { IsWhole index.old functions.old }
    ensures { OnOk result ((sums : Limit → ℕ → ℕ) (moments : Limit → Items ℕ)
        → Shows index.old functions.old sums moments
        → Shows index.new functions.new
        (sums_but limit.now (λ t. level_with from until amount t (sums limit.now t)) sums)
        (changes_but limit.now (moments limit.now ++ from ∷ until ∷ []) moments)) }
{
    let number = key_of(alloc, index, functions, limit)?;
    add_at(functions, number, from, until, amount)
}

// Adds what a booking takes of each limit to what these bookings take, which are lent for the contract alone.
pub(crate) fn add_booking(
    alloc: Global,
    index: &mut Index,
    functions: &mut Slab<Vec<Point>>,
    _bookings: &List<Booking>,
    b: &Booking,
) -> Result<(), AllocError>
    requires { Shows index.old functions.old (plain_sum _bookings.now) (changes _bookings.now) }
    ensures { OnOk result (Shows index.new functions.new
        (plain_sum (_bookings.now ++ b.now ∷ [])) (changes (_bookings.now ++ b.now ∷ []))) }
{
    if b.until <= b.from {
        return Ok(());
    }
    for demand in b.demands.items() {
        add_amount(
            alloc,
            index,
            functions,
            &demand.limit,
            b.from,
            b.until,
            demand.amount,
        )?;
    }
    Ok(())
}
