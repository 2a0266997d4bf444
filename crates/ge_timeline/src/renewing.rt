// The sums of the limits of a booking that was taken out are taken anew from the bookings that are left.
ghost use Rattle.std.specs.Prelude.{◌≡◌, ℕ, ◌<◌, ◌++◌, [], ◌∷◌, IfOk, OnOk, List as Items};
ghost use Rattle.ge_timeline.specs.StepFunctions.{IsRising};
ghost use Rattle.ge_model_place.specs.Bookings.{plain_sum};
ghost use Rattle.ge_model_rows.specs.ScheduleRows.{LimitId as Limit, Booking as Row};
ghost use Rattle.ge_timeline.specs.Looks.{changes, changes_by};
ghost use Rattle.ge_timeline.specs.Shown.{Shows, Draws, IsWhole, sums_but, changes_but, own_with, sums_anew, changes_anew};

use crate::adding::key_of;
use crate::counted::add;
use crate::functions::put_at;
use crate::index::Index;
use crate::points::Point;
use ge_bookings::is_same_limit;
use ge_rows::{Booking, Demand, LimitId, List};
use slab::Slab;
use std::alloc::{AllocError, Global};

// Adds what a booking takes of a limit by one demand.
fn add_demand(
    points: &mut Vec<Point>,
    limit: &LimitId,
    b: &Booking,
    demand: &Demand,
) -> Result<(), AllocError>
    requires some { b.now.from < b.now.until }
    requires rising { IsRising points.old.items }
    ensures rising { IsRising points.new.items }
    ensures drawn { OnOk result ((sums : ℕ → ℕ) (moments : Items ℕ) → Draws sums moments points.old.items
        → Draws (own_with limit.now b.now demand.now sums) (moments ++ changes_by limit.now b.now demand.now)
        points.new.items) }
{
    if is_same_limit(&demand.limit, limit) {
        add(points, b.from, b.until, demand.amount)
    } else {
        Ok(())
    }
}

// Adds what a booking takes of a limit.
fn add_own(points: &mut Vec<Point>, limit: &LimitId, b: &Booking) -> Result<(), AllocError>
    requires rising { IsRising points.old.items }
    ensures rising { IsRising points.new.items }
    ensures drawn { OnOk result ((bookings : Items Row)
        → Draws (plain_sum bookings limit.now) (changes bookings limit.now) points.old.items
        → Draws (plain_sum (bookings ++ b.now ∷ []) limit.now) (changes (bookings ++ b.now ∷ []) limit.now)
        points.new.items) }
{
    if b.until <= b.from {
        return Ok(());
    }
    for demand in b.demands.items() {
        add_demand(points, limit, b, demand)?;
    }
    Ok(())
}

// The points of what these bookings take of a limit.
fn points_of(
    alloc: Global,
    bookings: &List<Booking>,
    limit: &LimitId,
) -> Result<Vec<Point>, AllocError>
    ensures { IfOk result
        (λ points. Draws (plain_sum bookings.now limit.now) (changes bookings.now limit.now) points.items) }
{
    let mut points = Vec::new(alloc);
    for b in bookings.items() {
        add_own(&mut points, limit, b)?;
    }
    Ok(points)
}

// Takes the sums of one limit anew from these bookings.
fn renew(
    alloc: Global,
    index: &mut Index,
    functions: &mut Slab<Vec<Point>>,
    bookings: &List<Booking>,
    limit: &LimitId,
) -> Result<(), AllocError>
    requires { IsWhole index.old functions.old }
    ensures { OnOk result ((sums : Limit → ℕ → ℕ) (moments : Limit → Items ℕ)
        → Shows index.old functions.old sums moments
        → Shows index.new functions.new
        (sums_but limit.now (plain_sum bookings.now limit.now) sums)
        (changes_but limit.now (changes bookings.now limit.now) moments)) }
{
    let number = key_of(alloc, index, functions, limit)?;
    let points = points_of(alloc, bookings, limit)?;
    put_at(functions, number, points);
    Ok(())
}

// Takes the sums of these demands' limits anew from these bookings.
pub(crate) fn renew_all(
    alloc: Global,
    index: &mut Index,
    functions: &mut Slab<Vec<Point>>,
    bookings: &List<Booking>,
    demands: &List<Demand>,
) -> Result<(), AllocError>
    requires { IsWhole index.old functions.old }
    ensures { OnOk result ((sums : Limit → ℕ → ℕ) (moments : Limit → Items ℕ)
        → Shows index.old functions.old sums moments
        → Shows index.new functions.new
        (sums_anew bookings.now demands.now sums) (changes_anew bookings.now demands.now moments)) }
{
    for demand in demands.items() {
        renew(alloc, index, functions, bookings, &demand.limit)?;
    }
    Ok(())
}
