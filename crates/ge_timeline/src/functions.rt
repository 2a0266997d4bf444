// Step functions in a slab.
ghost use Rattle.std.specs.Prelude.{◌≡◌, ◌≢◌, ℕ, ◌<◌, Some, IsSome, OnOk, IsSomeAnd};
ghost use Rattle.slab.specs.Slab.{get};
ghost use Rattle.ge_timeline.specs.StepFunctions.{IsRising};
ghost use Rattle.ge_timeline.specs.Shown.{IsRaised};

use crate::counted::add;
use crate::points::Point;
use slab::Slab;
use std::alloc::AllocError;

// Adds an amount to the step function with a number.
pub(crate) fn add_at(
    functions: &mut Slab<Vec<Point>>,
    number: usize,
    from: u64,
    until: u64,
    amount: u128,
) -> Result<(), AllocError>
    requires there { IsSomeAnd (get functions.old number) (λ points. IsRising points.items) }
    requires some { from < until }
    ensures others { (other : ℕ) → other ≢ number → get functions.new other ≡ get functions.old other }
    ensures still { IsSomeAnd (get functions.new number) (λ points. IsRising points.items) }
    ensures here { OnOk result
        (IsRaised from until amount (get functions.old number) (get functions.new number)) }
{
    match functions.get_mut(number) {
        Some(points) => add(points, from, until, amount),
        None => Ok(()),
    }
}

// Puts other points in the place of those with a number.
pub(crate) fn put_at(functions: &mut Slab<Vec<Point>>, number: usize, points: Vec<Point>)
    requires { IsSome (get functions.old number) }
    ensures others { (other : ℕ) → other ≢ number → get functions.new other ≡ get functions.old other }
    ensures here { get functions.new number ≡ Some points }
{
    if let Some(place) = functions.get_mut(number) {
        *place = points;
    }
}
