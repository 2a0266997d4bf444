// The greatest number of a window.
ghost use Rattle.std.specs.Prelude.{◌≡◌, ℕ, ◌+◌, ◌-◌, ◌*◌, ◌^◌, ◌<◌, ◌≤◌, length, fold, cond, max, nat_lt, count_by};
ghost use Rattle.ge_timeline.specs.StepFunctions.{IsRising, greatest, points_in};

use crate::counted::sum_before;
use crate::counting::Steps;
use crate::finding::place_after;
use crate::points::Point;
use std::sync::ledger::Ledger;

// The greatest of a number and those of the first of these points, up to a moment.
fn highest_before<L: Ledger>(points: &[Point], until: u64, most: u128, steps: &mut Steps<L>) -> u128
    requires { IsRising points.now }
    ensures greatest { result ≡ fold (λ m p. cond (nat_lt p.at until) (max m p.sum) m) most points.now }
    ensures cost { steps.new ≤ steps.old + count_by (λ p. nat_lt p.at until) points.now + 1 }
{
    let mut most = most;
    for point in points {
        steps.tick();
        if point.at >= until {
            return most;
        }
        most = most.max(point.sum);
    }
    most
}

/// The greatest number of a window, 0 for an empty one.
pub fn peak<L: Ledger>(points: &[Point], from: u64, until: u64, steps: &mut Steps<L>) -> u128
    requires { IsRising points.now }
    ensures greatest { result ≡ greatest points.now from until }
    ensures cost { (t : ℕ) × (2 ^ t ≤ 2 * length points.now + 1) × (steps.new ≤ steps.old + t + points_in from until points.now + 2) }
{
    if from >= until {
        return 0;
    }
    let place = place_after(points, from, steps);
    steps.tick();
    let first = sum_before(points, place);
    let (_, behind) = points.split_at(place);
    highest_before(behind, until, first, steps)
}

// Whether the greatest of a number and those of the first of these points, up to a moment, is above a bound. No point is looked at
// behind the first that is.
fn rises_above<L: Ledger>(
    points: &[Point],
    until: u64,
    first: u128,
    bound: u128,
    steps: &mut Steps<L>,
) -> bool
    requires { IsRising points.now }
    ensures above { result ≡ nat_lt bound
        (fold (λ m p. cond (nat_lt p.at until) (max m p.sum) m) first points.now) }
    ensures cost { steps.new ≤ steps.old + count_by (λ p. nat_lt p.at until) points.now + 1 }
{
    let mut most = first;
    for point in points {
        if most > bound {
            return true;
        }
        steps.tick();
        if until <= point.at {
            return false;
        }
        most = most.max(point.sum);
    }
    most > bound
}

/// Whether the greatest number of a window is above a bound. It ends at the first point whose number is.
pub fn exceeds<L: Ledger>(
    points: &[Point],
    from: u64,
    until: u64,
    bound: u128,
    steps: &mut Steps<L>,
) -> bool
    requires { IsRising points.now }
    ensures above { result ≡ nat_lt bound (greatest points.now from until) }
    ensures cost { (t : ℕ) × (2 ^ t ≤ 2 * length points.now + 1) × (steps.new ≤ steps.old + t + points_in from until points.now + 2) }
{
    if from >= until {
        return false;
    }
    let place = place_after(points, from, steps);
    steps.tick();
    let first = sum_before(points, place);
    let (_, behind) = points.split_at(place);
    rises_above(behind, until, first, bound, steps)
}
