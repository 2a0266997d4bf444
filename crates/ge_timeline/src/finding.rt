// The place of a moment among points.
ghost use Rattle.std.specs.Prelude.{◌≡◌, ℕ, ◌+◌, ◌-◌, ◌*◌, ◌^◌, ◌<◌, ◌≤◌, length, slice_index_or};
ghost use Rattle.ge_timeline.specs.StepFunctions.{IsRising};

use crate::counting::Steps;
use crate::points::Point;
use std::sync::ledger::Ledger;

// How many points are by a moment, with each look at a point counted.
pub(crate) fn place_after<L: Ledger>(points: &[Point], moment: u64, steps: &mut Steps<L>) -> usize
    requires { IsRising points.now }
    ensures within { result ≤ length points.now }
    ensures by { (k : ℕ) (d : Point) → k < result → (slice_index_or points.now k d).at ≤ moment }
    ensures later { (k : ℕ) (d : Point) → result ≤ k → k < length points.now
        → moment < (slice_index_or points.now k d).at }
    ensures since { steps.old ≤ steps.new }
    ensures cost { 2 ^ (steps.new - steps.old) ≤ 2 * length points.now + 1 }
{
    let mut low: usize = 0;
    let mut high: usize = points.len();
    while low < high {
        let middle = low + (high - low) / 2;
        steps.tick();
        if points[middle].at <= moment {
            low = middle + 1;
        } else {
            high = middle;
        }
    }
    low
}

// How many points are by a moment.
pub(crate) fn place_of(points: &[Point], moment: u64) -> usize
    requires { IsRising points.now }
    ensures within { result ≤ length points.now }
    ensures by { (k : ℕ) (d : Point) → k < result → (slice_index_or points.now k d).at ≤ moment }
    ensures later { (k : ℕ) (d : Point) → result ≤ k → k < length points.now
        → moment < (slice_index_or points.now k d).at }
{
    points.partition_point(|point| point.at <= moment)
}
