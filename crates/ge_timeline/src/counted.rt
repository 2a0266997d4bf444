// An amount is added in a span.
ghost use Rattle.std.specs.Prelude.{◌≡◌, ℕ, ◌+◌, ◌-◌, ◌<◌, ◌≤◌, ◌⊎◌, Bool, true, false, [], ◌∷◌, length, map, take, slice_index_or, IfOk, OnOk};
ghost use Rattle.ge_timeline.specs.StepFunctions.{IsRising, level, level_with, last_sum, raised, with_raised, nothing, HasMoments};

use crate::finding::place_of;
use crate::points::Point;
use std::alloc::AllocError;

// The number from the last of the first points on.
pub(crate) fn sum_before(points: &[Point], place: usize) -> u128
    requires { place ≤ length points.now }
    ensures { result ≡ last_sum (take place points.now) }
{
    if place == 0 { 0 } else { points[place - 1].sum }
}

fn raise_all(points: &mut [Point], amount: u128)
    ensures { points.new ≡ map (raised amount) points.old }
{
    for point in points.iter_mut() {
        point.sum = point.sum.saturating_add(amount);
    }
}

// Whether the point before a place is that of a moment.
fn is_met(points: &[Point], place: usize, moment: u64) -> bool
    requires { place ≤ length points.now }
    ensures met { result ≡ true → (0 < place) × ((slice_index_or points.now (place - 1) nothing).at ≡ moment) }
    ensures unmet { result ≡ false → (place ≡ 0) ⊎ ((slice_index_or points.now (place - 1) nothing).at ≡ moment → ⊥) }
{
    place > 0 && points[place - 1].at == moment
}

// The amount is added to the points of a part.
fn raise_part(points: &mut [Point], first: usize, end: usize, amount: u128)
    requires order { first ≤ end }
    requires within { end ≤ length points.old }
    ensures { points.new ≡ with_raised amount first end points.old }
{
    raise_all(&mut points[first..end], amount);
}

// The place of the point at a moment, which is put in where there is none.
fn point_at(points: &mut Vec<Point>, moment: u64) -> Result<usize, AllocError>
    requires { IsRising points.old.items }
    ensures rising { IsRising points.new.items }
    ensures level { OnOk result ((t : ℕ) → level points.new.items t ≡ level points.old.items t) }
    ensures moments { OnOk result (HasMoments points.old.items (moment ∷ []) points.new.items) }
    ensures within { IfOk result (λ place. place < length points.new.items) }
    ensures here { IfOk result (λ place. (d : Point) → (slice_index_or points.new.items place d).at ≡ moment) }
    ensures before { IfOk result (λ place. (k : ℕ) (d : Point) → k < length points.old.items → (slice_index_or points.old.items k d).at < moment → k < place) }
    ensures front { IfOk result (λ place. take place points.new.items ≡ take place points.old.items) }
{
    let place = place_of(points.as_slice(), moment);
    if is_met(points.as_slice(), place, moment) {
        return Ok(place - 1);
    }
    let sum = sum_before(points.as_slice(), place);
    points.insert(place, Point { at: moment, sum })?;
    Ok(place)
}

/// Adds an amount from one moment on until before another. After want of memory the points are given up.
pub fn add(points: &mut Vec<Point>, from: u64, until: u64, amount: u128) -> Result<(), AllocError>
    requires rising { IsRising points.old.items }
    requires some { from < until }
    ensures rising { IsRising points.new.items }
    ensures level { OnOk result ((t : ℕ) → level points.new.items t ≡ level_with from until amount t (level points.old.items t)) }
    ensures moments { OnOk result (HasMoments points.old.items (from ∷ until ∷ []) points.new.items) }
{
    let first = point_at(points, from)?;
    let end = point_at(points, until)?;
    raise_part(points.as_mut_slice(), first, end, amount);
    Ok(())
}
