// The sums of the weights of rows.
ghost use Rattle.std.specs.Prelude.{◌≡◌, ℕ, ◌+◌, ◌-◌, ◌^◌, min, IfSome};
ghost use Rattle.ge_job_index.specs.Kept.{AreSums};

/// Two sums. They count only where `whole` is true: a sum that doesn't fit ends it.
#[derive(Drop)]
pub(crate) struct Sums {
    pub(crate) whole: bool,
    pub(crate) first: u64,
    pub(crate) second: u64,
}

// A sum with one more weight, where it fits.
fn more(sum: u64, weight: u128) -> Option<u64>
    ensures { IfSome result (λ n. n ≡ sum + weight) }
{
    match u64::try_from(weight) {
        Ok(weight) => sum.checked_add(weight),
        Err(_wide) => None,
    }
}

// A sum with one weight less, at least 0.
fn less(sum: u64, weight: u128) -> u64
    ensures { result ≡ sum - weight }
{
    match u64::try_from(weight) {
        Ok(weight) => sum.saturating_sub(weight),
        Err(_wide) => 0,
    }
}

/// The weights of a row that comes.
pub(crate) fn add(sums: &mut Sums, weights: (u128, u128))
    ensures { (a b : ℕ) → AreSums sums.old.whole sums.old.first sums.old.second a b
        → AreSums sums.new.whole sums.new.first sums.new.second (a + weights.0) (b + weights.1) }
{
    match (more(sums.first, weights.0), more(sums.second, weights.1)) {
        (Some(first), Some(second)) => {
            sums.first = first;
            sums.second = second;
        }
        _ => sums.whole = false,
    }
}

/// The weights of a row that goes.
pub(crate) fn take(sums: &mut Sums, weights: (u128, u128))
    ensures { (a b : ℕ) → AreSums sums.old.whole sums.old.first sums.old.second a b
        → AreSums sums.new.whole sums.new.first sums.new.second (a - weights.0) (b - weights.1) }
{
    sums.first = less(sums.first, weights.0);
    sums.second = less(sums.second, weights.1);
}

/// Two sums that fit, as they are: a cut changes neither.
pub(crate) fn uncut(first: u64, second: u64) -> (u128, u128)
    ensures first { result.0 ≡ min first (2 ^ 128 - 1) }
    ensures second { result.1 ≡ min second (2 ^ 128 - 1) }
{
    (u128::from(first), u128::from(second))
}
