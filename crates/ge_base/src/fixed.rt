//! Whole numbers of 128 bits. What would not fit is cut at 2^128 - 1, and a quotient is rounded down.

ghost use Rattle.std.specs.Prelude.{◌≡◌, ◌/◌, ◌^◌};
ghost use Rattle.ge_base.specs.Fixed.{cut_sum, cut_product, halved_by};

/// The sum, cut at 2^128 - 1.
pub fn sum_of(a: u128, b: u128) -> u128
    ensures { result ≡ cut_sum a b }
{
    a.saturating_add(b)
}

/// The product, cut at 2^128 - 1.
pub fn product_of(a: u128, b: u128) -> u128
    ensures { result ≡ cut_product a b }
{
    a.saturating_mul(b)
}

/// `a` divided by 2 `times` times, rounded down: nothing is left from 128 times on.
pub fn halved(a: u128, times: u64) -> u128
    ensures computed { result ≡ halved_by a times }
    ensures quotient { result ≡ a / 2 ^ times }
{
    if times < 128 { a >> times } else { 0 }
}
