//! The weights of nodes, and how tickets are divided.

ghost use Rattle.std.specs.Prelude.{◌≡◌, ◌/◌, max};
ghost use Rattle.ge_base.specs.Fixed.{cut_sum, cut_product};
ghost use Rattle.ge_model_order.specs.Amounts.{portion, equal_part, cut_at_64};
ghost use Rattle.ge_model_order.specs.Share.{weight};

use ge_base::{product_of, sum_of};

/// What of an amount falls to a part of a whole.
pub(crate) fn part_of(amount: u128, part: u128, whole: u128) -> u128
    ensures { result ≡ portion amount part whole }
{
    if whole == 0 {
        0
    } else {
        product_of(amount, part) / whole
    }
}

/// The weight of a child by its shares, its usage and the usage of all children of its parent.
pub(crate) fn weigh(shares: u64, usage: u128, all: u128) -> u128
    ensures { result ≡ weight shares usage all }
{
    let part = product_of(usage, 1_000_000) / all.max(1);
    let low = sum_of(10_000, part);
    if low == 0 {
        0
    } else {
        product_of(u128::from(shares), 1_000_000_000_000) / low
    }
}

/// What a leaf with these tickets gives each of its jobs.
pub(crate) fn give(tickets: u128, jobs: u128) -> u64
    ensures { result ≡ cut_at_64 (equal_part tickets jobs) }
{
    (tickets / jobs.max(1)).min(18_446_744_073_709_551_615) as u64
}
