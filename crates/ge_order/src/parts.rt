// The parts of a priority, in millionths (sge_priority, sched_conf).
ghost use Rattle.std.specs.Prelude.{◌≡◌};
ghost use Rattle.ge_base.specs.Fixed.{cut_product};
ghost use Rattle.ge_model_order.specs.Amounts as amounts;
ghost use Rattle.ge_model_order.specs.Priority as priorities;

use ge_base::{product_of, sum_of};
use ge_rows::Sched;

/// A whole, in millionths.
const WHOLE: u128 = 1_000_000;

/// An amount, cut at the end of 64 bits.
pub(crate) fn cut_at_64(amount: u128) -> u64
    ensures { result ≡ amounts.cut_at_64 amount }
{
    u64::try_from(amount).unwrap_or(u64::MAX)
}

// What of an amount falls to a part of a whole; nothing where the whole is nothing.
fn portion(amount: u128, part: u128, whole: u128) -> u128
    ensures { result ≡ amounts.portion amount part whole }
{
    if whole == 0 {
        0
    } else {
        product_of(amount, part) / whole
    }
}

// How far a priority lies above the least one, -1023.
fn above_lowest(priority: i32) -> u128
    ensures { result ≡ priorities.above_lowest priority }
{
    let distance = u128::from(priority.unsigned_abs());
    if priority < 0 {
        1023_u128.saturating_sub(distance)
    } else {
        distance + 1023
    }
}

/// The priority of `-p` as a part of all 2047 steps.
pub(crate) fn priority_part(priority: i32) -> u64
    ensures { result ≡ priorities.priority_part priority }
{
    cut_at_64(product_of(above_lowest(priority), WHOLE) / 2047)
}

/// An urgency as a part of what lies between the least and the greatest, one half where all are equal.
pub(crate) fn urgency_part(low: u128, high: u128, urgency: u128) -> u64
    ensures { result ≡ priorities.urgency_part low high urgency }
{
    if low == high {
        500_000
    } else {
        cut_at_64(portion(urgency.saturating_sub(low), WHOLE, high.saturating_sub(low)))
    }
}

/// Tickets as a part of the greatest.
pub(crate) fn tickets_part(most: u64, tickets: u64) -> u64
    ensures { result ≡ priorities.tickets_part most tickets }
{
    cut_at_64(portion(u128::from(tickets), WHOLE, u128::from(most)))
}

fn weighed(weight: u64, part: u64) -> u128
    ensures { result ≡ cut_product weight part }
{
    product_of(u128::from(weight), u128::from(part))
}

/// The three parts, weighted: of `-p`, of urgency and of tickets.
pub(crate) fn weighted_sum(sched: &Sched, np: u64, nu: u64, nt: u64) -> u128
    ensures { result ≡ priorities.weighted_sum sched.now np nu nt }
{
    sum_of(
        sum_of(weighed(sched.w_priority, np), weighed(sched.w_urgency, nu)),
        weighed(sched.w_ticket, nt),
    )
}
