// The sum of a limit at a moment.
ghost use Rattle.std.specs.Prelude.{◌≡◌, min};
ghost use Rattle.ge_model_place.specs.Bookings.{greatest_sum, asked_of, demand_on, is_within, taken_by, plain_sum};

use crate::limits::is_same_limit;
use ge_rows::{Booking, Demand, LimitId, List};

fn amount_for(limit: &LimitId, demand: &Demand) -> u128
    ensures { result ≡ asked_of limit.now demand.now }
{
    if is_same_limit(&demand.limit, limit) {
        demand.amount
    } else {
        0
    }
}

// The sum of the demands on a limit, cut at 2^128 - 1.
fn demanded(demands: &List<Demand>, limit: &LimitId) -> u128
    ensures { result ≡ min (demand_on demands.now limit.now) greatest_sum }
{
    let mut total: u128 = 0;
    for demand in demands.items() {
        total = total.saturating_add(amount_for(limit, demand));
    }
    total
}

fn holds_at(booking: &Booking, moment: u64) -> bool
    ensures { result ≡ is_within booking.now moment }
{
    booking.from <= moment && moment < booking.until
}

// What one booking takes of a limit at a moment, cut at 2^128 - 1.
fn amount_at(booking: &Booking, limit: &LimitId, moment: u64) -> u128
    ensures { result ≡ min (taken_by limit.now moment booking.now) greatest_sum }
{
    if holds_at(booking, moment) {
        demanded(&booking.demands, limit)
    } else {
        0
    }
}

/// The plain sum of a limit at a moment: of the demands on it of all bookings that hold then, from their first moment
/// until before their end. It is cut at 2^128 - 1.
pub fn sum_at(list: &List<Booking>, limit: &LimitId, moment: u64) -> u128
    ensures { result ≡ plain_sum list.now limit.now moment }
{
    let mut total: u128 = 0;
    for booking in list.items() {
        total = total.saturating_add(amount_at(booking, limit, moment));
    }
    total
}
