// Windows, and the greatest sum of a limit in one.
ghost use Rattle.std.specs.Prelude.{◌≡◌};
ghost use Rattle.ge_model_place.specs.Bookings.{forever, window_end, begins_inside, raised, peak as greatest};

use crate::sums::sum_at;
use ge_rows::{Booking, INFINITY, LimitId, List};

/// The moment that no booking passes, in seconds.
pub const FOREVER: u64 = 9_223_372_036_854_775_808;

/// Where a window from a moment ends that lasts so many seconds, cut at [`FOREVER`]. A duration of INFINITY ends
/// there: sge_types, time values.
pub fn end_of_window(from: u64, duration: u64) -> u64
    ensures { result ≡ window_end from duration }
{
    if duration == INFINITY {
        FOREVER
    } else {
        from.saturating_add(duration).min(FOREVER)
    }
}

fn begins_within(from: u64, until: u64, booking: &Booking) -> bool
    ensures { result ≡ begins_inside from until booking.now }
{
    from < booking.from && booking.from < until
}

// The greatest sum so far, with the sum where a booking begins inside the window.
fn raise(
    list: &List<Booking>,
    limit: &LimitId,
    from: u64,
    until: u64,
    most: u128,
    booking: &Booking,
) -> u128
    ensures { result ≡ raised list.now limit.now from until most booking.now }
{
    if begins_within(from, until, booking) {
        most.max(sum_at(list, limit, booking.from))
    } else {
        most
    }
}

/// The greatest plain sum of a limit at the moments from `from` until before `until`, and at `from` in any case.
pub fn peak(list: &List<Booking>, limit: &LimitId, from: u64, until: u64) -> u128
    ensures { result ≡ greatest list.now limit.now from until }
{
    let mut most = sum_at(list, limit, from);
    for booking in list.items() {
        most = raise(list, limit, from, until, most, booking);
    }
    most
}
