// The place of a booking among others.
ghost use Rattle.std.specs.Prelude.{◌≡◌, position};
ghost use Rattle.ge_timeline.specs.Taking.{same_booking};

use ge_rows::{Booking, List};

fn is_same_booking(a: &Booking, b: &Booking) -> bool
    ensures { result ≡ same_booking a.now b.now }
{
    a == b
}

// The place of the first booking that equals this one.
pub(crate) fn place_of(bookings: &List<Booking>, b: &Booking) -> Option<usize>
    ensures { result ≡ position (λ other. same_booking other b.now) bookings.now }
{
    bookings
        .items()
        .iter()
        .position(|other| is_same_booking(other, b))
}
