// The moments at which bookings end.
ghost use Rattle.std.specs.Prelude.{◌≡◌, ◌++◌, [], ◌∷◌, List as Items, OnOk};
ghost use Rattle.ge_model_rows.specs.ScheduleRows.{Booking as Row};
ghost use Rattle.ge_model_place.specs.Running.{next_end_after};
ghost use Rattle.ge_timeline.specs.Taking.{HasEnds, IsTakenOut};
ghost use Rattle.ge_model_place.specs.Runs.{ends_at};

use ge_bookings::FOREVER;
use ge_rows::{Booking, List};
use std::alloc::AllocError;
use std::collections::BTreeSet;

// The first moment after another and before the end of all.
pub(crate) fn first_after(ends: &BTreeSet<u64>, moment: u64) -> Option<u64>
    ensures { (bookings : Items Row) → HasEnds ends.now bookings → result ≡ next_end_after bookings moment }
{
    if moment >= FOREVER {
        return None;
    }
    ends.range(moment + 1..FOREVER).next().copied()
}

// The end of one booking more.
pub(crate) fn put_end(ends: &mut BTreeSet<u64>, b: &Booking) -> Result<(), AllocError>
    ensures { OnOk result ((bookings : Items Row) → HasEnds ends.old bookings
        → HasEnds ends.new (bookings ++ b.now ∷ [])) }
{
    ends.insert(b.until)?;
    Ok(())
}

fn some_ends(bookings: &List<Booking>, moment: u64) -> bool
    ensures { result ≡ ends_at bookings.now moment }
{
    bookings.items().iter().any(|b| b.until == moment)
}

// The end of a booking that was taken out goes, unless one that is left ends then too.
pub(crate) fn take_end(ends: &mut BTreeSet<u64>, left: &List<Booking>, b: &Booking)
    ensures { (bookings : Items Row) → IsTakenOut b.now bookings left.now → HasEnds ends.old bookings
        → HasEnds ends.new left.now }
{
    if !some_ends(left, b.until) {
        ends.remove(&b.until);
    }
}
