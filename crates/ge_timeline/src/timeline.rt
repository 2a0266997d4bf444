// What is booked, by limits.
ghost use Rattle.std.specs.Prelude.{◌≡◌, ℕ, ◌-◌, ◌<◌, nat_lt, length, remove, [], ◌∷◌, ◌++◌, IfOk, OnOk, OnErr};
ghost use Rattle.ge_model_place.specs.Bookings.{plain_sum};
ghost use Rattle.ge_model_place.specs.Running.{next_end_after as next_end};
ghost use Rattle.ge_timeline.specs.Looks.{changes, window_peak, LooksFew};
ghost use Rattle.ge_timeline.specs.Kept.{IsKept};
ghost use Rattle.ge_timeline.specs.Taking.{Takes};

use crate::adding::add_booking;
use crate::counting::Steps;
use crate::ends::{first_after, put_end, take_end};
use crate::index::Index;
use crate::looking::{exceeds, peak};
use crate::matching::place_of;
use crate::points::Point;
use crate::renewing::renew_all;
use ge_rows::{Booking, LimitId, List};
use slab::Slab;
use std::alloc::{AllocError, Global};
use std::collections::BTreeSet;
use std::marker::{Brand, Model};
use std::sync::ledger::{Blank, Ledger};

/// Bookings, with what they take of each limit from each moment on. Contracts see the list of the bookings.
#[derive(Drop)]
pub struct Timeline {
    alloc: Global,
    index: Index,
    functions: Slab<Vec<Point>>,
    ends: BTreeSet<u64>,
    bookings: List<Booking>,
}

impl Model for Timeline {
    ghost use Rattle.std.specs.Prelude.{List as Items};
    ghost use Rattle.ge_model_rows.specs.ScheduleRows.{Booking as Row};
    ghost use Rattle.ge_timeline.specs.Kept.{IsKept};

    ghost Value = { Items Row };

    ghost view = { λ t. t.bookings };

    ghost invariant = { λ t. IsKept t.index t.functions t.ends t.bookings };
}

// Adds a booking to what is kept of the bookings.
fn put_in(
    alloc: Global,
    index: &mut Index,
    functions: &mut Slab<Vec<Point>>,
    ends: &mut BTreeSet<u64>,
    bookings: &mut List<Booking>,
    b: Booking,
) -> Result<(), AllocError>
    requires { IsKept index.old functions.old ends.old bookings.old }
    ensures kept { OnOk result (IsKept index.new functions.new ends.new bookings.new) }
    ensures more { OnOk result (bookings.new ≡ bookings.old ++ b ∷ []) }
{
    add_booking(alloc, index, functions, bookings, &b)?;
    put_end(ends, &b)?;
    bookings.push(b)
}

// Takes the booking at a place out of what is kept of the bookings.
fn take_out(
    alloc: Global,
    index: &mut Index,
    functions: &mut Slab<Vec<Point>>,
    ends: &mut BTreeSet<u64>,
    bookings: &mut List<Booking>,
    place: usize,
) -> Result<(), AllocError>
    requires kept { IsKept index.old functions.old ends.old bookings.old }
    requires within { place < length bookings.old }
    ensures kept { OnOk result (IsKept index.new functions.new ends.new bookings.new) }
    ensures less { bookings.new ≡ remove bookings.old place }
{
    let b = bookings.remove(place);
    take_end(ends, bookings, &b);
    renew_all(alloc, index, functions, bookings, &b.demands)
}

// Nothing is booked any more.
fn give_up(
    alloc: Global,
    index: &mut Index,
    functions: &mut Slab<Vec<Point>>,
    ends: &mut BTreeSet<u64>,
    bookings: &mut List<Booking>,
)
    ensures kept { IsKept index.new functions.new ends.new bookings.new }
    ensures none { bookings.new ≡ [] }
{
    *index = Index::new(alloc);
    functions.clear();
    ends.clear();
    bookings.truncate(0);
}

// The greatest sum of a window, with a counter of its own.
fn peak_over<L: Ledger>(
    timeline: &Timeline,
    blank: Blank,
    limit: &LimitId,
    from: u64,
    until: u64,
) -> u128
    requires name { blank.name ≡ L.name }
    requires parts { blank.parts ≡ L.parts }
    requires one { blank.parts ≡ 1 }
    ensures { result ≡ window_peak timeline.now limit.now from until }
{
    let mut steps = Steps::<L>::open(blank);
    timeline.peak(limit, from, until, &mut steps)
}

// Whether the greatest sum of a window is above a bound, with a counter of its own.
fn exceeds_over<L: Ledger>(
    timeline: &Timeline,
    blank: Blank,
    limit: &LimitId,
    from: u64,
    until: u64,
    bound: u128,
) -> bool
    requires name { blank.name ≡ L.name }
    requires parts { blank.parts ≡ L.parts }
    requires one { blank.parts ≡ 1 }
    ensures { result ≡ nat_lt bound (window_peak timeline.now limit.now from until) }
{
    let mut steps = Steps::<L>::open(blank);
    timeline.exceeds(limit, from, until, bound, &mut steps)
}

impl Timeline {
    /// No bookings.
    pub fn new(alloc: Global) -> Result<Timeline, AllocError>
        ensures { IfOk result (λ t. t ≡ []) }
    {
        Ok(Timeline {
            alloc,
            index: Index::new(alloc),
            functions: Slab::new(alloc),
            ends: BTreeSet::new(alloc),
            bookings: List::new(alloc),
        })
    }

    /// What these bookings take of each limit.
    pub fn from_bookings(alloc: Global, bookings: List<Booking>) -> Result<Timeline, AllocError>
        ensures { IfOk result (λ t. t ≡ bookings) }
    {
        let mut timeline = Timeline::new(alloc)?;
        for b in bookings.into_vec() {
            timeline.add(b)?;
        }
        Ok(timeline)
    }

    /// One booking more. After want of memory the Timeline is given up: nothing is booked any more.
    pub fn add(&mut self, b: Booking) -> Result<(), AllocError>
        ensures more { OnOk result (self.new ≡ self.old ++ b ∷ []) }
        ensures given_up { OnErr result (self.new ≡ []) }
    {
        let (index, functions) = (&mut self.index, &mut self.functions);
        let done = put_in(
            self.alloc,
            index,
            functions,
            &mut self.ends,
            &mut self.bookings,
            b,
        );
        if done.is_err() {
            give_up(
                self.alloc,
                &mut self.index,
                &mut self.functions,
                &mut self.ends,
                &mut self.bookings,
            );
        }
        done
    }

    /// Takes the first booking out that equals this one; false where there is none. The sums of its limits are taken
    /// anew from the bookings that are left. After want of memory the Timeline is given up: nothing is booked any more.
    pub fn remove(&mut self, b: &Booking) -> Result<bool, AllocError>
        ensures taken { IfOk result (λ found. Takes b.now self.old self.new found) }
        ensures given_up { OnErr result (self.new ≡ []) }
    {
        let Some(place) = place_of(&self.bookings, b) else {
            return Ok(false);
        };
        let (index, functions) = (&mut self.index, &mut self.functions);
        match take_out(
            self.alloc,
            index,
            functions,
            &mut self.ends,
            &mut self.bookings,
            place,
        ) {
            Ok(()) => Ok(true),
            Err(fault) => {
                give_up(
                    self.alloc,
                    &mut self.index,
                    &mut self.functions,
                    &mut self.ends,
                    &mut self.bookings,
                );
                Err(fault)
            }
        }
    }

    /// The greatest sum of a limit at the moments from `from` until before `until`, 0 where there is none. It takes no
    /// memory. Each look at a point is counted in `steps`: where the sum of the limit changes at n different moments, k of
    /// them inside the window, there are at most t + k + 2, for a t with 2^t of at most 2 n + 1.
    pub fn peak<L: Ledger>(
        &self,
        limit: &LimitId,
        from: u64,
        until: u64,
        steps: &mut Steps<L>,
    ) -> u128
        ensures greatest { result ≡ window_peak self.now limit.now from until }
        ensures cost { LooksFew (changes self.now limit.now) from until (steps.new - steps.old) }
    {
        match self.index.number_of(limit) {
            Some(number) => match self.functions.get(number) {
                Some(points) => peak(points.as_slice(), from, until, steps),
                None => 0,
            },
            None => 0,
        }
    }

    /// The greatest sum of a limit at the moments from `from` until before `until`, 0 where there is none, with no look
    /// counted. It takes no memory.
    pub fn greatest(&self, limit: &LimitId, from: u64, until: u64) -> u128
        ensures { result ≡ window_peak self.now limit.now from until }
    {
        peak_over::<Brand>(self, Blank::new(1), limit, from, until)
    }

    /// Whether the greatest sum of a limit at the moments from `from` until before `until` is above a bound. It ends at the
    /// first such sum that is found, and takes no memory. Looks at points are counted in `steps`, no more than `peak` takes.
    pub fn exceeds<L: Ledger>(
        &self,
        limit: &LimitId,
        from: u64,
        until: u64,
        bound: u128,
        steps: &mut Steps<L>,
    ) -> bool
        ensures above { result ≡ nat_lt bound (window_peak self.now limit.now from until) }
        ensures cost { LooksFew (changes self.now limit.now) from until (steps.new - steps.old) }
    {
        match self.index.number_of(limit) {
            Some(number) => match self.functions.get(number) {
                Some(points) => exceeds(points.as_slice(), from, until, bound, steps),
                None => false,
            },
            None => false,
        }
    }

    /// Whether the greatest sum of a limit at the moments from `from` until before `until` is above a bound, with no look
    /// counted. It takes no memory.
    pub fn is_above(&self, limit: &LimitId, from: u64, until: u64, bound: u128) -> bool
        ensures { result ≡ nat_lt bound (window_peak self.now limit.now from until) }
    {
        exceeds_over::<Brand>(self, Blank::new(1), limit, from, until, bound)
    }

    /// The least moment after another at which a booking ends; one that never ends doesn't count. It takes no memory.
    pub fn next_end_after(&self, moment: u64) -> Option<u64>
        ensures { result ≡ next_end self.now moment }
    {
        first_after(&self.ends, moment)
    }
}
