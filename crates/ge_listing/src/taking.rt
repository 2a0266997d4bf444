//! The slots that are taken at instances.

ghost use Rattle.std.specs.Prelude.{◌≡◌, cond, sum_by, IfOk, OnOk};
ghost use Rattle.std.specs.Option.{option_copied};
ghost use Rattle.ge_base.specs.Fixed.{cut_sum};
ghost use Rattle.ge_model_place.specs.Bookings.{asked_of, is_within, plain_sum, same_instance, taken_by};
ghost use Rattle.ge_model_rows.specs.HostRows.{InstanceId as At};
ghost use Rattle.ge_listing.specs.Taken.{counted_instance, slots_of, slots_taken};

use ge_base::sum_of;
use ge_pieces::is_word;
use ge_rows::{Booking, Demand, InstanceId, LimitId, Twin};
use std::alloc::{AllocError, Global};
use std::collections::BTreeMap;

/// The slots that are taken at each instance where some are, cut at 2^128 - 1.
pub(crate) type Taken = BTreeMap<InstanceId, u128>;

/// The slots that are taken at an instance.
pub(crate) fn taken_at(taken: &Taken, at: &InstanceId) -> u128
    ensures { result ≡ slots_taken taken.now.entries at.now }
{
    match taken.get(at) {
        None => 0,
        Some(slots) => *slots,
    }
}

// More slots at an instance.
fn add(alloc: Global, taken: &mut Taken, at: &InstanceId, slots: u128) -> Result<(), AllocError>
    ensures { OnOk result ((other : At) → slots_taken taken.new.entries other
        ≡ cond (same_instance at.now other) (cut_sum (slots_taken taken.old.entries other) slots)
        (slots_taken taken.old.entries other)) }
{
    let all = sum_of(taken_at(taken, at), slots);
    let key = at.twin(alloc)?;
    taken.insert(key, all)?;
    Ok(())
}

// The instance whose slots a limit counts, if it counts those of one.
fn instance_in(limit: &LimitId) -> Option<&InstanceId>
    ensures { option_copied result ≡ counted_instance limit.now }
{
    match limit {
        LimitId::Instance(at, name) => {
            if is_word(name.bytes(), b"slots") {
                Some(at)
            } else {
                None
            }
        }
        LimitId::Host(_, _) => None,
        LimitId::Global(_) => None,
        LimitId::Pe(_) => None,
        LimitId::Quota(_) => None,
        LimitId::Advance(_, _) => None,
    }
}

// What a demand takes, where it is one of the slots of an instance.
fn add_demand(alloc: Global, taken: &mut Taken, demand: &Demand) -> Result<(), AllocError>
    ensures { OnOk result ((at : At) → slots_taken taken.new.entries at
        ≡ cut_sum (slots_taken taken.old.entries at) (asked_of (slots_of at) demand.now)) }
{
    match instance_in(&demand.limit) {
        None => Ok(()),
        Some(at) => {
            add(alloc, taken, at, demand.amount)?;
            Ok(())
        }
    }
}

fn add_demands(alloc: Global, taken: &mut Taken, demands: &[Demand]) -> Result<(), AllocError>
    ensures { OnOk result ((at : At) → slots_taken taken.new.entries at
        ≡ cut_sum (slots_taken taken.old.entries at)
        (sum_by (asked_of (slots_of at)) demands.now)) }
{
    for demand in demands {
        add_demand(alloc, taken, demand)?;
    }
    Ok(())
}

fn holds_at(booking: &Booking, moment: u64) -> bool
    ensures { result ≡ is_within booking.now moment }
{
    booking.from <= moment && moment < booking.until
}

// What a booking takes at a moment.
fn add_booking(
    alloc: Global,
    taken: &mut Taken,
    booking: &Booking,
    now: u64,
) -> Result<(), AllocError>
    ensures { OnOk result ((at : At) → slots_taken taken.new.entries at
        ≡ cut_sum (slots_taken taken.old.entries at) (taken_by (slots_of at) now booking.now)) }
{
    if !holds_at(booking, now) {
        return Ok(());
    }
    add_demands(alloc, taken, booking.demands.items())?;
    Ok(())
}

/// The slots that bookings take at each instance at a moment.
pub(crate) fn taken_by_all(
    alloc: Global,
    bookings: &[Booking],
    now: u64,
) -> Result<Taken, AllocError>
    ensures { IfOk result (λ taken. (at : At) → slots_taken taken.entries at
        ≡ plain_sum bookings.now (slots_of at) now) }
{
    let mut taken = BTreeMap::new(alloc);
    for booking in bookings {
        add_booking(alloc, &mut taken, booking, now)?;
    }
    Ok(taken)
}
