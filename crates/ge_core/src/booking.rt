// The plan of qrsub.
ghost use Rattle.std.specs.Prelude.{◌≡◌, ◌++◌, ◌||◌, ◌^◌, ◌-◌, [], IfOk, OnOk, codes, decimal, min, nat_le, nat_lt};
ghost use Rattle.std.specs.Option.{unwrap_or};
ghost use Rattle.ge_limits.specs.Limits as limit;
ghost use Rattle.ge_model_core.specs.Booking as booking;
ghost use Rattle.ge_model_core.specs.OptionValues as values;
ghost use Rattle.ge_model_place.specs.Advances.{advance_grants};
ghost use Rattle.ge_core.specs.Booked.{asked_with, no_time_is, plan_with};

use ge_answers::{accept, refuse};
use ge_base::Refusal;
use ge_complex::{amount_in, value_of_text};
use ge_job_options::{no_request, number_given, option_word, text_given};
use ge_limits::{ADVANCE_RESERVATIONS, LAST_NUMBER, MOMENTS};
use ge_opening::instance_order;
use ge_pieces::note;
use ge_place::place_job;
use ge_request::request_over;
use ge_rows::{
    Advance, Change, Cluster, Event, Grant, Kind, List, Options, Own, Planned, Request, Text, Twin,
};
use ge_site::expand;
use ge_timeline::Timeline;
use ge_windows::{base_bookings, stand_in};
use std::alloc::{AllocError, Global};

fn begins_at(e: &Event, options: &Options) -> u128
    ensures { result ≡ booking.booked_from e.now options.now.items }
{
    number_given(options, b"-a").unwrap_or(u128::from(e.moment))
}

fn seconds(alloc: Global, options: &Options) -> Result<u64, AllocError>
    ensures { IfOk result (λ seconds. seconds ≡ booking.seconds_given options.now.items) }
{
    let Some(word) = option_word(options, b"-d") else {
        return Ok(0);
    };
    match value_of_text(alloc, Kind::Time, word)? {
        Some(value) => Ok(amount_in(&value)),
        None => Ok(0),
    }
}

fn asked_name(alloc: Global, options: &Options) -> Result<Text, AllocError>
    ensures { IfOk result (λ name. name ≡ unwrap_or (values.option_word options.now.items
        (codes "-N")) (codes "ar")) }
{
    match text_given(alloc, options, b"-N")? {
        Some(name) => Ok(name),
        None => Text::from_bytes(alloc, b"ar"),
    }
}

// When a reservation ends, cut at 2^128 - 1.
fn ends_at(alloc: Global, e: &Event, options: &Options) -> Result<u128, AllocError>
    ensures { IfOk result (λ end. end ≡ min (booking.asked_until e.now options.now.items)
        (2 ^ 128 - 1)) }
{
    match number_given(options, b"-e") {
        Some(end) => Ok(end),
        None => {
            let seconds = seconds(alloc, options)?;
            Ok(begins_at(e, options).saturating_add(u128::from(seconds)))
        }
    }
}

// Whether a reservation begins before now, ends where it begins or before, or not before the last moment.
fn is_no_time(now: u64, from: u128, until: u128) -> bool
    ensures { result ≡ (nat_lt from now || nat_le until from || nat_le limit.moments until) }
{
    from < u128::from(now) || until <= from || until >= u128::from(MOMENTS)
}

fn has_no_time(alloc: Global, e: &Event, options: &Options) -> Result<bool, AllocError>
    ensures { IfOk result (λ none. none ≡ no_time_is e.now options.now.items) }
{
    let until = ends_at(alloc, e, options)?;
    Ok(is_no_time(e.moment, begins_at(e, options), until))
}

// When a reservation begins and ends, as its row has room for them: wider moments are refused before.
fn moments_in_row(alloc: Global, e: &Event, options: &Options) -> Result<(u64, u64), AllocError>
    ensures { IfOk result (λ moments. moments ≡ (
      booking.booked_from e.now options.now.items,
      booking.asked_until e.now options.now.items,
    )) }
{
    let until = ends_at(alloc, e, options)?;
    match (u64::try_from(begins_at(e, options)), u64::try_from(until)) {
        (Ok(from), Ok(until)) => Ok((from, until)),
        _ => Err(AllocError),
    }
}

fn is_booked_out(c: &Cluster) -> bool
    ensures { result ≡ booking.is_booked_out c.now }
{
    c.advances.len() >= ADVANCE_RESERVATIONS || c.next_advance > LAST_NUMBER
}

#[tactic(auto, unfolding(ge_model_place::specs::Advances::advance_grants))]
fn grants_for(
    alloc: Global,
    c: &Cluster,
    now: u64,
    asked: &Advance,
) -> Result<Option<List<Grant>>, AllocError>
    ensures { IfOk result (λ grants. grants ≡ advance_grants c.now now asked.now) }
{
    let groups = expand(alloc, c)?;
    let order = instance_order(alloc, c, &groups)?;
    let bookings = base_bookings(alloc, c, &groups, now)?;
    let booked = Timeline::from_bookings(alloc, bookings)?;
    let job = stand_in(alloc, asked)?;
    place_job(alloc, c, &groups, order.items(), &booked, &job, asked.from)
}

fn granted_line(alloc: Global, number: u32) -> Result<Text, AllocError>
    ensures { IfOk result (λ line. line ≡ booking.granted_line number) }
{
    let mut line = Text::from_bytes(alloc, b"Your advance reservation ")?;
    line.append(number.to_string(alloc)?.as_bytes())?;
    line.append(b" has been granted")?;
    Ok(line)
}

fn asked_for(
    alloc: Global,
    e: &Event,
    options: &Options,
    request: Request,
) -> Result<Advance, AllocError>
    ensures { IfOk result (λ asked. asked ≡ asked_with e.now options.now.items request) }
{
    let (from, until) = moments_in_row(alloc, e, options)?;
    Ok(Advance {
        name: asked_name(alloc, options)?,
        owner: e.user.twin(alloc)?,
        group: e.group.twin(alloc)?,
        from,
        until,
        request,
        grants: List::new(alloc),
    })
}

fn book(alloc: Global, c: &Cluster, e: &Event, mut asked: Advance) -> Result<Planned, AllocError>
    ensures { IfOk result (λ planned. planned ≡ booking.booked c.now e.now asked
        (advance_grants c.now e.now.moment asked)) }
{
    let Some(grants) = grants_for(alloc, c, e.moment, &asked)? else {
        return refuse(alloc, Refusal::Limit);
    };
    asked.grants = grants;
    let line = granted_line(alloc, c.next_advance)?;
    accept(alloc, e, Change::Book(Own::new(alloc, asked)?), line)
}

fn book_or_refuse(
    alloc: Global,
    c: &Cluster,
    e: &Event,
    options: &Options,
    request: Request,
    faults: Option<Refusal>,
) -> Result<Planned, AllocError>
    ensures { IfOk result (λ planned. planned ≡ plan_with c.now e.now
        (asked_with e.now options.now.items request) faults) }
{
    match faults {
        Some(refusal) => refuse(alloc, refusal),
        None => {
            let asked = asked_for(alloc, e, options, request)?;
            book(alloc, c, e, asked)
        }
    }
}

/// The plan of qrsub: what `-l`, `-q` and `-pe` refuse; BadValue for moments that are none; Limit where there are as many
/// reservations as may be, where numbers are used up, or where there is no placement.
pub(crate) fn plan_booking(
    alloc: Global,
    c: &Cluster,
    e: &Event,
    options: &Options,
) -> Result<Planned, AllocError>
    ensures { IfOk result (λ planned. planned ≡ booking.book_plan c.now e.now options.now.items) }
{
    let mut faults = None;
    let request = request_over(alloc, c, options, &no_request(alloc), &mut faults)?;
    let no_time = has_no_time(alloc, e, options)?;
    note(&mut faults, no_time, Refusal::BadValue);
    note(&mut faults, is_booked_out(c), Refusal::Limit);
    book_or_refuse(alloc, c, e, options, request, faults)
}
