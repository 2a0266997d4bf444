// What is left at each instance, so that one which has too little is passed by before anything else is asked of it.
ghost use Rattle.std.specs.Prelude.{◌≡◌, ℕ, ◌<◌, ◌++◌, ◌∷◌, [], None, cond, length, map, filter, slice_index_or, IfOk, OnOk};
ghost use Rattle.ge_model_place.specs.Bookings.{same_instance};
ghost use Rattle.ge_model_rows.specs.Complexes.{is_consumable as is_consumed};
ghost use Rattle.ge_model_place.specs.Limits.{consumables, resource_of};
ghost use Rattle.ge_model_rows.specs.ScheduleRows.{Host};
ghost use Rattle.ge_attempts.specs.Amounts.{number_in};
ghost use Rattle.ge_attempts.specs.Rests.{rest_of as left_of, rests_at as left_at, left_first, comes_before, is_full as full_at, AreOpen, is_of, asks_more as more_than, is_short as short_of, is_short_now as short_now, are_short as all_short_of, left_then as rest_then, is_short_then as short_then, are_short_then as all_short_then, AreLeft};
ghost use Rattle.ge_attempts.specs.Vacant.{slots_of};

use crate::amounts::{LeastAmounts, least_amounts, least_in};
use crate::closing::{is_closed, names_asked_by_all};
use crate::holding::{HostNumbers, Hosts, hosts_of, number_of};
use crate::setting::Setting;
use crate::vacancy::{goes_on, slots_at};
use ge_bookings::is_same_name;
use ge_complex::is_consumable;
use ge_demands::{Counted, capacity};
use ge_rows::{HostRow, InstanceId, LimitId, List, Text, Twin, twins3};
use ge_site::global_host;
use ge_timeline::Timeline;
use std::alloc::{AllocError, Global};

/// What is left of a limit at an instance.
#[derive(Drop)]
pub struct Rest {
    /// The limit.
    pub limit: LimitId,
    /// Its resource.
    pub resource: Text,
    /// How much of it there is.
    pub there: u128,
    /// No more is left now.
    pub most: u128,
    /// No task of a job of the table that counts for it takes less.
    pub least: u128,
}

/// What is left at an instance.
#[derive(Drop)]
pub struct Left {
    /// The number of its host, which all instances on that have.
    pub host: usize,
    /// Whether it is closed to each job of the table.
    pub closed: bool,
    /// Of each limit.
    pub rests: List<Rest>,
    /// The first moment from which on slots are kept there for a task, in seconds.
    pub kept_from: Option<u64>,
    /// A moment at which too little is left for any job, not before that of the run, in seconds.
    pub blocked: Option<u64>,
}

/// What is left at each instance, and the places in the order at which something may be left.
#[derive(Drop)]
pub struct Room {
    /// At each instance.
    pub lefts: List<Left>,
    /// The places, which rise.
    pub vacant: List<usize>,
    /// At each place a moment, if one is known, at which too little is left there for any job, in seconds.
    pub later: List<Option<u64>>,
    /// Where each instance is.
    pub hosts: Hosts,
    /// A moment before which the window of no job's task ends that starts now, in seconds: found out once slots are kept.
    pub until: Option<u64>,
}

fn rest_of(
    alloc: Global,
    at: &Setting<'_>,
    booked: &Timeline,
    limit: LimitId,
    resource: Text,
    least: u128,
) -> Result<Rest, AllocError>
    requires { resource ≡ resource_of limit }
    ensures { IfOk result (λ rest. rest
        ≡ left_of at.now.cluster.now at.now.groups.now at.now.moment booked.now limit least) }
{
    let there = capacity(alloc, at.cluster, at.groups, &limit)?;
    let taken = booked.greatest(&limit, at.moment, at.moment.saturating_add(1));
    Ok(Rest {
        limit,
        resource,
        there,
        most: there.saturating_sub(taken),
        least,
    })
}

fn slots_left(
    alloc: Global,
    at: &Setting<'_>,
    booked: &Timeline,
    instance: &InstanceId,
) -> Result<Rest, AllocError>
    ensures { IfOk result (λ rest. rest ≡ left_of at.now.cluster.now at.now.groups.now
        at.now.moment booked.now (slots_of instance.now) 1) }
{
    let limit = slots_at(alloc, instance)?;
    let resource = Text::from_bytes(alloc, b"slots")?;
    let rest = rest_of(alloc, at, booked, limit, resource, 1)?;
    Ok(rest)
}

fn value_left(
    alloc: Global,
    at: &Setting<'_>,
    booked: &Timeline,
    amounts: &LeastAmounts,
    host: &Text,
    name: &Text,
) -> Result<Rest, AllocError>
    ensures { IfOk result (λ rest. rest ≡ left_of at.now.cluster.now at.now.groups.now
        at.now.moment booked.now (Host host.now name.now) (number_in amounts.now name.now)) }
{
    let least = u128::from(least_in(amounts, name));
    let (host, name, resource) = twins3(alloc, host, name, name)?;
    let limit = LimitId::Host(host, name);
    let rest = rest_of(alloc, at, booked, limit, resource, least)?;
    Ok(rest)
}

fn add_value(
    alloc: Global,
    at: &Setting<'_>,
    booked: &Timeline,
    amounts: &LeastAmounts,
    host: &Text,
    rests: &mut List<Rest>,
    name: &Text,
) -> Result<(), AllocError>
    ensures { OnOk result (rests.new ≡ rests.old ++ map (λ name. left_of at.now.cluster.now
        at.now.groups.now at.now.moment booked.now (Host host.now name)
        (number_in amounts.now name)) (filter (is_consumed at.now.cluster.now) (name.now ∷ []))) }
{
    if !is_consumable(at.cluster, name) {
        return Ok(());
    }
    let rest = value_left(alloc, at, booked, amounts, host, name)?;
    rests.push(rest)
}

fn add_values(
    alloc: Global,
    at: &Setting<'_>,
    booked: &Timeline,
    amounts: &LeastAmounts,
    host: &Text,
    rests: &mut List<Rest>,
    row: &HostRow,
) -> Result<(), AllocError>
    ensures { OnOk result (rests.new ≡ rests.old ++ map (λ name. left_of at.now.cluster.now
        at.now.groups.now at.now.moment booked.now (Host host.now name)
        (number_in amounts.now name)) (consumables at.now.cluster.now row.now.values)) }
{
    for name in row.values.keys() {
        add_value(alloc, at, booked, amounts, host, rests, name)?;
    }
    Ok(())
}

fn rests_at(
    alloc: Global,
    at: &Setting<'_>,
    booked: &Timeline,
    amounts: &LeastAmounts,
    instance: &InstanceId,
) -> Result<List<Rest>, AllocError>
    ensures { IfOk result (λ rests. rests ≡ left_at at.now.cluster.now at.now.groups.now
        at.now.moment booked.now amounts.now instance.now) }
{
    let mut rests = List::new(alloc);
    let slots = slots_left(alloc, at, booked, instance)?;
    rests.push(slots)?;
    let Some(row) = at.cluster.hosts.get(&instance.host) else {
        return Ok(rests);
    };
    add_values(alloc, at, booked, amounts, &instance.host, &mut rests, row)?;
    Ok(rests)
}

fn lefts_of_all(
    alloc: Global,
    at: &Setting<'_>,
    booked: &Timeline,
    amounts: &LeastAmounts,
    hosts: &HostNumbers,
    names: &[Text],
) -> Result<List<Left>, AllocError>
    ensures { IfOk result (λ lefts. lefts
        ≡ map (left_first at.now.cluster.now at.now.groups.now at.now.moment booked.now
        amounts.now hosts.now names.now) at.now.order.now) }
{
    let global = global_host(alloc, at.cluster)?;
    let mut lefts = List::new(alloc);
    for instance in at.order {
        let rests = rests_at(alloc, at, booked, amounts, instance)?;
        lefts.push(Left {
            host: number_of(hosts, &instance.host),
            closed: is_closed(at, global, names, instance),
            rests,
            kept_from: None,
            blocked: None,
        })?;
    }
    Ok(lefts)
}

/// Whether a moment is known that comes before another.
pub fn is_before(moment: Option<u64>, until: Option<u64>) -> bool
    ensures { result ≡ comes_before moment until }
{
    match (moment, until) {
        (Some(moment), Some(until)) => moment < until,
        _ => false,
    }
}

/// Whether no task of a job of the table can take a slot at an instance now: that is closed to all, too little is left, or too
/// little will be before any window ends.
pub(crate) fn is_full(at: &Setting<'_>, until: Option<u64>, left: &Left) -> bool
    ensures { result ≡ full_at at.now.cluster.now at.now.moment until left.now }
{
    goes_on(at.cluster, at.moment)
        && (left.closed || is_before(left.blocked, until) || are_short(&[], left.rests.items()))
}

fn add_vacant(
    at: &Setting<'_>,
    vacant: &mut List<usize>,
    place: usize,
    left: &Left,
) -> Result<(), AllocError>
    ensures { OnOk result (vacant.new ≡ vacant.old
        ++ cond (full_at at.now.cluster.now at.now.moment None left.now) [] (place ∷ [])) }
{
    if is_full(at, None, left) {
        return Ok(());
    }
    vacant.push(place)
}

fn vacant_places(alloc: Global, at: &Setting<'_>, lefts: &[Left]) -> Result<List<usize>, AllocError>
    ensures { IfOk result (λ vacant. AreOpen (full_at at.now.cluster.now at.now.moment None)
        lefts.now (length lefts.now) 0 vacant) }
{
    let mut vacant = List::new(alloc);
    let mut place = 0;
    while place < lefts.len() {
        add_vacant(at, &mut vacant, place, &lefts[place])?;
        place += 1;
    }
    Ok(vacant)
}

// No moment is known of any place.
fn none_later(alloc: Global, places: usize) -> Result<List<Option<u64>>, AllocError>
    ensures long { IfOk result (λ later. length later ≡ places) }
    ensures none { IfOk result (λ later. (k : ℕ) → k < places
        → slice_index_or later k None ≡ None) }
{
    let later = vec![in alloc; None; places]?;
    Ok(List::from_vec(later))
}

/// What is left at each instance now.
pub fn room_at(alloc: Global, at: &Setting<'_>, booked: &Timeline) -> Result<Room, AllocError>
    ensures { IfOk result (λ room. AreLeft at.now.cluster.now at.now.groups.now at.now.moment
        booked.now at.now.order.now room) }
{
    let hosts = hosts_of(alloc, at.order)?;
    let names = names_asked_by_all(alloc, at)?;
    let amounts = least_amounts(alloc, at, names.items())?;
    let lefts = lefts_of_all(alloc, at, booked, &amounts, &hosts.numbers, names.items())?;
    let vacant = vacant_places(alloc, at, lefts.items())?;
    let later = none_later(alloc, lefts.len())?;
    Ok(Room {
        lefts,
        vacant,
        later,
        hosts,
        until: None,
    })
}

/// Whether a limit counts a resource.
pub(crate) fn is_of_resource(limit: &LimitId, resource: &Text) -> bool
    ensures { result ≡ is_of limit.now resource.now }
{
    match limit {
        LimitId::Instance(_, name) => is_same_name(name, resource),
        LimitId::Host(_, name) => is_same_name(name, resource),
        LimitId::Global(name) => is_same_name(name, resource),
        LimitId::Pe(_) => false,
        LimitId::Quota(key) => is_same_name(&key.resource, resource),
        LimitId::Advance(_, _) => false,
    }
}

fn asks_more(resource: &Text, most: u128, counted: &Counted) -> bool
    ensures { result ≡ more_than resource.now most counted.now }
{
    most < u128::from(counted.amount) && is_of_resource(&counted.limit, resource)
}

/// Whether more is asked of a resource than is left.
pub(crate) fn is_short(asked: &[Counted], resource: &Text, most: u128) -> bool
    ensures { result ≡ short_of asked.now resource.now most }
{
    asked
        .iter()
        .any(|counted| asks_more(resource, most, counted))
}

fn is_short_now(asked: &[Counted], rest: &Rest) -> bool
    ensures { result ≡ short_now asked.now rest.now }
{
    rest.most < rest.least || is_short(asked, &rest.resource, rest.most)
}

/// Whether more is asked than is left of one of these now.
pub(crate) fn are_short(asked: &[Counted], rests: &[Rest]) -> bool
    ensures { result ≡ all_short_of asked.now rests.now }
{
    rests.iter().any(|rest| is_short_now(asked, rest))
}

/// What is left at a moment.
pub(crate) fn left_then(booked: &Timeline, moment: u64, rest: &Rest) -> u128
    ensures { result ≡ rest_then booked.now moment rest.now }
{
    let taken = booked.greatest(&rest.limit, moment, moment.saturating_add(1));
    rest.there.saturating_sub(taken)
}

fn is_short_then(booked: &Timeline, moment: u64, asked: &[Counted], rest: &Rest) -> bool
    ensures { result ≡ short_then booked.now moment asked.now rest.now }
{
    let left = left_then(booked, moment, rest);
    left < rest.least || is_short(asked, &rest.resource, left)
}

/// Whether more is asked than is left of one of these by what is booked at a moment.
pub(crate) fn are_short_then(
    booked: &Timeline,
    moment: u64,
    asked: &[Counted],
    rests: &[Rest],
) -> bool
    ensures { result ≡ all_short_then booked.now moment asked.now rests.now }
{
    rests
        .iter()
        .any(|rest| is_short_then(booked, moment, asked, rest))
}
