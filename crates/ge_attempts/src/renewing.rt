// What is left is taken anew as slots are given and kept.
ghost use Rattle.std.specs.Prelude.{◌≡◌, ◌<◌, cond, length, map, IfSome};
ghost use Rattle.std.specs.List.{remove};
ghost use Rattle.ge_attempts.specs.Rests.{renewed_rest, renewed_left, comes_sooner, blocked_with, blocked_since, kept_with, is_full as full_at, shortest_in as shortest_of, cut_at_advances as cut_at_each, EndsNoSooner, AreLeft};

use crate::holding::{Hosts, place_of};
use crate::rests::{Left, Rest, Room, are_short_then, is_full, left_then};
use crate::setting::Setting;
use ge_bookings::end_of_window;
use ge_rows::{Advance, Decision, Grant, InstanceId, JobFacts, List, ShortRow, Table};
use ge_timeline::Timeline;
use std::alloc::Global;
use std::collections::BTreeMap;

// Which of these rising places is that of an instance.
fn index_of(
    order: &[InstanceId],
    hosts: &Hosts,
    places: &[usize],
    instance: &InstanceId,
) -> Option<usize>
    ensures { IfSome result (λ index. index < length places.now) }
{
    let place = place_of(order, hosts, instance)?;
    match places.binary_search(&place) {
        Ok(index) => Some(index),
        Err(_) => None,
    }
}

fn leave_out_full(
    at: &Setting<'_>,
    until: Option<u64>,
    vacant: &mut List<usize>,
    index: usize,
    left: &Left,
)
    requires { index < length vacant.old }
    ensures { vacant.new ≡ cond (full_at at.now.cluster.now at.now.moment until left.now)
        (remove vacant.old index) vacant.old }
{
    if is_full(at, until, left) {
        let _place = vacant.remove(index);
    }
}

// The limits are the same, and so is what there is of them.
fn renew_rests(at: &Setting<'_>, booked: &Timeline, rests: &mut [Rest])
    ensures { rests.new ≡ map (renewed_rest at.now.moment booked.now) rests.old }
{
    for rest in rests.iter_mut() {
        let most = left_then(booked, at.moment, rest);
        rest.most = most;
    }
}

fn is_sooner(moment: u64, known: Option<u64>) -> bool
    ensures { result ≡ comes_sooner moment known }
{
    match known {
        Some(other) => moment < other,
        None => true,
    }
}

// A moment at which too little is left for any job, or the one that is known.
fn blocked_by(
    at: &Setting<'_>,
    booked: &Timeline,
    rests: &[Rest],
    moment: u64,
    known: Option<u64>,
) -> Option<u64>
    ensures { result ≡ blocked_with at.now.moment booked.now rests.now moment known }
{
    if at.moment <= moment
        && is_sooner(moment, known)
        && are_short_then(booked, moment, &[], rests)
    {
        return Some(moment);
    }
    known
}

fn blocked_from(
    at: &Setting<'_>,
    booked: &Timeline,
    rests: &[Rest],
    kept_from: Option<u64>,
    known: Option<u64>,
) -> Option<u64>
    ensures { result ≡ blocked_since at.now.moment booked.now rests.now kept_from known }
{
    match kept_from {
        Some(moment) => blocked_by(at, booked, rests, moment, known),
        None => known,
    }
}

fn first_kept(kept: Option<u64>, before: Option<u64>) -> Option<u64>
    ensures { result ≡ kept_with kept before }
{
    match (kept, before) {
        (Some(kept), Some(before)) => Some(kept.min(before)),
        (Some(kept), None) => Some(kept),
        (None, before) => before,
    }
}

// What is left after a start, or after slots were kept from a moment on.
fn renewed(at: &Setting<'_>, booked: &Timeline, kept: Option<u64>, left: Left) -> Left
    ensures { result ≡ renewed_left at.now.moment booked.now kept left }
{
    let Left {
        host,
        closed,
        rests,
        kept_from,
        blocked,
    } = left;
    let mut rests = rests.into_vec();
    renew_rests(at, booked, rests.as_mut_slice());
    let blocked = blocked_from(at, booked, rests.as_slice(), kept.or(kept_from), blocked);
    Left {
        host,
        closed,
        rests: List::from_vec(rests),
        kept_from: first_kept(kept, kept_from),
        blocked,
    }
}

// What is left at a vacant place is taken anew.
fn renew_vacant(
    alloc: Global,
    at: &Setting<'_>,
    booked: &Timeline,
    room: &mut Room,
    index: usize,
    kept: Option<u64>,
)
    requires left { AreLeft at.now.cluster.now at.now.groups.now at.now.moment booked.now
        at.now.order.now room.old }
    requires within { index < length room.old.vacant }
    ensures { AreLeft at.now.cluster.now at.now.groups.now at.now.moment booked.now
        at.now.order.now room.new }
{
    let place = room.vacant.items()[index];
    if is_full(at, room.until, &room.lefts.items()[place]) {
        return;
    }
    let none = Left {
        host: 0,
        closed: false,
        rests: List::new(alloc),
        kept_from: None,
        blocked: None,
    };
    let before = room.lefts.replace(place, none);
    let left = renewed(at, booked, kept, before);
    leave_out_full(at, room.until, &mut room.vacant, index, &left);
    let _none = room.lefts.replace(place, left);
}

fn renew_at(
    alloc: Global,
    at: &Setting<'_>,
    booked: &Timeline,
    room: &mut Room,
    instance: &InstanceId,
    kept: Option<u64>,
)
    requires { AreLeft at.now.cluster.now at.now.groups.now at.now.moment booked.now
        at.now.order.now room.old }
    ensures { AreLeft at.now.cluster.now at.now.groups.now at.now.moment booked.now
        at.now.order.now room.new }
{
    if let Some(index) = index_of(at.order, &room.hosts, room.vacant.items(), instance) {
        renew_vacant(alloc, at, booked, room, index, kept);
    }
}

fn renew_granted(
    alloc: Global,
    at: &Setting<'_>,
    booked: &Timeline,
    room: &mut Room,
    grants: &[Grant],
    kept: Option<u64>,
)
    requires { AreLeft at.now.cluster.now at.now.groups.now at.now.moment booked.now
        at.now.order.now room.old }
    ensures { AreLeft at.now.cluster.now at.now.groups.now at.now.moment booked.now
        at.now.order.now room.new }
{
    for grant in grants {
        renew_at(alloc, at, booked, room, &grant.at, kept);
    }
}

// No job asks for a shorter time.
fn shortest_in(rows: &BTreeMap<u32, ShortRow<JobFacts>>) -> u32
    ensures { result ≡ shortest_of rows.now.entries }
{
    let mut shortest = u32::MAX;
    for (_number, row) in rows.iter() {
        shortest = shortest.min(row.facts.lasts);
    }
    shortest
}

// The sooner of a moment and the end of each advance reservation, which cuts the windows of its jobs.
fn cut_at_advances(advances: &Table<u32, Advance>, end: u64) -> u64
    ensures { result ≡ cut_at_each advances.now end }
{
    let mut soonest = end;
    for (_number, advance) in advances.iter() {
        soonest = soonest.min(advance.until);
    }
    soonest
}

// No window of a job of the table ends before, of a task that starts now.
fn shortest_end(at: &Setting<'_>) -> u64
    ensures { EndsNoSooner at.now.cluster.now at.now.moment result }
{
    let Some(shorts) = at.cluster.jobs.shorts() else {
        return 0;
    };
    let shortest = u64::from(shortest_in(shorts.rows)).min(at.cluster.sched.default_duration);
    let end = end_of_window(at.moment, shortest.max(1));
    cut_at_advances(&at.cluster.advances, end)
}

// Where the shortest window ends is found out once, when slots are kept for the first time.
fn find_until(at: &Setting<'_>, _booked: &Timeline, room: &mut Room)
    requires { AreLeft at.now.cluster.now at.now.groups.now at.now.moment _booked.now
        at.now.order.now room.old }
    ensures { AreLeft at.now.cluster.now at.now.groups.now at.now.moment _booked.now
        at.now.order.now room.new }
{
    if room.until.is_none() {
        room.until = Some(shortest_end(at));
    }
}

/// What is left where a start took slots, or where some are kept, is taken anew; where too little is left for any job the place
/// is vacant no more.
pub fn renew(
    alloc: Global,
    at: &Setting<'_>,
    booked: &Timeline,
    room: &mut Room,
    decision: &Decision,
)
    requires { AreLeft at.now.cluster.now at.now.groups.now at.now.moment booked.now
        at.now.order.now room.old }
    ensures { AreLeft at.now.cluster.now at.now.groups.now at.now.moment booked.now
        at.now.order.now room.new }
{
    match decision {
        Decision::Start(start) => {
            renew_granted(alloc, at, booked, room, start.grants.items(), None);
        }
        Decision::Reserve(kept) => {
            find_until(at, booked, room);
            renew_granted(alloc, at, booked, room, kept.grants.items(), Some(kept.at));
        }
        Decision::Skip(_) => {}
    }
}
