// A placement over hosts alone at which something may be placed.
ghost use Rattle.std.specs.Prelude.{◌≡◌, ℕ, ◌+◌, ◌<◌, ◌==◌, ◌||◌, true, ◌++◌, ◌∷◌, [], cond, filter, length, IfOk, OnOk, All, List as Items};
ghost use Rattle.ge_model_place.specs.Placement.{placement_of};
ghost use Rattle.ge_attempts.specs.Amounts.{IsInTable};
ghost use Rattle.ge_attempts.specs.Common.{IsAsked};
ghost use Rattle.ge_attempts.specs.Rests.{is_kept as kept_in, known_of, AreKept, AreNumbered, AreShortLater, AreLeft};
ghost use Rattle.ge_attempts.specs.Vacant.{goes_on as has_moment};

use crate::looking::{Found, Look, found_at};
use crate::rests::{Left, Room};
use crate::setting::{Setting, place_among};
use ge_demands::Counted;
use ge_rows::{Grant, InstanceId, Job, List, Twin};
use ge_timeline::Timeline;
use ge_windows::window_end_from;
use std::alloc::{AllocError, Global};

// Whether a host is kept, by its number.
fn is_kept(kept: &List<bool>, host: usize) -> bool
    ensures { result ≡ kept_in kept.now host }
{
    host >= kept.len() || kept.items()[host]
}

fn keep_host(kept: &mut List<bool>, host: usize)
    ensures { (q : ℕ) → kept_in kept.new q ≡ (host == q || kept_in kept.old q) }
{
    if host < kept.len() {
        let _before = kept.replace(host, true);
    }
}

fn known_at(later: &[Option<u64>], place: usize) -> Option<u64>
    ensures { result ≡ known_of later.now place }
{
    match later.get(place) {
        Some(known) => *known,
        None => None,
    }
}

// Keeps the host of an instance, unless something keeps the task from that. It is noted where too little is left for any job.
fn note_place(
    at: &Setting<'_>,
    look: &Look<'_>,
    lefts: &[Left],
    place: usize,
    later: &mut List<Option<u64>>,
    kept: &mut List<bool>,
)
    requires within { place < length lefts.now }
    requires later { AreShortLater look.now.booked.now lefts.now later.old }
    requires kept { AreKept at.now.moment look.now.booked.now look.now.from look.now.until
        look.now.asked.now lefts.now place kept.old }
    ensures later { AreShortLater look.now.booked.now lefts.now later.new }
    ensures kept { AreKept at.now.moment look.now.booked.now look.now.from look.now.until
        look.now.asked.now lefts.now (place + 1) kept.new }
{
    let left = &lefts[place];
    let known = known_at(later.items(), place);
    match found_at(at, look, known, left.rests.items()) {
        Found::Enough => keep_host(kept, left.host),
        Found::TooLittle => {}
        Found::Nothing => {
            let _known = later.replace(place, Some(look.from));
        }
    }
}

// The hosts that are kept, by their numbers.
fn kept_hosts(
    alloc: Global,
    at: &Setting<'_>,
    look: &Look<'_>,
    lefts: &[Left],
    later: &mut List<Option<u64>>,
) -> Result<List<bool>, AllocError>
    requires { AreShortLater look.now.booked.now lefts.now later.old }
    ensures later { OnOk result (AreShortLater look.now.booked.now lefts.now later.new) }
    ensures kept { IfOk result (λ kept. AreKept at.now.moment look.now.booked.now look.now.from
        look.now.until look.now.asked.now lefts.now (length lefts.now) kept) }
{
    let mut kept = List::from_vec(vec![in alloc; false; lefts.len()]?);
    let mut place = 0;
    while place < lefts.len() {
        note_place(at, look, lefts, place, later, &mut kept);
        place += 1;
    }
    Ok(kept)
}

fn add_on_host(
    alloc: Global,
    kept: &List<bool>,
    left: &Left,
    instances: &mut List<InstanceId>,
    instance: &InstanceId,
) -> Result<(), AllocError>
    ensures { OnOk result (instances.new ≡ instances.old
        ++ cond (kept_in kept.now left.now.host) (instance.now ∷ []) []) }
{
    if !is_kept(kept, left.host) {
        return Ok(());
    }
    let instance = instance.twin(alloc)?;
    instances.push(instance)
}

fn instances_on(
    alloc: Global,
    order: &[InstanceId],
    lefts: &[Left],
    kept: &List<bool>,
) -> Result<List<InstanceId>, AllocError>
    requires { length lefts.now ≡ length order.now }
    ensures { IfOk result (λ instances. (number : Items ℕ → ℕ)
        → AreNumbered number order.now lefts.now
        → instances ≡ filter (λ at. kept_in kept.now (number at.host)) order.now) }
{
    let mut instances = List::new(alloc);
    let mut place = 0;
    while place < order.len() {
        add_on_host(alloc, kept, &lefts[place], &mut instances, &order[place])?;
        place += 1;
    }
    Ok(instances)
}

/// The grants of a task of a job that is sent into no reservation from a moment on. Hosts at each instance of which something
/// that is asked isn't left then are left out, which changes no placement, and so are those where too little is left for any job
/// at a moment of the task's window that is known; such moments are noted.
pub(crate) fn place_on_hosts(
    alloc: Global,
    at: &Setting<'_>,
    booked: &Timeline,
    room: &mut Room,
    asked: &List<Counted>,
    job: &Job,
    moment: u64,
) -> Result<Option<List<Grant>>, AllocError>
    requires goes_on { has_moment at.now.cluster.now moment ≡ true }
    requires free { (job.now.advance == 0) ≡ true }
    requires there { IsInTable at.now.cluster.now job.now }
    requires left { AreLeft at.now.cluster.now at.now.groups.now at.now.moment booked.now
        at.now.order.now room.old }
    requires asked { All (IsAsked at.now.cluster.now at.now.groups.now job.now) asked.now }
    ensures placed { IfOk result (λ grants. grants ≡ placement_of at.now.cluster.now
        at.now.groups.now at.now.order.now booked.now job.now moment) }
    ensures left { OnOk result (AreLeft at.now.cluster.now at.now.groups.now at.now.moment
        booked.now at.now.order.now room.new) }
{
    let lefts = room.lefts.items();
    let asked = asked.items();
    let until = window_end_from(at.cluster, job, moment);
    let look = Look {
        booked,
        asked,
        from: moment,
        until,
    };
    let kept = kept_hosts(alloc, at, &look, lefts, &mut room.later)?;
    let instances = instances_on(alloc, at.order, lefts, &kept)?;
    let order = instances.items();
    let grants = place_among(alloc, at, order, booked, job, moment)?;
    Ok(grants)
}
