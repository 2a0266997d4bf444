//! What is seen at an instance.
ghost use Rattle.std.specs.Prelude.{◌≡◌, ◌<◌, map, IfOk};
ghost use Rattle.ge_model_place.specs.Bookings.{peak};
ghost use Rattle.ge_model_place.specs.Placement.{room_of};
ghost use Rattle.ge_capacities.specs.Counts.{counted_as, all_counted};
ghost use Rattle.ge_place.specs.Spots.{room_as, rooms_as, is_free_at, rooms_at, cell_in, IsSeen};

use crate::searching::Search;
use ge_demands::{Counted, counted_limits};
use ge_opening::is_open_knowing;
use ge_rows::{InstanceId, LimitId, Text};
use std::alloc::{AllocError, Global};
use std::rc::Rc;

/// A limit that a slot at an instance counts for, with the most that is booked of it in the window. Contracts see the
/// model's `Room`.
#[derive(Drop)]
pub(crate) struct Bound {
    /// The limit, which is shared with the sums of what is asked.
    pub(crate) limit: Rc<LimitId>,
    /// How much of it there is.
    pub(crate) capacity: u128,
    /// What a slot asks of it.
    pub(crate) amount: u64,
    /// Whether all slots ask that together, and once.
    pub(crate) once: bool,
    /// The most that is booked of it.
    pub(crate) peak: u128,
}

/// What is seen at an instance.
#[derive(Drop)]
pub(crate) enum Sight {
    /// The task may not start there at all.
    Closed,
    /// It may, and a slot there counts for these limits.
    Open(Vec<Bound>),
}

/// A host with the places of its instances among all, rising.
#[derive(Drop)]
pub(crate) struct HostSpots<'a> {
    /// The host.
    pub(crate) host: &'a Text,
    /// The places, so that no instance on another host is looked at.
    pub(crate) places: Vec<usize>,
}

/// Which instances are meant.
#[derive(Clone, Copy)]
pub(crate) enum Site<'a> {
    /// All of them.
    Everywhere,
    /// Those on a host.
    Host(&'a HostSpots<'a>),
}

/// Whether a task may start at an instance at all.
pub(crate) fn may_start(search: &Search<'_>, at: &InstanceId) -> bool
    ensures { result ≡ is_free_at search.now at.now }
{
    search.in_time
        && is_open_knowing(
            search.cluster,
            search.groups,
            search.global,
            search.forced,
            search.job,
            at,
        )
}

// The most that is booked of a limit in the window.
fn peak_of(search: &Search<'_>, limit: &LimitId) -> u128
    requires { search.now.from < search.now.until }
    ensures { result ≡ peak search.now.booked.now limit.now search.now.from search.now.until }
{
    search.booked.greatest(limit, search.from, search.until)
}

// A limit with the most that is booked of it in the window.
fn bound_of(alloc: Global, search: &Search<'_>, counts: Counted) -> Result<Bound, AllocError>
    requires { search.now.from < search.now.until }
    ensures { IfOk result (λ bound. room_as bound
        ≡ room_of search.now.booked.now search.now.from search.now.until (counted_as counts)) }
{
    let peak = peak_of(search, &counts.limit);
    let Counted {
        limit,
        capacity,
        amount,
        once,
    } = counts;
    let limit = Rc::new(alloc, limit)?;
    Ok(Bound {
        limit,
        capacity,
        amount,
        once,
        peak,
    })
}

fn bounds_of(
    alloc: Global,
    search: &Search<'_>,
    limits: Vec<Counted>,
) -> Result<Vec<Bound>, AllocError>
    requires { search.now.from < search.now.until }
    ensures { IfOk result (λ bounds. rooms_as bounds.items
        ≡ map (room_of search.now.booked.now search.now.from search.now.until)
        (all_counted limits.items)) }
{
    let mut bounds = Vec::new(alloc);
    for counts in limits {
        let bound = bound_of(alloc, search, counts)?;
        bounds.push(bound)?;
    }
    Ok(bounds)
}

// The limits that a slot at an instance counts for; none in a window without a moment.
fn bounds_at(alloc: Global, search: &Search<'_>, at: &InstanceId) -> Result<Vec<Bound>, AllocError>
    ensures { IfOk result (λ bounds. rooms_as bounds.items ≡ rooms_at search.now at.now) }
{
    if search.until <= search.from {
        return Ok(Vec::new(alloc));
    }
    let limits = counted_limits(alloc, search.cluster, search.groups, search.job, at)?;
    let bounds = bounds_of(alloc, search, limits)?;
    Ok(bounds)
}

/// What is seen at an instance. Where the task may not start, its limits aren't counted.
pub(crate) fn look(alloc: Global, search: &Search<'_>, at: &InstanceId) -> Result<Sight, AllocError>
    ensures { IfOk result (λ sight. IsSeen (cell_in search.now at.now) sight) }
{
    if !may_start(search, at) {
        return Ok(Sight::Closed);
    }
    let bounds = bounds_at(alloc, search, at)?;
    Ok(Sight::Open(bounds))
}
