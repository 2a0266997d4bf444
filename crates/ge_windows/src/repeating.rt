//! What a task takes that runs as the one before it.

ghost use Rattle.std.specs.Prelude.{◌≡◌, true, IfOk};
ghost use Rattle.ge_model_place.specs.Limits.{demands_of};
ghost use Rattle.ge_windows.specs.Alike.{alike, same_grant, IsOfLast};

use ge_bookings::is_same_instance;
use ge_demands::demands;
use ge_rows::{Booking, Cluster, Demand, Grant, Groups, Job, List, Twin};
use std::alloc::{AllocError, Global};

fn is_same_grant(a: &Grant, b: &Grant) -> bool
    ensures { result ≡ same_grant a.now b.now }
{
    a.slots == b.slots && is_same_instance(&a.at, &b.at)
}

// Whether two tasks have one grant each, and the same.
fn are_alike(last: &[Grant], grants: &[Grant]) -> bool
    ensures { result ≡ true → alike last.now grants.now ≡ true }
{
    match (last, grants) {
        ([one], [other]) => is_same_grant(one, other),
        _ => false,
    }
}

/// What a task's grants ask of each limit, where the last booking is that of a task of the job with those grants. Tasks of an
/// array mostly run one after the other at an instance, so what the last one takes is copied where both have the same one grant.
pub(crate) fn demands_after(
    alloc: Global,
    cluster: &Cluster,
    groups: &Groups,
    job: &Job,
    bookings: &[Booking],
    last: &[Grant],
    grants: &[Grant],
) -> Result<List<Demand>, AllocError>
    requires { IsOfLast cluster.now groups.now job.now bookings.now last.now }
    ensures { IfOk result (λ demands. demands
        ≡ demands_of cluster.now groups.now job.now grants.now) }
{
    if are_alike(last, grants) {
        if let Some(booking) = bookings.last() {
            return booking.demands.twin(alloc);
        }
    }
    demands(alloc, cluster, groups, job, grants)
}
