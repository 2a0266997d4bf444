//! The forms of qstat.

ghost use Rattle.std.specs.Prelude.{◌≡◌, IfOk};
ghost use Rattle.ge_model_report.specs.Listing.{listing_of};

use crate::fields::show_job;
use crate::jobs::list_jobs;
use crate::priorities::list_priorities;
use crate::queues::list_queues;
use ge_rows::{Cluster, List, Listing, Prio, Text};
use std::alloc::{AllocError, Global};

/// The lines of `qstat` in one of its forms, at a moment in seconds: the jobs of owners (`-u`), one job (`-j`), the queue
/// instances (`-f`), or these priorities (`-pri`). See the manual page qstat.
#[tactic(auto, unfolding(ge_model_report::specs::Listing::listing_of))]
pub fn list(
    alloc: Global,
    cluster: &Cluster,
    what: &Listing,
    now: u64,
    prios: &[Prio],
) -> Result<List<Text>, AllocError>
    ensures { IfOk result (λ lines. lines ≡ listing_of cluster.now what.now now prios.now) }
{
    match what {
        Listing::All(pattern) => list_jobs(alloc, cluster, pattern.bytes()),
        Listing::One(number) => show_job(alloc, cluster, *number),
        Listing::Queues => list_queues(alloc, cluster, now),
        Listing::Prios => list_priorities(alloc, prios),
    }
}
