//! What a task is placed over.
ghost use Rattle.std.specs.Prelude.{◌≡◌, codes};
ghost use Rattle.std.specs.Option.{option_copied};
ghost use Rattle.ge_collections.specs.Keyed.{at_text};
ghost use Rattle.ge_opening.specs.Forced.{is_any_forced};

use ge_rows::{Cluster, Groups, HostRow, Job};
use ge_timeline::Timeline;

/// What a task of a job is placed over, from a moment on.
#[derive(Clone, Copy)]
pub(crate) struct Search<'a> {
    /// The cluster.
    pub(crate) cluster: &'a Cluster,
    /// Its groups of hosts, spelled out.
    pub(crate) groups: &'a Groups,
    /// What is booked.
    pub(crate) booked: &'a Timeline,
    /// The job.
    pub(crate) job: &'a Job,
    /// The moment.
    pub(crate) from: u64,
    /// Where the window ends that the task is booked for.
    pub(crate) until: u64,
    /// Whether the task may start then.
    pub(crate) in_time: bool,
    /// The row of the host `global`, looked up once for all instances.
    pub(crate) global: Option<&'a HostRow>,
    /// Whether any complex is `FORCED`, found out once for all instances.
    pub(crate) forced: bool,
    ghost global_is: { option_copied global ≡ at_text cluster.now.hosts (codes "global") },
    ghost forced_is: { forced ≡ is_any_forced cluster.now },
}
