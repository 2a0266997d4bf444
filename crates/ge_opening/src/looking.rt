//! What is looked up of an instance, once for all that is asked of it.

ghost use Rattle.std.specs.Prelude.{◌≡◌, Some, true, false, codes};
ghost use Rattle.std.specs.Option.{option_copied};
ghost use Rattle.ge_collections.specs.Keyed.{at_text};
ghost use Rattle.ge_model_place.specs.Opening.{has_host};
ghost use Rattle.ge_opening.specs.Forced.{is_any_forced};

use ge_rows::{Cluster, Groups, HostRow, InstanceId, QueueRow};

/// An instance whose queue and host are there, with their rows.
#[derive(Clone, Copy)]
pub(crate) struct Instance<'a> {
    /// The cluster.
    pub(crate) cluster: &'a Cluster,
    /// Its groups of hosts, spelled out.
    pub(crate) groups: &'a Groups,
    /// The instance.
    pub(crate) at: &'a InstanceId,
    /// The row of its queue.
    pub(crate) queue: &'a QueueRow,
    /// The row of its host.
    pub(crate) host: &'a HostRow,
    /// The row of the host `global`.
    pub(crate) global: Option<&'a HostRow>,
    /// Whether a complex may be `FORCED`.
    pub(crate) may_force: bool,
    ghost queue_is: { Some queue.now ≡ at_text cluster.now.queues at.now.queue },
    ghost host_is: { Some host.now ≡ at_text cluster.now.hosts at.now.host },
    ghost global_is: { option_copied global ≡ at_text cluster.now.hosts (codes "global") },
    ghost forced_is: { may_force ≡ false → is_any_forced cluster.now ≡ false },
    ghost host_there: { has_host cluster.now at.now ≡ true },
}

/// The rows that an instance is looked at by, those of them that are there.
#[derive(Clone, Copy)]
pub(crate) struct Rows<'a> {
    /// The row of its queue.
    pub(crate) queue: Option<&'a QueueRow>,
    /// The row of its host.
    pub(crate) host: Option<&'a HostRow>,
    /// The row of the host `global`.
    pub(crate) global: Option<&'a HostRow>,
}
