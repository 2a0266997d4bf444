// Who asks.
ghost use Rattle.std.specs.Prelude.{◌≡◌};
ghost use Rattle.std.specs.Option.{option_copied};
ghost use Rattle.ge_collections.specs.Keyed.{at_number};
ghost use Rattle.ge_model_rows.specs.Access as access;
ghost use Rattle.ge_model_core.specs.Altering as altering;

use ge_jobs::get;
use ge_pieces::is_same;
use ge_rows::{Cluster, Event, Job};
use ge_site::{is_manager, is_operator};
use std::marker::Model;

/// The user of an event, who is looked up once among the operators. Contracts see the cluster and the event.
#[derive(Drop)]
pub(crate) struct Asker<'a> {
    cluster: &'a Cluster,
    event: &'a Event,
    operates: bool,
}

impl<'a> Model for Asker<'a> {
    ghost use Rattle.std.specs.Prelude.{◌≡◌};
    ghost use Rattle.ge_model_rows.specs.ClusterRows.{Cluster as ClusterRow};
    ghost use Rattle.ge_model_rows.specs.EventRows.{Event as EventRow};
    ghost use Rattle.ge_model_rows.specs.Access as access;

    ghost Value = { ClusterRow × EventRow };

    ghost view = { λ a. (a.cluster.now, a.event.now) };

    ghost invariant = { λ a. a.operates ≡ access.is_operator a.cluster.now a.event.now.user };
}

impl<'a> Asker<'a> {
    pub(crate) fn new(cluster: &'a Cluster, event: &'a Event) -> Asker<'a>
        ensures { result ≡ (cluster.now, event.now) }
    {
        Asker {
            cluster,
            event,
            operates: is_operator(cluster, &event.user),
        }
    }

    /// Whether the user is an operator.
    pub(crate) fn is_operator(&self) -> bool
        ensures { result ≡ access.is_operator self.now.0 self.now.1.user }
    {
        self.operates
    }

    /// Whether the user is a manager.
    pub(crate) fn is_manager(&self) -> bool
        ensures { result ≡ access.is_manager self.now.0 self.now.1.user }
    {
        is_manager(self.cluster, &self.event.user)
    }

    /// Whether the user is neither the owner of a job nor an operator.
    pub(crate) fn is_foreign(&self, job: &Job) -> bool
        ensures { result ≡ altering.is_foreign self.now.0 self.now.1 job.now }
    {
        !is_same(&job.owner, &self.event.user) && !self.operates
    }

    /// A job by its number.
    pub(crate) fn job(&self, number: u32) -> Option<&'a Job>
        ensures { option_copied result ≡ at_number self.now.0.jobs number }
    {
        get(&self.cluster.jobs, number)
    }
}
