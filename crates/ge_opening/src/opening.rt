//! Open instances.

ghost use Rattle.std.specs.Prelude.{◌≡◌, IfOk, Some, false, codes};
ghost use Rattle.std.specs.Option.{option_copied};
ghost use Rattle.ge_collections.specs.Keyed.{at_text};
ghost use Rattle.ge_model_place.specs.Opening.{is_open_in};
ghost use Rattle.ge_model_place.specs.Opening as opening;
ghost use Rattle.ge_opening.specs.Forced.{is_any_forced};

use crate::admitting::takes_job;
use crate::looking::{Instance, Rows};
use crate::offering::offers;
use crate::thresholds::is_reached_here;
use ge_rows::{Cluster, Groups, HostRow, InstanceId, Job};
use ge_site::global_host;
use std::alloc::{AllocError, Global};

// The thresholds are few, and are looked at before all complexes are gone through.
fn is_open_here(here: &Instance<'_>, job: &Job) -> bool
    ensures { result ≡ is_open_in here.now.cluster.now here.now.groups.now job.now here.now.at.now
        (Some here.now.queue.now) }
{
    takes_job(here.cluster, here.groups, job, here.at, here.queue)
        && !is_reached_here(here)
        && offers(here, job)
}

fn is_open_under(
    cluster: &Cluster,
    groups: &Groups,
    rows: Rows<'_>,
    may_force: bool,
    job: &Job,
    at: &InstanceId,
) -> bool
    requires global { option_copied rows.global ≡ at_text cluster.now.hosts (codes "global") }
    requires queue { option_copied rows.queue ≡ at_text cluster.now.queues at.now.queue }
    requires host { option_copied rows.host ≡ at_text cluster.now.hosts at.now.host }
    requires forced { may_force ≡ false → is_any_forced cluster.now ≡ false }
    ensures { result
        ≡ is_open_in cluster.now groups.now job.now at.now (option_copied rows.entry.queue) }
{
    match (rows.queue, rows.host) {
        (Some(queue), Some(host)) => {
            let here = Instance {
                cluster,
                groups,
                at,
                queue,
                host,
                global: rows.global,
                may_force,
            };
            is_open_here(&here, job)
        }
        _ => false,
    }
}

// The rows of an instance, with that of the host `global` handed in.
fn rows_of<'a>(cluster: &'a Cluster, at: &InstanceId, global: Option<&'a HostRow>) -> Rows<'a>
    ensures queue { option_copied result.queue ≡ at_text cluster.now.queues at.now.queue }
    ensures host { option_copied result.host ≡ at_text cluster.now.hosts at.now.host }
    ensures global { option_copied result.global ≡ option_copied global.entry }
{
    Rows {
        queue: cluster.queues.get(&at.queue),
        host: cluster.hosts.get(&at.host),
        global,
    }
}

/// Whether an instance is open to the tasks of a job, as [`is_open`] tells. The row of the host `global` is handed in, so that
/// a run looks it up once. Takes no memory.
#[tactic(auto, unfolding(ge_model_place::specs::Opening::is_open))]
pub fn is_open_beside(
    cluster: &Cluster,
    groups: &Groups,
    global: Option<&HostRow>,
    job: &Job,
    at: &InstanceId,
) -> bool
    requires { option_copied global ≡ at_text cluster.now.hosts (codes "global") }
    ensures { result ≡ opening.is_open cluster.now groups.now job.now at.now }
{
    let rows = rows_of(cluster, at, global);
    is_open_under(cluster, groups, rows, true, job, at)
}

/// Whether an instance is open to the tasks of a job, as [`is_open_beside`] tells. Whether any complex is `FORCED` is handed in
/// too ([`any_forced`]): where none is, the complexes aren't gone through. Takes no memory.
#[tactic(auto, unfolding(ge_model_place::specs::Opening::is_open))]
pub fn is_open_knowing(
    cluster: &Cluster,
    groups: &Groups,
    global: Option<&HostRow>,
    forced: bool,
    job: &Job,
    at: &InstanceId,
) -> bool
    requires global { option_copied global ≡ at_text cluster.now.hosts (codes "global") }
    requires forced { forced ≡ is_any_forced cluster.now }
    ensures { result ≡ opening.is_open cluster.now groups.now job.now at.now }
{
    let rows = rows_of(cluster, at, global);
    is_open_under(cluster, groups, rows, forced, job, at)
}

/// Whether an instance is open to the tasks of a job: its queue and its host are there, the job asks for it (qsub, `-q`), the
/// queue takes the job's owner, project and parallel environment there (queue_conf, sge_pe), what the job asks for is there, and
/// nothing that is `FORCED` is there that it doesn't ask for (complex), and no load threshold is reached (queue_conf). Whether
/// there is room is not asked.
pub fn is_open(
    alloc: Global,
    cluster: &Cluster,
    groups: &Groups,
    job: &Job,
    at: &InstanceId,
) -> Result<bool, AllocError>
    ensures { IfOk result (λ is. is ≡ opening.is_open cluster.now groups.now job.now at.now) }
{
    let global = global_host(alloc, cluster)?;
    Ok(is_open_beside(cluster, groups, global, job, at))
}
