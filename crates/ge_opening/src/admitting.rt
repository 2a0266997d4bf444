//! The jobs that a queue admits at a host: by owner, project and parallel environment (queue_conf, sge_pe).

ghost use Rattle.std.specs.Prelude.{◌≡◌, ◌&&◌};
ghost use Rattle.std.specs.Option.{option_copied};
ghost use Rattle.ge_model_place.specs.Opening.{is_asked_for, admits_owner, admits_project, admits_no_project, admits_pe, pe_may};

use crate::asking::is_asked;
use ge_pieces::is_among;
use ge_rows::{Cluster, Groups, InstanceId, Job, PeRequest, PeRow, QueueRow, Text};
use ge_site::{at_host, may_use};

// Whether the owner may use the queue there.
fn takes_owner(
    cluster: &Cluster,
    groups: &Groups,
    job: &Job,
    at: &InstanceId,
    queue: &QueueRow,
) -> bool
    ensures { result ≡ admits_owner cluster.now groups.now job.now at.now queue.now }
{
    let users = at_host(&queue.users, groups, &at.host);
    let xusers = at_host(&queue.xusers, groups, &at.host);
    may_use(cluster, users, xusers, &job.owner, &job.group)
}

// Whether the queue takes a job of a project there.
fn takes_project(groups: &Groups, at: &InstanceId, queue: &QueueRow, project: &Text) -> bool
    ensures { result ≡ admits_project groups.now at.now queue.now project.now }
{
    match project.bytes() {
        [] => true,
        [_, ..] => {
            let projects = at_host(&queue.projects, groups, &at.host).items();
            let xprojects = at_host(&queue.xprojects, groups, &at.host).items();
            (projects.is_empty() || is_among(project, projects)) && !is_among(project, xprojects)
        }
    }
}

// Whether the queue takes a job there that may have no project.
fn takes_no_project(groups: &Groups, at: &InstanceId, queue: &QueueRow, project: &Text) -> bool
    ensures { result ≡ admits_no_project groups.now at.now queue.now project.now }
{
    match project.bytes() {
        [] => at_host(&queue.projects, groups, &at.host)
            .items()
            .is_empty(),
        [_, ..] => true,
    }
}

fn lets_in(cluster: &Cluster, job: &Job, pe: Option<&PeRow>) -> bool
    ensures { result ≡ pe_may cluster.now job.now (option_copied pe.entry) }
{
    match pe {
        None => false,
        Some(pe) => may_use(cluster, &pe.users, &pe.xusers, &job.owner, &job.group),
    }
}

// Whether the queue has the parallel environment there, and that takes the owner.
fn takes_pe(
    cluster: &Cluster,
    groups: &Groups,
    job: &Job,
    at: &InstanceId,
    queue: &QueueRow,
    pe: &Option<PeRequest>,
) -> bool
    ensures { result ≡ admits_pe cluster.now groups.now job.now at.now queue.now pe.now }
{
    match pe {
        None => true,
        Some(request) => {
            is_among(&request.name, at_host(&queue.pes, groups, &at.host).items())
                && lets_in(cluster, job, cluster.pes.get(&request.name))
        }
    }
}

/// Whether an instance is one that a job asks for, and its queue takes the job's owner, project and parallel environment
/// there (qsub `-q`; queue_conf `user_lists`, `xuser_lists`, `projects`, `xprojects`, `pe_list`; sge_pe).
pub(crate) fn takes_job(
    cluster: &Cluster,
    groups: &Groups,
    job: &Job,
    at: &InstanceId,
    queue: &QueueRow,
) -> bool
    ensures { result ≡ (is_asked_for groups.now job.now at.now
        && admits_owner cluster.now groups.now job.now at.now queue.now
        && admits_project groups.now at.now queue.now job.now.project
        && admits_no_project groups.now at.now queue.now job.now.project
        && admits_pe cluster.now groups.now job.now at.now queue.now job.now.request.pe) }
{
    is_asked(groups, job, at)
        && takes_owner(cluster, groups, job, at, queue)
        && takes_project(groups, at, queue, &job.project)
        && takes_no_project(groups, at, queue, &job.project)
        && takes_pe(cluster, groups, job, at, queue, &job.request.pe)
}
