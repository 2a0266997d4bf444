// Slots that running tasks and advance reservations have.
ghost use Rattle.std.specs.Prelude.{◌≡◌, IfOk};
ghost use Rattle.std.specs.List.{list_any};
ghost use Rattle.ge_collections.specs.Keyed.{text_eq};
ghost use Rattle.ge_model_config.specs.Used as used;

use crate::marked::is_marked;
use ge_pieces::is_same;
use ge_rows::{Advance, Cluster, Grant, JobTable, MarkSort, Table, Text};
use std::alloc::{AllocError, Global};

fn is_on_queue(name: &Text, grant: &Grant) -> bool
    ensures { result ≡ text_eq name.now grant.now.at.queue }
{
    is_same(name, &grant.at.queue)
}

fn is_on_host(name: &Text, grant: &Grant) -> bool
    ensures { result ≡ text_eq name.now grant.now.at.host }
{
    is_same(name, &grant.at.host)
}

fn has_queue(name: &Text, grants: &[Grant]) -> bool
    ensures { result ≡ list_any (λ grant. text_eq name.now grant.at.queue) grants.now }
{
    grants.iter().any(|grant| is_on_queue(name, grant))
}

fn has_host(name: &Text, grants: &[Grant]) -> bool
    ensures { result ≡ list_any (λ grant. text_eq name.now grant.at.host) grants.now }
{
    grants.iter().any(|grant| is_on_host(name, grant))
}

#[tactic(auto, using(crate::proofs::Borne::on_queue))]
fn job_on_queue(alloc: Global, name: &Text, jobs: &JobTable) -> Result<bool, AllocError>
    ensures { IfOk result (λ runs. runs ≡ list_any (λ job. list_any (λ task. list_any
        (λ grant. text_eq name.now grant.at.queue) task.1.grants) job.1.running) jobs.now) }
{
    let runs = is_marked(alloc, jobs, MarkSort::Queue, name)?;
    Ok(runs)
}

#[tactic(auto, using(crate::proofs::Borne::on_host))]
fn job_on_host(alloc: Global, name: &Text, jobs: &JobTable) -> Result<bool, AllocError>
    ensures { IfOk result (λ runs. runs ≡ list_any (λ job. list_any (λ task. list_any
        (λ grant. text_eq name.now grant.at.host) task.1.grants) job.1.running) jobs.now) }
{
    let runs = is_marked(alloc, jobs, MarkSort::Host, name)?;
    Ok(runs)
}

fn advance_on_queue(name: &Text, advances: &Table<u32, Advance>) -> bool
    ensures { result ≡ list_any (λ booked. list_any
        (λ grant. text_eq name.now grant.at.queue) booked.1.grants) advances.now }
{
    for (_, booked) in advances.iter() {
        if has_queue(name, booked.grants.items()) {
            return true;
        }
    }
    false
}

fn advance_on_host(name: &Text, advances: &Table<u32, Advance>) -> bool
    ensures { result ≡ list_any (λ booked. list_any
        (λ grant. text_eq name.now grant.at.host) booked.1.grants) advances.now }
{
    for (_, booked) in advances.iter() {
        if has_host(name, booked.grants.items()) {
            return true;
        }
    }
    false
}

/// Whether a running task or an advance reservation has slots of a queue.
pub(crate) fn queue_is_granted(alloc: Global, name: &Text, c: &Cluster) -> Result<bool, AllocError>
    ensures { IfOk result (λ granted. granted ≡ used.is_queue_used c.now name.now) }
{
    let runs = job_on_queue(alloc, name, &c.jobs)?;
    Ok(runs || advance_on_queue(name, &c.advances))
}

/// Whether one has slots on a host.
pub(crate) fn host_is_granted(alloc: Global, name: &Text, c: &Cluster) -> Result<bool, AllocError>
    ensures { IfOk result (λ granted. granted
        ≡ used.granted_where c.now (λ grant. text_eq name.now grant.at.host)) }
{
    let runs = job_on_host(alloc, name, &c.jobs)?;
    Ok(runs || advance_on_host(name, &c.advances))
}
