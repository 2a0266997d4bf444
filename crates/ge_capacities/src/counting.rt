//! The limits that a grant counts for.

ghost use Rattle.std.specs.Prelude.{◌≡◌, ◌++◌, [], ◌∷◌, IfOk, OnOk, Some, None, false, fold, flat_map};
ghost use Rattle.std.specs.Map.{keys_of};
ghost use Rattle.std.specs.Option.{option_copied};
ghost use Rattle.ge_collections.specs.Keyed.{at_text, at_number};
ghost use Rattle.ge_model_rows.specs.ScheduleRows.{Advance as Reserved, Global as Everywhere, Host, Instance, Pe};
ghost use Rattle.ge_model_rows.specs.Queues.{attr_at};
ghost use Rattle.ge_model_place.specs.Opening.{global_name, slots_name};
ghost use Rattle.ge_model_place.specs.Limits.{advance_capacity, configured_limits, counted, counted_at, each_limit_once, host_limits, instance_limits, pe_limits};
ghost use Rattle.ge_capacities.specs.Counts.{all_counted, counted_as};
ghost use Rattle.ge_capacities.specs.Found.{AllRise, AreRising, AreRisingAt, AreRisingOn, HasAmount, HasOtherAmount, named_limits, with_host_value, with_instance_value, with_limit};

use crate::asking::{Asked, ONE_SLOT, asked_of, asked_of_other};
use crate::capacities::{in_advance, in_environment, is_slots};
use crate::quotas::add_quotas;
use ge_complex::amount_in;
use ge_rows::{
    Cluster, Groups, HostRow, InstanceId, Job, LimitId, QueueRow, Text, Twin, Value, twins2,
};
use ge_site::{at_host, global_host, slots_at};
use std::alloc::{AllocError, Global};

/// A limit that a grant counts for. Contracts see the model's `Counted`.
#[derive(Drop)]
pub struct Counted {
    /// The limit.
    pub limit: LimitId,
    /// How much of it there is.
    pub capacity: u128,
    /// What one slot asks of it, above 0.
    pub amount: u64,
    /// Whether all grants of the job ask that together, and once (complex, `consumable` JOB).
    pub once: bool,
}

/// What counts of a limit, behind what was found.
///
/// A limit is large, so it is made where it is added, and not moved into a call.
#[inline(always)]
pub(crate) fn add(
    found: &mut Vec<Counted>,
    limit: LimitId,
    capacity: u128,
    asked: Asked,
) -> Result<(), AllocError>
    ensures { OnOk result (all_counted found.new.items
        ≡ all_counted found.old.items
        ++ record { limit = limit; capacity = capacity; amount = asked.amount; once = asked.once } ∷ []) }
{
    found.push(Counted {
        limit,
        capacity,
        amount: asked.amount,
        once: asked.once,
    })?;
    Ok(())
}

// A limit of an instance, which is only made where something is asked of it. Slots are none of its values.
fn add_of_instance(
    alloc: Global,
    cluster: &Cluster,
    groups: &Groups,
    job: &Job,
    at: &InstanceId,
    found: &mut Vec<Counted>,
    name: &Text,
    value: &Value,
) -> Result<(), AllocError>
    requires { HasOtherAmount cluster.now groups.now at.now (name.now, value.now) }
    ensures { OnOk result (all_counted found.new.items
        ≡ with_instance_value cluster.now groups.now job.now at.now
        (all_counted found.old.items) name.now) }
{
    if is_slots(name) {
        return Ok(());
    }
    let asked = asked_of_other(cluster, job, name);
    if asked.amount == 0 {
        return Ok(());
    }
    let (at, name) = twins2(alloc, at, name)?;
    let limit = LimitId::Instance(at, name);
    add(found, limit, u128::from(amount_in(value)), asked)
}

// Most queues have no values of their own, so no walk begins then.
#[tactic(auto, using(crate::proofs::Sets::none_counted, crate::proofs::Sets::none_rise))]
fn add_values_of_instance(
    alloc: Global,
    cluster: &Cluster,
    groups: &Groups,
    job: &Job,
    at: &InstanceId,
    queue: &QueueRow,
    found: &mut Vec<Counted>,
) -> Result<(), AllocError>
    requires { at_text cluster.now.queues at.now.queue ≡ Some queue.now }
    ensures found { OnOk result (all_counted found.new.items
        ≡ fold (with_instance_value cluster.now groups.now job.now at.now) (all_counted found.old.items)
        (keys_of (attr_at queue.now.values groups.now at.now.host))) }
    ensures rising { OnOk result (AreRising (attr_at queue.now.values groups.now at.now.host)) }
{
    let values = at_host(&queue.values, groups, &at.host);
    if values.is_empty() {
        return Ok(());
    }
    for (name, value) in values.iter() {
        add_of_instance(alloc, cluster, groups, job, at, found, name, value)?;
    }
    Ok(())
}

// The slots of an instance, of which each slot asks one.
fn add_slots(
    alloc: Global,
    cluster: &Cluster,
    groups: &Groups,
    job: &Job,
    at: &InstanceId,
    queue: &QueueRow,
    found: &mut Vec<Counted>,
) -> Result<(), AllocError>
    requires { at_text cluster.now.queues at.now.queue ≡ Some queue.now }
    ensures { OnOk result (all_counted found.new.items
        ≡ with_limit cluster.now groups.now job.now (all_counted found.old.items)
        (Instance at.now slots_name)) }
{
    let capacity = u128::from(slots_at(queue, groups, &at.host));
    let slots = Text::from_bytes(alloc, b"slots")?;
    let at = at.twin(alloc)?;
    add(found, LimitId::Instance(at, slots), capacity, ONE_SLOT)
}

// The limits of an instance: those of its values, and its slots.
#[tactic(auto, using(crate::proofs::Gathered::of_instance))]
fn add_instance(
    alloc: Global,
    cluster: &Cluster,
    groups: &Groups,
    job: &Job,
    at: &InstanceId,
    found: &mut Vec<Counted>,
) -> Result<(), AllocError>
    ensures found { OnOk result (all_counted found.new.items
        ≡ fold (with_limit cluster.now groups.now job.now) (all_counted found.old.items)
        (instance_limits cluster.now groups.now at.now (at_text cluster.now.queues at.now.queue))) }
    ensures rising { OnOk result
        (AreRisingAt groups.now at.now (at_text cluster.now.queues at.now.queue)) }
{
    match cluster.queues.get(&at.queue) {
        Some(queue) => {
            add_values_of_instance(alloc, cluster, groups, job, at, queue, found)?;
            add_slots(alloc, cluster, groups, job, at, queue, found)
        }
        None => Ok(()),
    }
}

fn add_of_host(
    alloc: Global,
    cluster: &Cluster,
    groups: &Groups,
    job: &Job,
    host: &Text,
    found: &mut Vec<Counted>,
    name: &Text,
    value: &Value,
) -> Result<(), AllocError>
    requires { HasAmount cluster.now groups.now (Host host.now) (name.now, value.now) }
    ensures { OnOk result (all_counted found.new.items
        ≡ with_limit cluster.now groups.now job.now (all_counted found.old.items) (Host host.now name.now)) }
{
    let asked = asked_of(cluster, job, name);
    if asked.amount == 0 {
        return Ok(());
    }
    let (host, name) = twins2(alloc, host, name)?;
    let limit = LimitId::Host(host, name);
    add(found, limit, u128::from(amount_in(value)), asked)
}

fn add_values_of_host(
    alloc: Global,
    cluster: &Cluster,
    groups: &Groups,
    job: &Job,
    host: &Text,
    row: &HostRow,
    found: &mut Vec<Counted>,
) -> Result<(), AllocError>
    requires { at_text cluster.now.hosts host.now ≡ Some row.now }
    ensures found { OnOk result (all_counted found.new.items
        ≡ fold (with_host_value cluster.now groups.now job.now (Host host.now)) (all_counted found.old.items)
        (keys_of row.now.values)) }
    ensures rising { OnOk result (AreRising row.now.values) }
{
    for (name, value) in row.values.iter() {
        add_of_host(alloc, cluster, groups, job, host, found, name, value)?;
    }
    Ok(())
}

// The limits of a host.
#[tactic(auto, using(crate::proofs::Gathered::of_host))]
fn add_host(
    alloc: Global,
    cluster: &Cluster,
    groups: &Groups,
    job: &Job,
    host: &Text,
    found: &mut Vec<Counted>,
) -> Result<(), AllocError>
    ensures found { OnOk result (all_counted found.new.items
        ≡ fold (with_limit cluster.now groups.now job.now) (all_counted found.old.items)
        (host_limits cluster.now (Host host.now) (at_text cluster.now.hosts host.now))) }
    ensures rising { OnOk result (AreRisingOn (at_text cluster.now.hosts host.now)) }
{
    match cluster.hosts.get(host) {
        Some(row) => add_values_of_host(alloc, cluster, groups, job, host, row, found),
        None => Ok(()),
    }
}

fn add_of_all(
    alloc: Global,
    cluster: &Cluster,
    groups: &Groups,
    job: &Job,
    found: &mut Vec<Counted>,
    name: &Text,
    value: &Value,
) -> Result<(), AllocError>
    requires { HasAmount cluster.now groups.now Everywhere (name.now, value.now) }
    ensures { OnOk result (all_counted found.new.items
        ≡ with_limit cluster.now groups.now job.now (all_counted found.old.items) (Everywhere name.now)) }
{
    let asked = asked_of(cluster, job, name);
    if asked.amount == 0 {
        return Ok(());
    }
    let limit = LimitId::Global(name.twin(alloc)?);
    add(found, limit, u128::from(amount_in(value)), asked)
}

// Mostly the host `global` has no values, and no walk begins.
#[tactic(auto, using(crate::proofs::Sets::none_counted, crate::proofs::Sets::none_rise))]
fn add_values_of_all(
    alloc: Global,
    cluster: &Cluster,
    groups: &Groups,
    job: &Job,
    row: &HostRow,
    found: &mut Vec<Counted>,
) -> Result<(), AllocError>
    requires { at_text cluster.now.hosts global_name ≡ Some row.now }
    ensures found { OnOk result (all_counted found.new.items
        ≡ fold (with_host_value cluster.now groups.now job.now Everywhere) (all_counted found.old.items)
        (keys_of row.now.values)) }
    ensures rising { OnOk result (AreRising row.now.values) }
{
    if row.values.is_empty() {
        return Ok(());
    }
    for (name, value) in row.values.iter() {
        add_of_all(alloc, cluster, groups, job, found, name, value)?;
    }
    Ok(())
}

// The limits of all hosts, which the host `global` has.
#[tactic(auto, using(crate::proofs::Gathered::of_all))]
fn add_all(
    alloc: Global,
    cluster: &Cluster,
    groups: &Groups,
    job: &Job,
    found: &mut Vec<Counted>,
) -> Result<(), AllocError>
    ensures found { OnOk result (all_counted found.new.items
        ≡ fold (with_limit cluster.now groups.now job.now) (all_counted found.old.items)
        (host_limits cluster.now Everywhere (at_text cluster.now.hosts global_name))) }
    ensures rising { OnOk result (AreRisingOn (at_text cluster.now.hosts global_name)) }
{
    match global_host(alloc, cluster)? {
        Some(row) => add_values_of_all(alloc, cluster, groups, job, row, found),
        None => Ok(()),
    }
}

// The slots of the parallel environment that a job asks for.
fn add_environment(
    alloc: Global,
    cluster: &Cluster,
    groups: &Groups,
    job: &Job,
    found: &mut Vec<Counted>,
) -> Result<(), AllocError>
    ensures { OnOk result (all_counted found.new.items
        ≡ fold (with_limit cluster.now groups.now job.now) (all_counted found.old.items)
        (pe_limits job.now.request.pe)) }
{
    match &job.request.pe {
        Some(request) => {
            let capacity = u128::from(in_environment(cluster.pes.get(&request.name)));
            let name = request.name.twin(alloc)?;
            add(found, LimitId::Pe(name), capacity, ONE_SLOT)
        }
        None => Ok(()),
    }
}

// The limits by name: those of the instance, of its host, of all hosts and of the parallel environment. No two of them are
// one, since the names in a table differ.
fn add_named(
    alloc: Global,
    cluster: &Cluster,
    groups: &Groups,
    job: &Job,
    at: &InstanceId,
    found: &mut Vec<Counted>,
) -> Result<(), AllocError>
    ensures found { OnOk result (all_counted found.new.items
        ≡ fold (with_limit cluster.now groups.now job.now) (all_counted found.old.items)
        (named_limits cluster.now groups.now job.now at.now)) }
    ensures rising { OnOk result (AllRise cluster.now groups.now at.now) }
{
    add_instance(alloc, cluster, groups, job, at, found)?;
    add_host(alloc, cluster, groups, job, &at.host, found)?;
    add_all(alloc, cluster, groups, job, found)?;
    add_environment(alloc, cluster, groups, job, found)
}

// Room for what is mostly found: an instance's slots, few values of it, of its host and of all hosts, an environment and few
// quotas. So the limits, which are large, aren't moved while the vector grows.
const MOSTLY_FOUND: usize = 8;

// All limits that are configured.
#[tactic(auto, using(crate::proofs::Once::configured_once))]
fn configured(
    alloc: Global,
    cluster: &Cluster,
    groups: &Groups,
    job: &Job,
    at: &InstanceId,
) -> Result<Vec<Counted>, AllocError>
    ensures { IfOk result (λ limits. all_counted limits.items
        ≡ flat_map (counted cluster.now groups.now job.now)
        (each_limit_once (configured_limits cluster.now groups.now job.now at.now))) }
{
    let mut found = Vec::with_capacity(alloc, MOSTLY_FOUND)?;
    add_named(alloc, cluster, groups, job, at, &mut found)?;
    add_quotas(alloc, cluster, groups, job, at, &mut found)?;
    Ok(found)
}

// The slots of a job's reservation at an instance.
fn reserved(
    alloc: Global,
    cluster: &Cluster,
    job: &Job,
    at: &InstanceId,
) -> Result<Vec<Counted>, AllocError>
    ensures { IfOk result (λ limits. all_counted limits.items
        ≡ record {
          limit = Reserved job.now.advance at.now;
          capacity = advance_capacity at.now (at_number cluster.now.advances job.now.advance);
          amount = 1;
          once = false;
        } ∷ []) }
{
    let mut found = Vec::with_capacity(alloc, 1)?;
    let capacity = in_advance(at, cluster.advances.get(&job.advance));
    let limit = LimitId::Advance(job.advance, at.twin(alloc)?);
    add(&mut found, limit, capacity, ONE_SLOT)?;
    Ok(found)
}

/// The limits that a grant of a job at an instance counts for, each once, with what is asked of it for one slot, which is
/// above 0: those of the instance by name, its slots, those of its host and of all hosts, the slots of the job's parallel
/// environment, and the quotas that count the job there. For a job that was sent into a reservation they are the
/// reservation's slots at the instance, alone (queue_conf, host_conf, sge_pe, sge_resource_quota, qsub `-ar`).
#[tactic(auto, unfolding(ge_model_place::specs::Limits::counted_at))]
pub fn counted_limits(
    alloc: Global,
    cluster: &Cluster,
    groups: &Groups,
    job: &Job,
    at: &InstanceId,
) -> Result<Vec<Counted>, AllocError>
    ensures { IfOk result (λ limits. all_counted limits.items
        ≡ counted_at cluster.now groups.now job.now at.now) }
{
    if job.advance == 0 {
        return configured(alloc, cluster, groups, job, at);
    }
    reserved(alloc, cluster, job, at)
}
