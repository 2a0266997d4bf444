//! How much there is of a limit.

ghost use Rattle.std.specs.Prelude.{◌≡◌, ◌-◌, IfOk, slice_get, filter, sum_by};
ghost use Rattle.std.specs.Option.{option_copied};
ghost use Rattle.ge_collections.specs.Keyed.{text_eq};
ghost use Rattle.ge_model_place.specs.Bookings.{same_instance};
ghost use Rattle.ge_model_place.specs.Opening.{slots_name};
ghost use Rattle.ge_model_place.specs.Limits.{advance_capacity, amount_or_none, capacity_in, capacity_of, capacity_on, number_or_none, pe_capacity, quota_capacity, rule_capacity};

use ge_bookings::is_same_instance;
use ge_complex::amount_in;
use ge_rows::{
    Advance, Cluster, Grant, Groups, HostRow, InstanceId, LimitId, PeRow, QueueRow, QuotaKey,
    QuotaRow, Rule, Text, Value,
};
use ge_site::{at_host, global_host, slots_at};
use std::alloc::{AllocError, Global};

/// Whether a name is that of slots. It is asked of each name, so it looks at the bytes in place.
pub(crate) fn is_slots(name: &Text) -> bool
    ensures { result ≡ text_eq name.now slots_name }
{
    match name.bytes() {
        [b's', b'l', b'o', b't', b's'] => true,
        _ => false,
    }
}

fn amount_or_zero(value: Option<&Value>) -> u64
    ensures { result ≡ amount_or_none (option_copied value.entry) }
{
    match value {
        Some(value) => amount_in(value),
        None => 0,
    }
}

// How much of a name an instance of a queue has.
fn in_queue(groups: &Groups, at: &InstanceId, name: &Text, queue: Option<&QueueRow>) -> u64
    ensures { result ≡ capacity_in groups.now at.now name.now (option_copied queue.entry) }
{
    match queue {
        Some(queue) => {
            if is_slots(name) {
                slots_at(queue, groups, &at.host)
            } else {
                amount_or_zero(at_host(&queue.values, groups, &at.host).get(name))
            }
        }
        None => 0,
    }
}

// How much of a name a host has.
fn on_host(name: &Text, host: Option<&HostRow>) -> u64
    ensures { result ≡ capacity_on name.now (option_copied host.entry) }
{
    match host {
        Some(row) => amount_or_zero(row.values.get(name)),
        None => 0,
    }
}

/// How many slots a parallel environment has.
pub(crate) fn in_environment(environment: Option<&PeRow>) -> u64
    ensures { result ≡ pe_capacity (option_copied environment.entry) }
{
    match environment {
        Some(row) => row.slots,
        None => 0,
    }
}

fn number_or_zero(number: Option<&u64>) -> u64
    ensures { result ≡ number_or_none (option_copied number.entry) }
{
    match number {
        Some(number) => *number,
        None => 0,
    }
}

fn in_rule(resource: &Text, rule: Option<&Rule>) -> u64
    ensures { result ≡ rule_capacity resource.now (option_copied rule.entry) }
{
    match rule {
        Some(rule) => number_or_zero(rule.limits.get(resource)),
        None => 0,
    }
}

// The rule with a number, which is counted from 1.
fn rule_at(rules: &[Rule], number: u32) -> Option<&Rule>
    ensures { option_copied result ≡ slice_get rules.now (number - 1) }
{
    let index = number.saturating_sub(1) as usize;
    rules.get(index)
}

/// How much of its resource the rule of a key allows.
pub(crate) fn in_quota(key: &QuotaKey, set: Option<&QuotaRow>) -> u64
    ensures { result ≡ quota_capacity key.now (option_copied set.entry) }
{
    match set {
        Some(row) => in_rule(&key.resource, rule_at(row.rules.items(), key.rule)),
        None => 0,
    }
}

// The slots of the grants at an instance, uncut: fewer than 2^64 grants have fewer than 2^32 slots each.
fn slots_granted(at: &InstanceId, grants: &[Grant]) -> u128
    ensures { result
        ≡ sum_by (λ grant. grant.slots) (filter (λ grant. same_instance grant.at at.now) grants.now) }
{
    let mut slots: u128 = 0;
    for grant in grants {
        if is_same_instance(&grant.at, at) {
            slots += u128::from(grant.slots);
        }
    }
    slots
}

/// How many slots a reservation has at an instance.
pub(crate) fn in_advance(at: &InstanceId, advance: Option<&Advance>) -> u128
    ensures { result ≡ advance_capacity at.now (option_copied advance.entry) }
{
    match advance {
        Some(row) => slots_granted(at, row.grants.items()),
        None => 0,
    }
}

/// How much of a limit there is: what is configured at the instance, at the host or for all of them; a parallel
/// environment's slots; what the rule of a quota says; the slots that a reservation was granted. 0 of what isn't there
/// (queue_conf, host_conf, sge_pe, sge_resource_quota, qrsub).
pub fn capacity(
    alloc: Global,
    cluster: &Cluster,
    groups: &Groups,
    limit: &LimitId,
) -> Result<u128, AllocError>
    ensures { IfOk result (λ amount. amount ≡ capacity_of cluster.now groups.now limit.now) }
{
    match limit {
        LimitId::Instance(at, name) => {
            let row = cluster.queues.get(&at.queue);
            Ok(u128::from(in_queue(groups, at, name, row)))
        }
        LimitId::Host(host, name) => Ok(u128::from(on_host(name, cluster.hosts.get(host)))),
        LimitId::Global(name) => Ok(u128::from(on_host(name, global_host(alloc, cluster)?))),
        LimitId::Pe(name) => Ok(u128::from(in_environment(cluster.pes.get(name)))),
        LimitId::Quota(key) => Ok(u128::from(in_quota(key, cluster.quotas.get(&key.set)))),
        LimitId::Advance(number, at) => Ok(in_advance(at, cluster.advances.get(number))),
    }
}
