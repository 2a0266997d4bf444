//! The instances of queues.

ghost use Rattle.std.specs.Prelude.{◌≡◌, ◌++◌, IfOk, OnOk, fold, flat_map};
ghost use Rattle.std.specs.Map.{values_of};
ghost use Rattle.ge_model_rows.specs.Groups.{entry_hosts, hostlist_hosts};
ghost use Rattle.ge_model_rows.specs.Queues.{with_host, queue_instances, instances_of};

use crate::spelled::{hosts_of, is_a_group};
use ge_rows::{Cluster, Groups, InstanceId, List, QueueRow, Text, Twin, twins2};
use std::alloc::{AllocError, Global};
use std::collections::BTreeMap;

fn instance_at(alloc: Global, queue: &Text, host: &Text) -> Result<InstanceId, AllocError>
    ensures { IfOk result (λ at. at ≡ record { queue = queue.now; host = host.now }) }
{
    let (queue, host) = twins2(alloc, queue, host)?;
    Ok(InstanceId { queue, host })
}

fn add_host(
    alloc: Global,
    queue: &Text,
    instances: &mut BTreeMap<Text, InstanceId>,
    host: &Text,
) -> Result<(), AllocError>
    ensures { OnOk result (instances.new.entries ≡ with_host queue.now instances.old.entries host.now) }
{
    let at = instance_at(alloc, queue, host)?;
    let key = host.twin(alloc)?;
    instances.insert(key, at)?;
    Ok(())
}

fn add_hosts(
    alloc: Global,
    queue: &Text,
    instances: &mut BTreeMap<Text, InstanceId>,
    hosts: &[Text],
) -> Result<(), AllocError>
    ensures { OnOk result (instances.new.entries ≡ fold (with_host queue.now) instances.old.entries hosts.now) }
{
    for host in hosts {
        add_host(alloc, queue, instances, host)?;
    }
    Ok(())
}

fn add_entry(
    alloc: Global,
    groups: &Groups,
    queue: &Text,
    instances: &mut BTreeMap<Text, InstanceId>,
    entry: &Text,
) -> Result<(), AllocError>
    ensures { OnOk result (instances.new.entries
        ≡ fold (with_host queue.now) instances.old.entries (entry_hosts groups.now entry.now)) }
{
    if is_a_group(entry.bytes()) {
        add_hosts(alloc, queue, instances, hosts_of(groups, entry))
    } else {
        add_host(alloc, queue, instances, entry)
    }
}

fn add_entries(
    alloc: Global,
    groups: &Groups,
    queue: &Text,
    instances: &mut BTreeMap<Text, InstanceId>,
    entries: &[Text],
) -> Result<(), AllocError>
    ensures { OnOk result (instances.new.entries
        ≡ fold (with_host queue.now) instances.old.entries (hostlist_hosts groups.now entries.now)) }
{
    for entry in entries {
        add_entry(alloc, groups, queue, instances, entry)?;
    }
    Ok(())
}

fn append_instances(
    alloc: Global,
    groups: &Groups,
    found: &mut List<InstanceId>,
    name: &Text,
    queue: &QueueRow,
) -> Result<(), AllocError>
    ensures { OnOk result (found.new ≡ found.old ++ queue_instances groups.now (name.now, queue.now)) }
{
    let mut instances = BTreeMap::new(alloc);
    add_entries(alloc, groups, name, &mut instances, queue.hosts.items())?;
    for at in instances.into_values() {
        found.push(at)?;
    }
    Ok(())
}

/// The queue instances, by name of queue, then of host (queue_conf, `hostlist`).
#[tactic(auto, unfolding(ge_model_rows::specs::Queues::instances_of))]
pub fn instances(
    alloc: Global,
    cluster: &Cluster,
    groups: &Groups,
) -> Result<List<InstanceId>, AllocError>
    ensures { IfOk result (λ instances. instances ≡ instances_of cluster.now groups.now) }
{
    let mut found = List::new(alloc);
    for (name, queue) in cluster.queues.iter() {
        append_instances(alloc, groups, &mut found, name, queue)?;
    }
    Ok(found)
}
