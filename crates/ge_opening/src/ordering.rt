//! The order in which a run tries instances (sched_conf, queue_conf).

ghost use Rattle.std.specs.Prelude.{◌≡◌, IfOk, OnOk, [], fold};
ghost use Rattle.std.specs.BTreeMap.{insert_entry};
ghost use Rattle.std.specs.Map.{values_of};
ghost use Rattle.std.specs.Option.{option_copied};
ghost use Rattle.ge_model_place.specs.InstanceOrder.{amount_reported, load_or_most, seq_no_in, instance_rank, instance_rank_cmp, with_ranked};
ghost use Rattle.ge_model_place.specs.InstanceOrder as order;
ghost use Rattle.ge_opening.specs.Ranked.{ranked, all_ranked};

use crate::thresholds::reported_load;
use ge_rows::{Cluster, Groups, INFINITY, InstanceId, List, QueueRow, SortMethod, Text, Value};
use ge_site::{at_host, instances};
use std::alloc::{AllocError, Global};
use std::collections::BTreeSet;

/// Where an instance stands: two numbers, and then the instance itself, by queue and host.
type Rank = (u64, (u64, InstanceId));

fn amount_of(value: Option<&Value>) -> Option<u64>
    ensures { result ≡ amount_reported (option_copied value.entry) }
{
    match value {
        None => None,
        Some(value) => match value {
            Value::Amount(amount) => Some(*amount),
            Value::Flag(_) => None,
            Value::Word(_) => None,
        },
    }
}

/// The amount that a host reported last of the load formula. None where the host isn't there, or reported none, or reported
/// no amount (sched_conf, `load_formula`).
pub fn load_at(cluster: &Cluster, host: &Text) -> Option<u64>
    ensures { result ≡ order.load_at cluster.now host.now }
{
    amount_of(reported_load(cluster.hosts.get(host), &cluster.sched.load_formula))
}

// A host without a load is as loaded as can be.
fn or_most(load: Option<u64>) -> u64
    ensures { result ≡ load_or_most load }
{
    match load {
        None => INFINITY,
        Some(load) => load,
    }
}

fn seq_no_under(groups: &Groups, host: &Text, queue: Option<&QueueRow>) -> u64
    ensures { result ≡ seq_no_in groups.now host.now (option_copied queue.entry) }
{
    match queue {
        None => 0,
        Some(queue) => *at_host(&queue.seq_no, groups, host),
    }
}

fn rank_of(cluster: &Cluster, groups: &Groups, at: InstanceId) -> Rank
    ensures { ranked result ≡ (instance_rank cluster.now groups.now at, at) }
{
    let load = or_most(load_at(cluster, &at.host));
    let seq_no = seq_no_under(groups, &at.host, cluster.queues.get(&at.queue));
    match cluster.sched.sort {
        SortMethod::Load => (load, (seq_no, at)),
        SortMethod::Seqno => (seq_no, (load, at)),
    }
}

fn put(ranks: &mut BTreeSet<Rank>, rank: Rank) -> Result<(), AllocError>
    ensures { OnOk result (all_ranked ranks.new.keys
        ≡ insert_entry instance_rank_cmp (all_ranked ranks.old.keys) (ranked rank).0
        (ranked rank).1) }
{
    ranks.insert(rank)?;
    Ok(())
}

fn put_instance(
    cluster: &Cluster,
    groups: &Groups,
    ranks: &mut BTreeSet<Rank>,
    at: InstanceId,
) -> Result<(), AllocError>
    ensures { OnOk result (all_ranked ranks.new.keys
        ≡ with_ranked cluster.now groups.now (all_ranked ranks.old.keys) at) }
{
    put(ranks, rank_of(cluster, groups, at))
}

fn ranks_of(
    alloc: Global,
    cluster: &Cluster,
    groups: &Groups,
    instances: List<InstanceId>,
) -> Result<BTreeSet<Rank>, AllocError>
    ensures { IfOk result (λ ranks. all_ranked ranks.keys
        ≡ fold (with_ranked cluster.now groups.now) [] instances) }
{
    let mut ranks = BTreeSet::new(alloc);
    for at in instances.into_vec() {
        put_instance(cluster, groups, &mut ranks, at)?;
    }
    Ok(ranks)
}

fn instances_in(alloc: Global, ranks: BTreeSet<Rank>) -> Result<List<InstanceId>, AllocError>
    ensures { IfOk result (λ instances. instances ≡ values_of (all_ranked ranks.keys)) }
{
    let mut instances = List::new(alloc);
    for (_, (_, at)) in ranks {
        instances.push(at)?;
    }
    Ok(instances)
}

/// The instances in the order in which a run tries them: by load and then by sequence number, or the other way round, the least
/// first, and of equal ones by the name of the queue, then of the host (sched_conf, `queue_sort_method` and `load_formula`;
/// queue_conf, `seq_no`). A host without a load counts as the most loaded.
#[tactic(auto, unfolding(ge_model_place::specs::InstanceOrder::instance_order))]
pub fn instance_order(
    alloc: Global,
    cluster: &Cluster,
    groups: &Groups,
) -> Result<List<InstanceId>, AllocError>
    ensures { IfOk result (λ instances. instances ≡ order.instance_order cluster.now groups.now) }
{
    let found = instances(alloc, cluster, groups)?;
    let ranks = ranks_of(alloc, cluster, groups, found)?;
    let instances = instances_in(alloc, ranks)?;
    Ok(instances)
}
