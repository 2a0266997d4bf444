//! Load thresholds (queue_conf, `load_thresholds`).

ghost use Rattle.std.specs.Prelude.{◌≡◌, IfOk, Some};
ghost use Rattle.std.specs.List.{list_any};
ghost use Rattle.std.specs.Option.{option_copied};
ghost use Rattle.ge_model_rows.specs.Complexes.{complex_at as complex_in};
ghost use Rattle.ge_model_place.specs.Opening.{reaches, reaches_one_of};
ghost use Rattle.ge_model_place.specs.Opening as opening;

use crate::looking::Instance;
use ge_complex::{complex_at, holds_between};
use ge_rows::{Cluster, ComplexDef, Groups, HostRow, InstanceId, QueueRow, Table, Text, Value};
use ge_site::at_host;
use std::alloc::{AllocError, Global};

// Whether what is reported reaches a threshold, as its complex compares them.
fn is_reached(threshold: &Value, complex: Option<&ComplexDef>, there: &Value) -> bool
    ensures { result ≡ reaches threshold.now (option_copied complex.entry) (Some there.now) }
{
    match complex {
        Some(complex) => holds_between(complex.kind, complex.relop, there, threshold),
        None => false,
    }
}

/// What a host reported last of a name, if the host is there.
pub(crate) fn reported_load<'a>(row: Option<&'a HostRow>, name: &Text) -> Option<&'a Value>
    ensures { option_copied result ≡ opening.reported_load (option_copied row.entry) name.now }
{
    match row {
        None => None,
        Some(row) => row.load.get(name),
    }
}

// Whether what a host reports reaches a threshold. Of a name that it reports nothing of, no complex is looked up.
fn reaches_there(cluster: &Cluster, row: Option<&HostRow>, name: &Text, threshold: &Value) -> bool
    ensures { result ≡ reaches threshold.now (complex_in cluster.now name.now)
        (opening.reported_load (option_copied row.entry) name.now) }
{
    match reported_load(row, name) {
        None => false,
        Some(there) => is_reached(threshold, complex_at(cluster, name), there),
    }
}

// Whether what a host reports reaches one of these thresholds.
fn one_is_reached(cluster: &Cluster, row: Option<&HostRow>, thresholds: &Table<Text, Value>) -> bool
    ensures { result ≡ list_any (λ threshold. reaches threshold.1
        (complex_in cluster.now threshold.0)
        (opening.reported_load (option_copied row.entry) threshold.0)) thresholds.now }
{
    for (name, threshold) in thresholds.iter() {
        if reaches_there(cluster, row, name, threshold) {
            return true;
        }
    }
    false
}

/// Whether a load threshold of an instance is reached, as [`threshold_reached`] tells.
#[tactic(auto, unfolding(ge_model_place::specs::Opening::reaches_threshold))]
pub(crate) fn is_reached_here(here: &Instance<'_>) -> bool
    ensures { result
        ≡ opening.reaches_threshold here.now.cluster.now here.now.groups.now here.now.at.now }
{
    let thresholds = at_host(&here.queue.thresholds, here.groups, &here.at.host);
    one_is_reached(here.cluster, Some(here.host), thresholds)
}

fn is_reached_in(
    cluster: &Cluster,
    groups: &Groups,
    at: &InstanceId,
    queue: Option<&QueueRow>,
) -> bool
    ensures { result ≡ reaches_one_of cluster.now groups.now at.now (option_copied queue.entry) }
{
    match queue {
        None => false,
        Some(queue) => {
            let thresholds = at_host(&queue.thresholds, groups, &at.host);
            one_is_reached(cluster, cluster.hosts.get(&at.host), thresholds)
        }
    }
}

/// Whether a load threshold of an instance is reached: what its host reported last of the threshold's name stands in the
/// relation of that complex to it. False where the queue isn't there (queue_conf, `load_thresholds`; complex, `relop`). Takes
/// no memory.
#[tactic(auto, unfolding(ge_model_place::specs::Opening::reaches_threshold))]
pub fn threshold_reached(cluster: &Cluster, groups: &Groups, at: &InstanceId) -> bool
    ensures { result ≡ opening.reaches_threshold cluster.now groups.now at.now }
{
    is_reached_in(cluster, groups, at, cluster.queues.get(&at.queue))
}

/// Whether a load threshold of an instance is reached, as [`threshold_reached`] tells (queue_conf, `load_thresholds`). Never
/// fails.
pub fn reaches_threshold(
    _alloc: Global,
    cluster: &Cluster,
    groups: &Groups,
    at: &InstanceId,
) -> Result<bool, AllocError>
    ensures { IfOk result (λ reached. reached
        ≡ opening.reaches_threshold cluster.now groups.now at.now) }
{
    Ok(threshold_reached(cluster, groups, at))
}
