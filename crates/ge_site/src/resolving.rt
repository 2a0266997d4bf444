//! Values that aren't consumables, by level.

ghost use Rattle.std.specs.Prelude.{◌≡◌, IfOk, codes};
ghost use Rattle.std.specs.Option.{option_map, option_and_then, option_copied};
ghost use Rattle.ge_collections.specs.Keyed.{at_text};
ghost use Rattle.ge_model_rows.specs.Queues.{called, queue_value, row_value, host_value, resolved};
ghost use Rattle.ge_site.specs.Found.{value_found};

use crate::attributes::{at_host, limit_at};
use ge_pieces::is_word;
use ge_rows::{Cluster, Groups, HostRow, InstanceId, QueueRow, Text, Twin, Value};
use std::alloc::{AllocError, Global};

/// A value where it lies. Contracts see by `value_found` the value that it stands for.
#[derive(Clone, Copy)]
pub enum Found<'a> {
    /// A value that is configured or reported.
    Kept(&'a Value),
    /// A limit of the queue: an amount, in seconds or bytes.
    Limit(u64),
    /// The name of the queue or of the host: a word.
    Name(&'a Text),
}

fn kept(value: Option<&Value>) -> Option<Found<'_>>
    ensures { option_map value_found result ≡ option_copied value.entry }
{
    match value {
        Some(value) => Some(Found::Kept(value)),
        None => None,
    }
}

// What an instance is called.
fn name_called<'a>(at: &'a InstanceId, name: &Text) -> Option<Found<'a>>
    ensures { option_map value_found result ≡ called at.now name.now }
{
    if is_word(name.bytes(), b"qname") {
        Some(Found::Name(&at.queue))
    } else if is_word(name.bytes(), b"hostname") {
        Some(Found::Name(&at.host))
    } else {
        None
    }
}

// What a queue gives a name at one of its hosts.
fn at_instance<'a>(
    groups: &Groups,
    at: &'a InstanceId,
    name: &Text,
    queue: &'a QueueRow,
) -> Option<Found<'a>>
    ensures { option_map value_found result ≡ queue_value groups.now at.now name.now queue.now }
{
    if let Some(value) = at_host(&queue.values, groups, &at.host).get(name) {
        return Some(Found::Kept(value));
    }
    if let Some(limit) = limit_at(queue, groups, &at.host, name) {
        return Some(Found::Limit(limit));
    }
    name_called(at, name)
}

// What a host gives a name: what is configured, then what was reported.
fn in_row<'a>(name: &Text, host: &'a HostRow) -> Option<Found<'a>>
    ensures { option_map value_found result ≡ row_value name.now host.now }
{
    if let Some(value) = host.values.get(name) {
        return Some(Found::Kept(value));
    }
    kept(host.load.get(name))
}

// What the queue of an instance gives a name there.
fn in_queue<'a>(
    cluster: &'a Cluster,
    groups: &Groups,
    at: &'a InstanceId,
    name: &Text,
) -> Option<Found<'a>>
    ensures { option_map value_found result
        ≡ option_and_then (queue_value groups.now at.now name.now) (at_text cluster.now.queues at.now.queue) }
{
    match cluster.queues.get(&at.queue) {
        Some(queue) => at_instance(groups, at, name, queue),
        None => None,
    }
}

fn in_host<'a>(cluster: &'a Cluster, name: &Text, host: &Text) -> Option<Found<'a>>
    ensures { option_map value_found result ≡ host_value cluster.now name.now host.now }
{
    match cluster.hosts.get(host) {
        Some(row) => in_row(name, row),
        None => None,
    }
}

fn in_global<'a>(global: Option<&'a HostRow>, name: &Text) -> Option<Found<'a>>
    ensures { option_map value_found result ≡ option_and_then (row_value name.now) (option_copied global.entry) }
{
    match global {
        Some(row) => in_row(name, row),
        None => None,
    }
}

/// The row of the host `global`, the last level, for any number of calls of [`resolved_at`].
pub fn global_host(alloc: Global, cluster: &Cluster) -> Result<Option<&HostRow>, AllocError>
    ensures { IfOk result (λ row. option_copied row ≡ at_text cluster.now.hosts (codes "global")) }
{
    let name = Text::from_bytes(alloc, b"global")?;
    Ok(cluster.hosts.get(&name))
}

/// The value that a name has at an instance, where it lies: from the first level that has it, the instance, then its host
/// with its load report, then the host `global`, which is handed in. Takes no memory.
#[tactic(auto, unfolding(ge_model_rows::specs::Queues::resolved))]
pub fn resolved_at<'a>(
    cluster: &'a Cluster,
    groups: &Groups,
    global: Option<&'a HostRow>,
    at: &'a InstanceId,
    name: &Text,
) -> Option<Found<'a>>
    requires { option_copied global ≡ at_text cluster.now.hosts (codes "global") }
    ensures { option_map value_found result ≡ resolved cluster.now groups.now at.now name.now }
{
    if let Some(found) = in_queue(cluster, groups, at, name) {
        return Some(found);
    }
    if let Some(found) = in_host(cluster, name, &at.host) {
        return Some(found);
    }
    in_global(global, name)
}

fn value_of(alloc: Global, found: Found<'_>) -> Result<Value, AllocError>
    ensures { IfOk result (λ value. value ≡ value_found found.entry) }
{
    match found {
        Found::Kept(value) => value.twin(alloc),
        Found::Limit(amount) => Ok(Value::Amount(amount)),
        Found::Name(word) => Ok(Value::Word(word.twin(alloc)?)),
    }
}

/// The value that a name has at an instance, if it isn't a consumable: from the first level that has it, the instance
/// (`complex_values`, then the limits, `qname` and `hostname`), its host's `complex_values`, its host's load report,
/// the host `global` (queue_conf, host_conf). None where no level has it.
pub fn resolve(
    alloc: Global,
    cluster: &Cluster,
    groups: &Groups,
    at: &InstanceId,
    name: &Text,
) -> Result<Option<Value>, AllocError>
    ensures { IfOk result (λ value. value ≡ resolved cluster.now groups.now at.now name.now) }
{
    let global = global_host(alloc, cluster)?;
    match resolved_at(cluster, groups, global, at, name) {
        Some(found) => Ok(Some(value_of(alloc, found)?)),
        None => Ok(None),
    }
}
