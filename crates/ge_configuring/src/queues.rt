// What queues name.
ghost use Rattle.std.specs.Prelude.{◌≡◌, ◌||◌};
ghost use Rattle.std.specs.List.{list_any};
ghost use Rattle.ge_model_config.specs.Cited.{has_name as has_name_in};
ghost use Rattle.ge_model_config.specs.Used as used;
ghost use Rattle.ge_model_rows.specs.Pieces.{is_one_of};

use crate::attributes::{has_value, lists_name, overrides_at};
use ge_pieces::is_among;
use ge_rows::{Attr, Cluster, QueueRow, Table, Text};

fn limit_overridden(name: &Text, limits: &Table<Text, Attr<u64>>) -> bool
    ensures { result ≡ list_any (λ limit. used.overrides_at name.now limit.1) limits.now }
{
    for (_, attribute) in limits.iter() {
        if overrides_at(name, attribute) {
            return true;
        }
    }
    false
}

fn is_overridden(name: &Text, queue: &QueueRow) -> bool
    ensures { result ≡ used.is_overridden name.now queue.now }
{
    overrides_at(name, &queue.seq_no)
        || overrides_at(name, &queue.thresholds)
        || overrides_at(name, &queue.pes)
        || overrides_at(name, &queue.users)
        || overrides_at(name, &queue.xusers)
        || overrides_at(name, &queue.projects)
        || overrides_at(name, &queue.xprojects)
        || overrides_at(name, &queue.values)
        || overrides_at(name, &queue.slots)
        || limit_overridden(name, &queue.limits)
}

fn is_in_queue(name: &Text, queue: &QueueRow) -> bool
    ensures { result ≡ (is_one_of name.now queue.now.hosts
        || used.is_overridden name.now queue.now) }
{
    is_among(name, queue.hosts.items()) || is_overridden(name, queue)
}

/// Whether a queue has a host or group in its hostlist or in an override.
pub(crate) fn place_in_queues(name: &Text, c: &Cluster) -> bool
    ensures { result ≡ used.queue_where c.now
        (λ q. is_one_of name.now q.hosts || used.is_overridden name.now q) }
{
    for (_, queue) in c.queues.iter() {
        if is_in_queue(name, queue) {
            return true;
        }
    }
    false
}

/// Whether a queue has a parallel environment in its pe_list.
pub(crate) fn pe_in_queues(name: &Text, c: &Cluster) -> bool
    ensures { result ≡ used.queue_where c.now (λ q. used.lists_name name.now q.pes) }
{
    for (_, queue) in c.queues.iter() {
        if lists_name(name, &queue.pes) {
            return true;
        }
    }
    false
}

/// Whether a queue has a user set in its user_lists or xuser_lists.
pub(crate) fn set_in_queues(name: &Text, c: &Cluster) -> bool
    ensures { result ≡ used.queue_where c.now
        (λ q. used.lists_name name.now q.users || used.lists_name name.now q.xusers) }
{
    for (_, queue) in c.queues.iter() {
        if lists_name(name, &queue.users) || lists_name(name, &queue.xusers) {
            return true;
        }
    }
    false
}

/// Whether a queue has a project in its projects or xprojects.
pub(crate) fn project_in_queues(name: &Text, c: &Cluster) -> bool
    ensures { result ≡ used.queue_where c.now
        (λ q. used.lists_name name.now q.projects || used.lists_name name.now q.xprojects) }
{
    for (_, queue) in c.queues.iter() {
        if lists_name(name, &queue.projects) || lists_name(name, &queue.xprojects) {
            return true;
        }
    }
    false
}

/// Whether a queue has an attribute in its values or thresholds.
pub(crate) fn complex_in_queues(name: &Text, c: &Cluster) -> bool
    ensures { result ≡ used.queue_where c.now
        (λ q. used.attr_where (λ table. has_name_in table name.now) q.values
        || used.attr_where (λ table. has_name_in table name.now) q.thresholds) }
{
    for (_, queue) in c.queues.iter() {
        if has_value(name, &queue.values) || has_value(name, &queue.thresholds) {
            return true;
        }
    }
    false
}
