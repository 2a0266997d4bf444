//! Attributes of a queue at one of its hosts.

ghost use Rattle.std.specs.Prelude.{◌≡◌, ◌&&◌};
ghost use Rattle.std.specs.Option.{option_copied};
ghost use Rattle.ge_model_rows.specs.Groups.{is_group, group_has as has_host};
ghost use Rattle.ge_model_rows.specs.Queues.{host_override, group_override, attr_at, slots_at as slots_there, limit_at as limit_there};

use crate::spelled::{group_has, is_a_group};
use ge_pieces::is_same;
use ge_rows::{Attr, Groups, QueueRow, Text};

fn override_for_host<'a, T>(attribute: &'a Attr<T>, host: &Text) -> Option<&'a (Text, T)>
    ensures { option_copied result ≡ host_override attribute.now host.now }
{
    attribute
        .overrides
        .items()
        .iter()
        .find(|(name, _)| is_same(host, name))
}

fn is_group_with(groups: &Groups, name: &Text, host: &Text) -> bool
    ensures { result ≡ (is_group name.now && has_host groups.now name.now host.now) }
{
    is_a_group(name.bytes()) && group_has(groups, name, host)
}

fn override_for_group<'a, T>(
    attribute: &'a Attr<T>,
    groups: &Groups,
    host: &Text,
) -> Option<&'a (Text, T)>
    ensures { option_copied result ≡ group_override attribute.now groups.now host.now }
{
    attribute
        .overrides
        .items()
        .iter()
        .find(|(name, _)| is_group_with(groups, name, host))
}

/// An attribute at a host: its first override for the host, else its first override for a group with the host, else
/// its plain value (queue_conf).
pub fn at_host<'a, T>(attribute: &'a Attr<T>, groups: &Groups, host: &Text) -> &'a T
    ensures { result.now ≡ attr_at attribute.now groups.now host.now }
{
    match override_for_host(attribute, host) {
        Some((_, value)) => value,
        None => match override_for_group(attribute, groups, host) {
            Some((_, value)) => value,
            None => &attribute.plain,
        },
    }
}

/// How many slots a queue has at a host (queue_conf, `slots`).
pub fn slots_at(queue: &QueueRow, groups: &Groups, host: &Text) -> u64
    ensures { result ≡ slots_there queue.now groups.now host.now }
{
    *at_host(&queue.slots, groups, host)
}

/// The limit of a queue at a host, of a name that is one of the sixteen limits (queue_conf): seconds, or bytes, and
/// 2^48 - 1 for INFINITY. None of any other name.
pub fn limit_at(queue: &QueueRow, groups: &Groups, host: &Text, name: &Text) -> Option<u64>
    ensures { result ≡ limit_there queue.now groups.now host.now name.now }
{
    match queue.limits.get(name) {
        Some(limit) => Some(*at_host(limit, groups, host)),
        None => None,
    }
}
