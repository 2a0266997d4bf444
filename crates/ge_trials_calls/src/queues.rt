//! Attributes and values at the instances of the queue `a.q` of the page's cluster.

use crate::answers::{is_named, no_call, number};
use crate::quotas;
use crate::sites::Site;
use ge_pieces::{before, behind};
use ge_rows::{Groups, InstanceId, QueueRow, Text, Value};
use ge_site::{at_host, instances, limit_at, resolve, slots_at};
use std::alloc::{AllocError, Global};

/// The queue.
const QUEUE: &[u8] = b"a.q";

// The hosts of all instances.
fn hosts(alloc: Global, site: &Site) -> Result<Text, AllocError> {
    let mut line = Text::new(alloc);
    for at in instances(alloc, &site.cluster, &site.groups)?.items() {
        line.append(at.host.bytes())?;
        line.append(b" ")?;
    }
    Ok(line)
}

// The value of an attribute at the instance on h1.
fn value(alloc: Global, site: &Site, name: &Text) -> Result<Text, AllocError> {
    let at = InstanceId {
        queue: Text::from_bytes(alloc, QUEUE)?,
        host: Text::from_bytes(alloc, b"h1")?,
    };
    match resolve(alloc, &site.cluster, &site.groups, &at, name)? {
        Some(Value::Word(word)) => Ok(word),
        Some(_) => Text::from_bytes(alloc, b"no word"),
        None => Text::from_bytes(alloc, b"none"),
    }
}

// An attribute of the queue at a host.
fn attribute(
    alloc: Global,
    queue: &QueueRow,
    groups: &Groups,
    name: &[u8],
    host: &Text,
    limit: &Text,
) -> Result<Text, AllocError> {
    if is_named(name, b"slots_at") {
        number(alloc, Some(slots_at(queue, groups, host)))
    } else if is_named(name, b"at_host") {
        number(alloc, Some(at_host(&queue.pes, groups, host).len() as u64))
    } else if is_named(name, b"limit_at") {
        number(alloc, limit_at(queue, groups, host, limit))
    } else {
        no_call(alloc)
    }
}

/// What a call answers: `slots_at HOST` the slots there, `at_host HOST` how many parallel environments there are, `limit_at
/// HOST|NAME`, `resolve NAME` at h1, `instances` their hosts, and what `quotas` has.
pub(crate) fn answer(
    alloc: Global,
    site: &Site,
    name: &[u8],
    given: &[u8],
) -> Result<Text, AllocError> {
    let first = Text::from_bytes(alloc, before(b'|', given))?;
    let second = Text::from_bytes(alloc, behind(b'|', given))?;
    let queue = Text::from_bytes(alloc, QUEUE)?;
    if is_named(name, b"instances") {
        hosts(alloc, site)
    } else if is_named(name, b"resolve") {
        value(alloc, site, &first)
    } else if is_named(name, b"limit_key") || is_named(name, b"keys") {
        quotas::answer(alloc, site, name, &first, &second)
    } else if let Some(row) = site.cluster.queues.get(&queue) {
        attribute(alloc, row, &site.groups, name, &first, &second)
    } else {
        no_call(alloc)
    }
}
