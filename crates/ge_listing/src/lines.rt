//! The line of an instance.

ghost use Rattle.std.specs.Prelude.{◌≡◌, ◌++◌, IfOk, codes, decimal};
ghost use Rattle.std.specs.Option.{option_copied};
ghost use Rattle.ge_model_report.specs.QueueLines.{load_text, row_slots, state_text};
ghost use Rattle.ge_listing.specs.Taken.{line_with, slots_with};

use crate::grants::instance_text;
use ge_complex::{amount_text, kind_for};
use ge_opening::{load_at, threshold_reached};
use ge_printing::{decimal_text, join_words};
use ge_rows::{Cluster, Groups, InstanceId, QueueRow, Text};
use ge_site::slots_at;
use std::alloc::{AllocError, Global};

fn slots_under(groups: &Groups, at: &InstanceId, queue: Option<&QueueRow>) -> u64
    ensures { result ≡ row_slots groups.now at.now (option_copied queue.entry) }
{
    match queue {
        None => 0,
        Some(queue) => slots_at(queue, groups, &at.host),
    }
}

// Taken slots of all slots.
fn slots(
    alloc: Global,
    cluster: &Cluster,
    groups: &Groups,
    taken: u128,
    at: &InstanceId,
) -> Result<Text, AllocError>
    ensures { IfOk result (λ text. text ≡ slots_with cluster.now groups.now taken at.now) }
{
    let mut text = decimal_text(alloc, taken)?;
    text.push(b'/')?;
    let all = slots_under(groups, at, cluster.queues.get(&at.queue));
    text.append(decimal_text(alloc, u128::from(all))?.bytes())?;
    Ok(text)
}

// The load that a host reports, or a dash.
fn load(alloc: Global, cluster: &Cluster, load: Option<u64>) -> Result<Text, AllocError>
    ensures { IfOk result (λ text. text ≡ load_text cluster.now load) }
{
    match load {
        None => Text::from_bytes(alloc, b"-"),
        Some(amount) => {
            let kind = kind_for(cluster, &cluster.sched.load_formula);
            amount_text(alloc, kind, amount)
        }
    }
}

// Whether a load threshold is reached.
fn state(cluster: &Cluster, groups: &Groups, at: &InstanceId) -> &'static [u8]
    ensures { result.now ≡ state_text cluster.now groups.now at.now }
{
    if threshold_reached(cluster, groups, at) {
        b"a"
    } else {
        b"-"
    }
}

/// The line of an instance where so many slots are taken.
pub(crate) fn line_of(
    alloc: Global,
    cluster: &Cluster,
    groups: &Groups,
    taken: u128,
    at: &InstanceId,
) -> Result<Text, AllocError>
    ensures { IfOk result (λ line. line ≡ line_with cluster.now groups.now taken at.now) }
{
    let name = instance_text(alloc, at)?;
    let slots = slots(alloc, cluster, groups, taken, at)?;
    let load = load(alloc, cluster, load_at(cluster, &at.host))?;
    let words: [&[u8]; 4] = [
        name.bytes(),
        slots.bytes(),
        load.bytes(),
        state(cluster, groups, at),
    ];
    join_words(alloc, b" ", &words)
}
