//! Usage as it counts at a moment: half of it is left with each halftime.

ghost use Rattle.std.specs.Prelude.{◌≡◌, ◌&&◌, ◌/◌, ◌*◌, ◌-◌, filter};
ghost use Rattle.ge_base.specs.Fixed.{halved_by};
ghost use Rattle.ge_model_jobs.specs.Usage.{epoch_of, decayed, is_usage_of, usage_in, usage_at as usage_there};

use ge_base::{halved, sum_of};
use ge_rows::{Cluster, Text};

/// An amount of an epoch, as it counts in a later one. One of an epoch to come counts in full.
pub(crate) fn decay(amount: u128, epoch: u64, now_epoch: u64) -> u128
    ensures { result ≡ decayed amount epoch now_epoch }
{
    halved(amount, now_epoch.saturating_sub(epoch))
}

/// The epoch of a moment under a halftime in hours.
pub(crate) fn epoch(moment: u64, halftime: u64) -> u64
    ensures { result ≡ epoch_of moment halftime }
{
    if halftime == 0 {
        0
    } else {
        (u128::from(moment) / (3600 * u128::from(halftime))) as u64
    }
}

fn is_of(user: &Text, project: &Text, key: &(Text, Text, u64)) -> bool
    ensures { result ≡ is_usage_of user.now project.now (key.now, 0) }
{
    key.0.bytes() == user.bytes() && key.1.bytes() == project.bytes()
}

fn usage_by(c: &Cluster, user: &Text, project: &Text, now_epoch: u64) -> u128
    ensures { result ≡ usage_in now_epoch (filter (is_usage_of user.now project.now) c.now.usage) }
{
    let mut total: u128 = 0;
    for (key, amount) in c.usage.iter() {
        if is_of(user, project, key) {
            total = sum_of(total, decay(*amount, key.2, now_epoch));
        }
    }
    total
}

/// The usage of a user and project at a moment, in the units of `usage_weight_list`, cut at 2^128 - 1: all of their epochs
/// as they count then (share_tree, sched_conf).
#[tactic(auto, unfolding(ge_model_jobs::specs::Usage::usage_at))]
pub fn usage_at(c: &Cluster, user: &Text, project: &Text, now: u64) -> u128
    ensures { result ≡ usage_there c.now user.now project.now now }
{
    usage_by(c, user, project, epoch(now, c.sched.halftime))
}
