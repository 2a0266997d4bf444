// Usage and its decay: share_tree, sched_conf.
ghost use Rattle.std.specs.Prelude.{◌≡◌, ◌==◌, IfOk, OnOk, if◌then◌else◌, [], fold};
ghost use Rattle.ge_model_jobs.specs.Usage.{epoch_of, decayed, usage_of, usage_at_key, with_usage, with_usage_row, converted};

use crate::accounts::Told;
use ge_base::{halved, product_of, sum_of};
use ge_rows::{Sched, Table, Text, twins2};
use std::alloc::{AllocError, Global};

/// A user, a project and an epoch, for which usage is kept.
pub(crate) type UsageKey = (Text, Text, u64);

/// Usage by user, project and epoch.
pub(crate) type UsageTable = Table<UsageKey, u128>;

/// The epoch of a moment under a halftime in hours; there is one alone where the halftime is 0.
pub(crate) fn epoch(moment: u64, halftime: u64) -> u64
    ensures { result ≡ epoch_of moment halftime }
{
    if halftime == 0 {
        0
    } else {
        (u128::from(moment) / (3600 * u128::from(halftime))) as u64
    }
}

// An amount of an epoch, as it counts in a later one. One of an epoch to come counts in full.
fn decay(amount: u128, epoch: u64, now_epoch: u64) -> u128
    ensures { result ≡ decayed amount epoch now_epoch }
{
    halved(amount, now_epoch.saturating_sub(epoch))
}

/// The usage of what is told of an end, by the weights of `usage_weight_list`, which are in millionths.
pub(crate) fn amount_of(sched: &Sched, told: &Told) -> u128
    ensures { result ≡ usage_of sched.now told.now.time told.now.memory told.now.transfer }
{
    let time = product_of(u128::from(told.time), u128::from(sched.u_cpu));
    let memory = product_of(u128::from(told.memory), u128::from(sched.u_mem));
    let transfer = product_of(u128::from(told.transfer), u128::from(sched.u_io));
    let sum = sum_of(sum_of(time, memory), transfer);
    (sum / 1_000_000).min(1_152_921_504_606_846_975)
}

fn usage_so_far(usage: &UsageTable, key: &UsageKey) -> u128
    ensures { result ≡ usage_at_key usage.now key.now }
{
    match usage.get(key) {
        Some(amount) => *amount,
        None => 0,
    }
}

/// Adds an amount at a key; an amount of 0 makes a row too.
pub(crate) fn add_usage(
    usage: &mut UsageTable,
    key: UsageKey,
    amount: u128,
) -> Result<(), AllocError>
    ensures { OnOk result (usage.new ≡ with_usage usage.old key amount) }
{
    let sum = sum_of(usage_so_far(usage, &key), amount);
    let _before = usage.insert(key, sum)?;
    Ok(())
}

// Adds a row of an epoch, as it counts in another, under that epoch's number by the new halftime.
fn add_row(
    alloc: Global,
    usage: &mut UsageTable,
    epoch: u64,
    new_epoch: u64,
    key: &UsageKey,
    amount: u128,
) -> Result<(), AllocError>
    ensures { OnOk result (usage.new ≡ with_usage_row epoch new_epoch usage.old (key.now, amount)) }
{
    let (user, project) = twins2(alloc, &key.0, &key.1)?;
    add_usage(
        usage,
        (user, project, new_epoch),
        decay(amount, key.2, epoch),
    )?;
    Ok(())
}

fn in_new_epoch(
    alloc: Global,
    rows: &UsageTable,
    epoch: u64,
    new_epoch: u64,
) -> Result<UsageTable, AllocError>
    ensures { IfOk result (λ usage. usage ≡ fold (with_usage_row epoch new_epoch) [] rows.now) }
{
    let mut usage = Table::new(alloc);
    for (key, amount) in rows.iter() {
        add_row(alloc, &mut usage, epoch, new_epoch, key, *amount)?;
    }
    Ok(usage)
}

/// Where the halftime changes at a moment, each row counts from then on as it counts at that moment, in the moment's epoch
/// under the new halftime.
pub(crate) fn convert(
    alloc: Global,
    usage: &mut UsageTable,
    moment: u64,
    halftime: u64,
    new_halftime: u64,
) -> Result<(), AllocError>
    ensures { OnOk result (usage.new ≡ (if new_halftime == halftime then usage.old
        else converted moment halftime new_halftime usage.old)) }
{
    if new_halftime == halftime {
        return Ok(());
    }
    let new_epoch = epoch(moment, new_halftime);
    *usage = in_new_epoch(alloc, usage, epoch(moment, halftime), new_epoch)?;
    Ok(())
}
