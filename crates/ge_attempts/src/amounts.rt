// What any job asks of values of hosts, at least: where less is left no task starts, whatever its job.
ghost use Rattle.std.specs.Prelude.{◌≡◌, ◌≤◌, true, IfOk, OnOk, fold};
ghost use Rattle.std.specs.List.{list_all};
ghost use Rattle.std.specs.Option.{option_copied};
ghost use Rattle.ge_collections.specs.Keyed.{text_eq};
ghost use Rattle.ge_capacities.specs.Found.{amount_or_default};
ghost use Rattle.ge_model_place.specs.Limits.{greatest_demand};
ghost use Rattle.ge_model_place.specs.Opening.{slots_name};
ghost use Rattle.ge_attempts.specs.Amounts as asking;
ghost use Rattle.ge_attempts.specs.Amounts.{amount_at, IsLeastOf, IsLeast, number_in, AreLeast};
ghost use Rattle.ge_attempts.specs.Closing.{asked_by_all};

use crate::setting::Setting;
use ge_complex::{amount_in, complex_at, is_consumable};
use ge_pieces::{is_among, is_word};
use ge_rows::{
    Cluster, ComplexDef, JobFacts, JobTable, ShortRow, Table, Text, Twin, Value, is_time, job_at,
};
use std::alloc::{AllocError, Global};
use std::collections::BTreeMap;

/// No job asks less of a value for one slot, by the value's name.
pub(crate) type LeastAmounts = Table<Text, u64>;

fn is_slots(name: &Text) -> bool
    ensures { result ≡ text_eq name.now slots_name }
{
    is_word(name.bytes(), b"slots")
}

fn asked_amount(complex: &ComplexDef, asked: Option<&Value>) -> u64
    ensures { result ≡ amount_or_default complex.now (option_copied asked.entry) }
{
    match asked {
        Some(value) => amount_in(value),
        None => amount_in(&complex.fallback),
    }
}

fn asked_at(jobs: &JobTable, complex: &ComplexDef, name: &Text, number: u32) -> u64
    ensures { result ≡ amount_at complex.now name.now jobs.now number }
{
    match job_at(jobs, number) {
        Some(job) => asked_amount(complex, job.request.asked.get(name)),
        None => 0,
    }
}

// A job that asks no less of anything isn't looked up.
fn lesser_asked(
    jobs: &JobTable,
    complex: &ComplexDef,
    name: &Text,
    least: u64,
    number: u32,
    row: &ShortRow<JobFacts>,
) -> u64
    ensures { result ≡ asking.lesser_asked complex.now name.now jobs.now least
        (number, row.now) }
{
    if row.facts.least < least {
        least.min(asked_at(jobs, complex, name, number))
    } else {
        least
    }
}

fn least_in_rows(
    jobs: &JobTable,
    rows: &BTreeMap<u32, ShortRow<JobFacts>>,
    complex: &ComplexDef,
    name: &Text,
    first: u64,
) -> u64
    ensures { result ≡ fold (asking.lesser_asked complex.now name.now jobs.now) first
        rows.now.entries }
{
    let mut least = first;
    for (number, row) in rows.iter() {
        least = lesser_asked(jobs, complex, name, least, *number, row);
    }
    least
}

// What a job asks that doesn't ask for a name itself, where there may be such a job.
fn unasked(complex: &ComplexDef, name: &Text, names: &[Text]) -> u64
    ensures { result ≡ asking.unasked complex.now name.now names.now }
{
    if is_among(name, names) {
        u64::MAX
    } else {
        amount_in(&complex.fallback)
    }
}

// What no job asks less of. Short rows don't tell how much of a time is asked for.
fn least_asked(cluster: &Cluster, complex: &ComplexDef, name: &Text, names: &[Text]) -> u64
    requires { list_all (asked_by_all cluster.now) names.now ≡ true }
    ensures least { IsLeastOf complex.now name.now cluster.now.jobs result }
    ensures cut { result ≤ greatest_demand }
{
    let first = unasked(complex, name, names);
    if first == 0 {
        return 0;
    }
    if is_time(name) {
        return 0;
    }
    match cluster.jobs.shorts() {
        Some(shorts) => least_in_rows(&cluster.jobs, shorts.rows, complex, name, first),
        None => 0,
    }
}

// What a job asks of a name at least: one of slots, and nothing of what is no consumable.
fn least_of(cluster: &Cluster, name: &Text, names: &[Text]) -> u64
    requires { list_all (asked_by_all cluster.now) names.now ≡ true }
    ensures { IsLeast cluster.now name.now result }
{
    if is_slots(name) {
        return 1;
    }
    if !is_consumable(cluster, name) {
        return 0;
    }
    match complex_at(cluster, name) {
        Some(complex) => least_asked(cluster, complex, name, names),
        None => 0,
    }
}

fn note_least(
    alloc: Global,
    cluster: &Cluster,
    names: &[Text],
    amounts: &mut LeastAmounts,
    name: &Text,
) -> Result<(), AllocError>
    requires all { list_all (asked_by_all cluster.now) names.now ≡ true }
    requires least { AreLeast cluster.now amounts.old }
    ensures { OnOk result (AreLeast cluster.now amounts.new) }
{
    let least = least_of(cluster, name, names);
    let key = name.twin(alloc)?;
    let _before = amounts.insert(key, least)?;
    Ok(())
}

/// What jobs of the table ask at least of each value that a host has, worked out once a name, where each asks itself for these.
pub(crate) fn least_amounts(
    alloc: Global,
    at: &Setting<'_>,
    names: &[Text],
) -> Result<LeastAmounts, AllocError>
    requires { list_all (asked_by_all at.now.cluster.now) names.now ≡ true }
    ensures { IfOk result (λ amounts. AreLeast at.now.cluster.now amounts) }
{
    let mut amounts = Table::new(alloc);
    for name in at.holders.keys() {
        note_least(alloc, at.cluster, names, &mut amounts, name)?;
    }
    Ok(amounts)
}

/// The least amount of a value; 0 where none is known.
pub(crate) fn least_in(amounts: &LeastAmounts, name: &Text) -> u64
    ensures { result ≡ number_in amounts.now name.now }
{
    match amounts.get(name) {
        Some(amount) => *amount,
        None => 0,
    }
}
