//! What an instance offers of what jobs ask for (complex, `requestable`; queue_conf and host_conf, `complex_values`).

ghost use Rattle.std.specs.Prelude.{◌≡◌, ◌&&◌, ◌||◌, codes};
ghost use Rattle.std.specs.List.{list_all};
ghost use Rattle.std.specs.Option.{option_copied};
ghost use Rattle.ge_collections.specs.Keyed.{text_eq};
ghost use Rattle.ge_model_rows.specs.Complexes.{has_consumable};
ghost use Rattle.ge_model_place.specs.Opening.{admits_value, has_value, host_names, is_configured, consumes_what_is, is_forced, asks_for, meets_forced};
ghost use Rattle.ge_opening.specs.Forced.{is_any_forced};

use crate::looking::Instance;
use crate::matching::is_met;
use ge_complex::{complex_at, is_consumed};
use ge_pieces::is_word;
use ge_rows::{Cluster, ComplexDef, HostRow, Job, Requestable, Table, Text, Value};
use ge_site::{at_host, resolved_at};

fn names(values: &Table<Text, Value>, name: &Text) -> bool
    ensures { result ≡ has_value values.now name.now }
{
    values.get(name).is_some()
}

fn is_named_on(host: Option<&HostRow>, name: &Text) -> bool
    ensures { result ≡ host_names name.now (option_copied host.entry) }
{
    match host {
        None => false,
        Some(row) => names(&row.values, name),
    }
}

// Whether the queue there, its host or the host of all has an amount of it.
fn has_amount(here: &Instance<'_>, name: &Text) -> bool
    ensures { result ≡ is_configured here.now.cluster.now here.now.groups.now here.now.at.now
        here.now.queue.now name.now }
{
    is_word(name.bytes(), b"slots")
        || names(
            at_host(&here.queue.values, here.groups, &here.at.host),
            name,
        )
        || names(&here.host.values, name)
        || is_named_on(here.global, name)
}

// Whether the row of a name makes it a consumable.
fn is_consumable_by(name: &Text, complex: Option<&ComplexDef>) -> bool
    ensures { result
        ≡ (text_eq name.now (codes "slots") || has_consumable (option_copied complex.entry)) }
{
    if is_word(name.bytes(), b"slots") {
        return true;
    }
    match complex {
        None => false,
        Some(complex) => is_consumed(complex.consumable),
    }
}

// Whether an attribute that is asked for is there: an amount of a consumable, of any other a value that admits what is asked.
fn offers_one(here: &Instance<'_>, name: &Text, asked: &Value) -> bool
    ensures { result
        ≡ (admits_value here.now.cluster.now here.now.groups.now here.now.at.now (name.now, asked.now)
        && consumes_what_is here.now.cluster.now here.now.groups.now here.now.at.now
        here.now.queue.now (name.now, asked.now)) }
{
    let complex = complex_at(here.cluster, name);
    if is_consumable_by(name, complex) {
        has_amount(here, name)
    } else {
        let there = resolved_at(here.cluster, here.groups, here.global, here.at, name);
        is_met(asked, complex, there)
    }
}

fn offers_each(here: &Instance<'_>, asked: &Table<Text, Value>) -> bool
    ensures { result ≡ list_all (λ one.
        admits_value here.now.cluster.now here.now.groups.now here.now.at.now one
        && consumes_what_is here.now.cluster.now here.now.groups.now here.now.at.now
        here.now.queue.now one) asked.now }
{
    for (name, value) in asked.iter() {
        if !offers_one(here, name, value) {
            return false;
        }
    }
    true
}

fn is_only_for_askers(requestable: Requestable) -> bool
    ensures { result ≡ is_forced requestable }
{
    match requestable {
        Requestable::No => false,
        Requestable::Yes => false,
        Requestable::Forced => true,
    }
}

fn is_asking_for(job: &Job, name: &Text) -> bool
    ensures { result ≡ asks_for job.now name.now }
{
    is_word(name.bytes(), b"slots") || names(&job.request.asked, name)
}

/// Whether any complex is `FORCED` (complex, `requestable`). Takes no memory.
pub fn any_forced(cluster: &Cluster) -> bool
    ensures { result ≡ is_any_forced cluster.now }
{
    for (_, complex) in cluster.complexes.iter() {
        if is_only_for_askers(complex.requestable) {
            return true;
        }
    }
    false
}

// Whether the job asks for each attribute that is there only for those who do.
fn asks_for_all(here: &Instance<'_>, job: &Job) -> bool
    ensures { result ≡ list_all (meets_forced here.now.cluster.now here.now.groups.now job.now
        here.now.at.now here.now.queue.now) here.now.cluster.now.complexes }
{
    for (name, complex) in here.cluster.complexes.iter() {
        if is_only_for_askers(complex.requestable)
            && !is_asking_for(job, name)
            && has_amount(here, name)
        {
            return false;
        }
    }
    true
}

// Whether the job asks for each attribute that is there only for those who do. Where none is `FORCED`, the complexes aren't gone
// through.
fn meets_all_forced(here: &Instance<'_>, job: &Job) -> bool
    ensures { result ≡ list_all (meets_forced here.now.cluster.now here.now.groups.now job.now
        here.now.at.now here.now.queue.now) here.now.cluster.now.complexes }
{
    if here.may_force {
        asks_for_all(here, job)
    } else {
        true
    }
}

/// Whether an instance has what a job asks for, and keeps nothing for jobs that ask for it, where this one doesn't: each
/// attribute that is asked for admits the value, each consumable that is asked for is configured, and each that is `FORCED` and
/// configured is asked for (complex).
pub(crate) fn offers(here: &Instance<'_>, job: &Job) -> bool
    ensures { result
        ≡ (list_all (admits_value here.now.cluster.now here.now.groups.now here.now.at.now)
        job.now.request.asked
        && list_all (consumes_what_is here.now.cluster.now here.now.groups.now here.now.at.now
        here.now.queue.now) job.now.request.asked
        && list_all (meets_forced here.now.cluster.now here.now.groups.now job.now here.now.at.now
        here.now.queue.now) here.now.cluster.now.complexes) }
{
    offers_each(here, &job.request.asked) && meets_all_forced(here, job)
}
