//! Whether a new table of complexes takes away or changes what is used. Each place that may name a complex is walked
//! once, however many complexes change.

ghost use Rattle.std.specs.Prelude.{◌≡◌, ◌||◌, IfOk, OnOk, flat_map};
ghost use Rattle.std.specs.List.{list_any};
ghost use Rattle.std.specs.Map.{keys_of};
ghost use Rattle.std.specs.Option.{option_copied};
ghost use Rattle.ge_collections.specs.Keyed.{at_text};
ghost use Rattle.ge_model_rows.specs.Complexes.{opening_complexes};
ghost use Rattle.ge_model_rows.specs.Faults.{after_faults};
ghost use Rattle.ge_model_rows.specs.Pieces.{is_one_of};
ghost use Rattle.ge_model_config.specs.Complexes.{use_faults};
ghost use Rattle.ge_model_config.specs.Used.{attr_where, is_complex_used};
ghost use Rattle.ge_config.specs.declared.uses.Harm.{Harm};
ghost use Rattle.ge_config.specs.declared.uses.Harm.TheVariants.{Lost, Freed};
ghost use Rattle.ge_config.specs.Uses.{is_harmed, with_harmed, harmed_names, has_some, host_has_some, queue_has_some, set_has_some, rules_have_some, is_some_used};

use crate::columns::are_same_kind;
use crate::sets::TextSet;
use ge_base::Refusal;
use ge_complex::is_consumed;
use ge_opening_cluster::opening;
use ge_pieces::note;
use ge_rows::{
    Advance, Attr, Cluster, ComplexDef, HostRow, JobTable, List, QueueRow, QuotaRow, Rule, Table,
    Text, Value,
};
use std::alloc::{AllocError, Global};

/// What a new table may do to a complex.
#[derive(Clone, Copy, PartialEq, Eq)]
pub(crate) enum Harm {
    /// It is gone, or of another type.
    Lost,
    /// It is a consumable no more.
    Freed,
}

fn is_lost(old: &ComplexDef, new: Option<&ComplexDef>) -> bool
    ensures { result ≡ is_harmed Lost old.now (option_copied new.entry) }
{
    match new {
        None => true,
        Some(new) => !are_same_kind(old.kind, new.kind),
    }
}

fn is_freed(old: &ComplexDef, new: Option<&ComplexDef>) -> bool
    ensures { result ≡ is_harmed Freed old.now (option_copied new.entry) }
{
    match new {
        None => false,
        Some(new) => is_consumed(old.consumable) && !is_consumed(new.consumable),
    }
}

fn does_harm(harm: Harm, table: &Table<Text, ComplexDef>, name: &Text, old: &ComplexDef) -> bool
    ensures { result ≡ is_harmed harm old.now (at_text table.now name.now) }
{
    let new = table.get(name);
    match harm {
        Harm::Lost => is_lost(old, new),
        Harm::Freed => is_freed(old, new),
    }
}

fn add_harmed<'a>(
    harm: Harm,
    table: &Table<Text, ComplexDef>,
    names: &mut TextSet<'a>,
    name: &'a Text,
    old: &ComplexDef,
) -> Result<(), AllocError>
    ensures { OnOk result (names.new ≡ with_harmed harm table.now names.old (name.now, old.now)) }
{
    if does_harm(harm, table, name, old) {
        names.add(name.bytes())?;
    }
    Ok(())
}

// The names of the complexes that a new table does this harm.
fn harmed<'a>(
    alloc: Global,
    harm: Harm,
    table: &Table<Text, ComplexDef>,
    complexes: &'a Table<Text, ComplexDef>,
) -> Result<TextSet<'a>, AllocError>
    ensures { IfOk result (λ names. names ≡ harmed_names harm table.now complexes.now) }
{
    let mut names = TextSet::new(alloc);
    for (name, old) in complexes.iter() {
        add_harmed(harm, table, &mut names, name, old)?;
    }
    Ok(names)
}

fn has_key_in<V>(names: &TextSet<'_>, table: &Table<Text, V>) -> bool
    ensures { result ≡ list_any (λ name. is_one_of name names.now) (keys_of table.now) }
{
    for name in table.keys() {
        if names.has(name.bytes()) {
            return true;
        }
    }
    false
}

#[tactic(auto, using(crate::proofs::Harms::has_key_among))]
fn names_some<V>(names: &TextSet<'_>, table: &Table<Text, V>) -> bool
    ensures { result ≡ has_some names.now table.now }
{
    has_key_in(names, table)
}

// Each complex of the opening table is used.
#[tactic(auto, unfolding(ge_model_rows::specs::Opening::opening_cluster))]
fn opening_names_some(alloc: Global, names: &TextSet<'_>) -> Result<bool, AllocError>
    ensures { IfOk result (λ named. named ≡ has_some names.now opening_complexes) }
{
    let opened = opening(alloc)?;
    Ok(names_some(names, &opened.complexes))
}

fn hosts_name_some(names: &TextSet<'_>, hosts: &Table<Text, HostRow>) -> bool
    ensures { result ≡ list_any (host_has_some names.now) hosts.now }
{
    for host in hosts.iter() {
        if names_some(names, &host.1.values) || names_some(names, &host.1.load) {
            return true;
        }
    }
    false
}

fn overrides_name_some(names: &TextSet<'_>, overrides: &List<(Text, Table<Text, Value>)>) -> bool
    ensures { result ≡ list_any (λ other. has_some names.now other.1) overrides.now }
{
    for other in overrides.items() {
        if names_some(names, &other.1) {
            return true;
        }
    }
    false
}

fn attr_names_some(names: &TextSet<'_>, attr: &Attr<Table<Text, Value>>) -> bool
    ensures { result ≡ attr_where (has_some names.now) attr.now }
{
    names_some(names, &attr.plain) || overrides_name_some(names, &attr.overrides)
}

fn queues_name_some(names: &TextSet<'_>, queues: &Table<Text, QueueRow>) -> bool
    ensures { result ≡ list_any (queue_has_some names.now) queues.now }
{
    for queue in queues.iter() {
        if attr_names_some(names, &queue.1.values) || attr_names_some(names, &queue.1.thresholds) {
            return true;
        }
    }
    false
}

fn rules_name_some(names: &TextSet<'_>, rules: &[Rule]) -> bool
    ensures { result ≡ list_any (λ rule. has_some names.now rule.limits) rules.now }
{
    rules.iter().any(|rule| names_some(names, &rule.limits))
}

fn sets_name_some(names: &TextSet<'_>, quotas: &Table<Text, QuotaRow>) -> bool
    ensures { result ≡ list_any (set_has_some names.now) quotas.now }
{
    for set in quotas.iter() {
        if rules_name_some(names, set.1.rules.items()) {
            return true;
        }
    }
    false
}

fn jobs_name_some(names: &TextSet<'_>, jobs: &JobTable) -> bool
    ensures { result ≡ list_any (λ job. has_some names.now job.1.request.asked) jobs.now }
{
    for job in jobs.iter() {
        if names_some(names, &job.1.job().request.asked) {
            return true;
        }
    }
    false
}

fn advances_name_some(names: &TextSet<'_>, advances: &Table<u32, Advance>) -> bool
    ensures { result ≡ list_any (λ booked. has_some names.now booked.1.request.asked) advances.now }
{
    for booked in advances.iter() {
        if names_some(names, &booked.1.request.asked) {
            return true;
        }
    }
    false
}

fn name_some_used(alloc: Global, c: &Cluster, names: &TextSet<'_>) -> Result<bool, AllocError>
    ensures { IfOk result (λ used. used ≡ is_some_used c.now names.now) }
{
    let opened = opening_names_some(alloc, names)?;
    Ok(
        opened
            || names.has(c.sched.load_formula.bytes())
            || hosts_name_some(names, &c.hosts)
            || queues_name_some(names, &c.queues)
            || sets_name_some(names, &c.quotas)
            || jobs_name_some(names, &c.jobs)
            || advances_name_some(names, &c.advances),
    )
}

#[tactic(auto, using(crate::proofs::Harms::some_used))]
fn are_used(alloc: Global, c: &Cluster, names: &TextSet<'_>) -> Result<bool, AllocError>
    ensures { IfOk result (λ used. used ≡ list_any (is_complex_used c.now) names.now) }
{
    if names.is_empty() {
        return Ok(false);
    }
    let used = name_some_used(alloc, c, names)?;
    Ok(used)
}

fn breaks_some_use(
    alloc: Global,
    c: &Cluster,
    table: &Table<Text, ComplexDef>,
) -> Result<bool, AllocError>
    ensures { IfOk result (λ broken. broken
        ≡ (list_any (is_complex_used c.now) (harmed_names Lost table.now c.now.complexes)
        || rules_have_some c.now (harmed_names Freed table.now c.now.complexes))) }
{
    let lost = harmed(alloc, Harm::Lost, table, &c.complexes)?;
    let freed = harmed(alloc, Harm::Freed, table, &c.complexes)?;
    let used = are_used(alloc, c, &lost)?;
    Ok(used || sets_name_some(&freed, &c.quotas))
}

/// Notes where a new table of complexes takes one away that is used, changes its type, or makes one that a rule limits
/// a consumable no more.
#[tactic(auto, using(crate::proofs::Harms::uses_noted))]
pub(crate) fn note_uses(
    alloc: Global,
    c: &Cluster,
    table: &Table<Text, ComplexDef>,
    faults: &mut Option<Refusal>,
) -> Result<(), AllocError>
    ensures { OnOk result (faults.new
        ≡ after_faults faults.old (flat_map (use_faults c.now table.now) c.now.complexes)) }
{
    let broken = breaks_some_use(alloc, c, table)?;
    note(faults, broken, Refusal::InUse);
    Ok(())
}
