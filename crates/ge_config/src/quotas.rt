//! Rule sets of resource quotas: sge_resource_quota(5).

ghost use Rattle.std.specs.Prelude.{◌≡◌, ◌∷◌, OnOk, IfOk, [], fold, map, flat_map};
ghost use Rattle.std.specs.List.{list_all};
ghost use Rattle.ge_model_rows.specs.Faults.{after_faults};
ghost use Rattle.ge_model_config.specs.Cited.{cited};
ghost use Rattle.ge_model_config.specs.Pairs.{pair_read};
ghost use Rattle.ge_model_config.specs.Quotas.{elements_of, is_known_user, is_known_host, consumable_fits, put_limit, with_rule_limit, is_rule_name, rule_read, enabled_of, description_of, quota_item};
ghost use Rattle.ge_pieces.specs.Gives.{Reads};

use crate::named::{given_text, note_name};
use crate::pairs::{Fitting, read_pair};
use crate::values::is_there;
use ge_base::Refusal;
use ge_commands::value_or;
use ge_complex::{amount_in, value_of_text};
use ge_limits::{RULE_SETS, RULES};
use ge_model_grammar::RuleLine;
use ge_pieces::{is_a_name, is_word, note};
use ge_rows::{
    Cluster, Filter, Item, Kind, List, ObjectKind, QuotaRow, Rule, Table, Text, Twin, Value,
    twins2, twins4,
};
use ge_site::is_a_group;
use std::alloc::{AllocError, Global};

// Among users an at sign and a name is a user set, which has to be there; all else is a pattern.
fn is_known_behind(alloc: Global, c: &Cluster, first: u8, name: &[u8]) -> Result<bool, AllocError>
    ensures { IfOk result (λ known. known ≡ is_known_user c.now (first ∷ name.now)) }
{
    if first != b'@' {
        return Ok(true);
    }
    let name = Text::from_bytes(alloc, name)?;
    let known = is_there(&c.sets, &name);
    Ok(known)
}

fn is_a_known_user(alloc: Global, c: &Cluster, element: &[u8]) -> Result<bool, AllocError>
    ensures { IfOk result (λ known. known ≡ is_known_user c.now element.now) }
{
    match element {
        [first, name @ ..] => is_known_behind(alloc, c, *first, name),
        [] => Ok(true),
    }
}

fn are_known_users(alloc: Global, c: &Cluster, elements: &[Text]) -> Result<bool, AllocError>
    ensures { IfOk result (λ known. known ≡ list_all (is_known_user c.now) elements.now) }
{
    for element in elements {
        match is_a_known_user(alloc, c, element.bytes()) {
            Ok(true) => {}
            Ok(false) => return Ok(false),
            Err(want) => return Err(want),
        }
    }
    Ok(true)
}

fn note_users(
    alloc: Global,
    c: &Cluster,
    filter: &Option<Filter>,
    faults: &mut Option<Refusal>,
) -> Result<(), AllocError>
    ensures { OnOk result (faults.new
        ≡ after_faults faults.old (cited (is_known_user c.now) (elements_of filter.now))) }
{
    if let Some(filter) = filter {
        let plain = are_known_users(alloc, c, filter.plain.items())?;
        let without = are_known_users(alloc, c, filter.without.items())?;
        note(faults, !(plain && without), Refusal::NoSuchObject);
    }
    Ok(())
}

// Among hosts an at sign and a name is a host group, which has to be there; all else is a pattern.
#[tactic(auto, using(crate::proofs::Elements::known_host))]
fn is_a_known_host(c: &Cluster, element: &Text) -> bool
    ensures { result ≡ is_known_host c.now element.now }
{
    !is_a_group(element.bytes()) || is_there(&c.groups, element)
}

fn are_known_hosts(c: &Cluster, elements: &[Text]) -> bool
    ensures { result ≡ list_all (is_known_host c.now) elements.now }
{
    elements.iter().all(|element| is_a_known_host(c, element))
}

fn note_hosts(c: &Cluster, filter: &Option<Filter>, faults: &mut Option<Refusal>)
    ensures { faults.new ≡ after_faults faults.old (cited (is_known_host c.now)
        (elements_of filter.now)) }
{
    if let Some(filter) = filter {
        let plain = are_known_hosts(c, filter.plain.items());
        let without = are_known_hosts(c, filter.without.items());
        note(faults, !(plain && without), Refusal::NoSuchObject);
    }
}

fn put(limits: &mut Table<Text, u64>, pair: Option<(Text, Value)>) -> Result<(), AllocError>
    ensures { OnOk result (limits.new ≡ put_limit limits.old pair) }
{
    match pair {
        None => Ok(()),
        Some((name, value)) => {
            limits.insert(name, amount_in(&value))?;
            Ok(())
        }
    }
}

fn add_limit(
    alloc: Global,
    c: &Cluster,
    limits: &mut Table<Text, u64>,
    pair: &(Text, Text),
    faults: &mut Option<Refusal>,
) -> Result<(), AllocError>
    ensures limits { OnOk result
        (limits.new ≡ put_limit limits.old (pair_read c.now (consumable_fits c.now) pair.now).0) }
    ensures faults { OnOk result
        (faults.new ≡ after_faults faults.old (pair_read c.now
        (consumable_fits c.now) pair.now).1) }
{
    let name = pair.0.twin(alloc)?;
    let limit = read_pair(alloc, c, Fitting::Consumables, name, pair.1.bytes(), faults)?;
    put(limits, limit)
}

fn read_limits(
    alloc: Global,
    c: &Cluster,
    pairs: &[(Text, Text)],
    faults: &mut Option<Refusal>,
) -> Result<Table<Text, u64>, AllocError>
    ensures { Reads result faults.old faults.new (fold (with_rule_limit c.now) ([], []) pairs.now) }
{
    let mut limits = Table::new(alloc);
    for pair in pairs {
        add_limit(alloc, c, &mut limits, pair, faults)?;
    }
    Ok(limits)
}

// A rule may have no name.
#[tactic(auto, using(crate::proofs::Elements::rule_name))]
fn may_name_rule(name: &[u8]) -> bool
    ensures { result ≡ is_rule_name name.now }
{
    name.len() == 0 || is_a_name(name)
}

// A rule: its name, its filters and what it limits.
fn read_rule(
    alloc: Global,
    c: &Cluster,
    line: &RuleLine,
    faults: &mut Option<Refusal>,
) -> Result<Rule, AllocError>
    ensures { Reads result faults.old faults.new (rule_read c.now line.now) }
{
    let (name, users, projects, pes) = twins4(
        alloc,
        &line.name,
        &line.users,
        &line.projects,
        &line.pes,
    )?;
    let (queues, hosts) = twins2(alloc, &line.queues, &line.hosts)?;
    note(faults, !may_name_rule(line.name.bytes()), Refusal::BadValue);
    note_users(alloc, c, &line.users, faults)?;
    note_hosts(c, &line.hosts, faults);
    let limits = read_limits(alloc, c, line.limits.items(), faults)?;
    Ok(Rule {
        name,
        users,
        projects,
        pes,
        queues,
        hosts,
        limits,
    })
}

fn read_rules(
    alloc: Global,
    c: &Cluster,
    lines: &[RuleLine],
    faults: &mut Option<Refusal>,
) -> Result<List<Rule>, AllocError>
    ensures rules { IfOk result (λ rules. rules ≡ map (λ rule. rule.0) (map
        (rule_read c.now) lines.now)) }
    ensures faults { OnOk result (faults.new
        ≡ after_faults faults.old (flat_map (λ rule. rule.1) (map (rule_read c.now) lines.now))) }
{
    let mut rules = List::new(alloc);
    for line in lines {
        let rule = read_rule(alloc, c, line, faults)?;
        rules.push(rule)?;
    }
    Ok(rules)
}

// Whether a rule set counts.
fn read_flag(value: Option<Value>, faults: &mut Option<Refusal>) -> bool
    ensures value { result ≡ (enabled_of value).0 }
    ensures faults { faults.new ≡ after_faults faults.old (enabled_of value).1 }
{
    match value {
        Some(Value::Flag(enabled)) => enabled,
        Some(Value::Amount(_)) | Some(Value::Word(_)) | None => {
            note(faults, true, Refusal::BadValue);
            false
        }
    }
}

// A description of NONE is none.
fn read_description(alloc: Global, text: &[u8]) -> Result<Text, AllocError>
    ensures { IfOk result (λ description. description ≡ description_of text.now) }
{
    if is_word(text, b"NONE") {
        Ok(Text::new(alloc))
    } else {
        Text::from_bytes(alloc, text)
    }
}

/// A rule set.
#[tactic(auto, unfolding(ge_model_config::specs::Quotas::quota_item))]
pub fn read_quota(
    alloc: Global,
    c: &Cluster,
    adding: bool,
    values: &[(Text, Text)],
    lines: &[RuleLine],
    faults: &mut Option<Refusal>,
) -> Result<Item, AllocError>
    ensures { Reads result faults.old faults.new (quota_item c.now adding values.now lines.now) }
{
    let name = given_text(alloc, values, b"name", b"")?;
    let description = read_description(alloc, value_or(values, b"description", b"NONE"))?;
    let enabled = value_of_text(alloc, Kind::Bool, value_or(values, b"enabled", b"FALSE"))?;
    note_name(
        faults,
        ObjectKind::Quota,
        RULE_SETS,
        &c.quotas,
        adding,
        &name,
    );
    let enabled = read_flag(enabled, faults);
    let rules = read_rules(alloc, c, lines, faults)?;
    note(faults, lines.len() > RULES, Refusal::Limit);
    Ok(Item::Quota(
        name,
        QuotaRow {
            description,
            enabled,
            rules,
        },
    ))
}
