//! Rule sets: see the manual page sge_resource_quota.

ghost use Rattle.std.specs.Prelude.{◌≡◌, ◌++◌, ◌∷◌, [], IfOk, OnOk, codes, map};
ghost use Rattle.ge_model_rows.specs.ValueRows.{Amount};
ghost use Rattle.ge_model_rows.specs.Complexes.{pair_text};
ghost use Rattle.ge_model_rows.specs.Values.{flag_text};
ghost use Rattle.ge_model_config.specs.Quotas.{description_text, elements_text, filter_part, filter_text, limits_text, name_part, quota_lines, rule_line};

use crate::lines::put;
use ge_complex::pair_text;
use ge_pieces::{join, join_list};
use ge_rows::{Cluster, Filter, List, QuotaRow, Rule, Table, Text, Twin, Value};
use std::alloc::{AllocError, Global};

// The elements without `!`.
fn put_elements(alloc: Global, elements: &mut List<Text>, plain: &[Text]) -> Result<(), AllocError>
    ensures { OnOk result (elements.new ≡ elements.old ++ plain.now) }
{
    for element in plain {
        elements.push(element.twin(alloc)?)?;
    }
    Ok(())
}

// An element behind a `!`.
fn negated(alloc: Global, element: &Text) -> Result<Text, AllocError>
    ensures { IfOk result (λ text. text ≡ codes "!" ++ element.now) }
{
    let mut text = Text::from_bytes(alloc, b"!")?;
    text.append(element.bytes())?;
    Ok(text)
}

fn put_negated(alloc: Global, elements: &mut List<Text>, without: &[Text]) -> Result<(), AllocError>
    ensures { OnOk result (elements.new
        ≡ elements.old ++ map (λ element. codes "!" ++ element) without.now) }
{
    for element in without {
        elements.push(negated(alloc, element)?)?;
    }
    Ok(())
}

fn elements_of(alloc: Global, filter: &Filter) -> Result<Text, AllocError>
    ensures { IfOk result (λ text. text ≡ elements_text filter.now) }
{
    let mut elements = List::new(alloc);
    put_elements(alloc, &mut elements, filter.plain.items())?;
    put_negated(alloc, &mut elements, filter.without.items())?;
    join(alloc, b",", elements.items())
}

fn append_filter(alloc: Global, line: &mut Text, filter: &Filter) -> Result<(), AllocError>
    ensures { OnOk result (line.new ≡ line.old ++ filter_text filter.now) }
{
    let elements = elements_of(alloc, filter)?;
    if !filter.braces {
        return line.append(elements.bytes());
    }
    line.push(b'{')?;
    line.append(elements.bytes())?;
    line.push(b'}')
}

// A filter behind its name, if the rule has it.
fn append_part(
    alloc: Global,
    line: &mut Text,
    name: &[u8],
    filter: &Option<Filter>,
) -> Result<(), AllocError>
    ensures { OnOk result (line.new ≡ line.old ++ filter_part name.now filter.now) }
{
    match filter {
        None => Ok(()),
        Some(filter) => {
            line.push(b' ')?;
            line.append(name)?;
            line.push(b' ')?;
            append_filter(alloc, line, filter)
        }
    }
}

// The name of a rule, if it has one.
fn append_name(line: &mut Text, name: &[u8]) -> Result<(), AllocError>
    ensures { OnOk result (line.new ≡ line.old ++ name_part name.now) }
{
    match name {
        [] => Ok(()),
        [_, ..] => {
            line.append(b" name ")?;
            line.append(name)
        }
    }
}

fn printed_limits(
    alloc: Global,
    c: &Cluster,
    limits: &Table<Text, u64>,
) -> Result<List<Text>, AllocError>
    ensures { IfOk result (λ texts. texts
        ≡ map (pair_text c.now) (map (λ limit. (limit.0, Amount limit.1)) limits.now)) }
{
    let mut texts = List::new(alloc);
    for (name, limit) in limits.iter() {
        texts.push(pair_text(alloc, c, name, &Value::Amount(*limit))?)?;
    }
    Ok(texts)
}

// What a rule limits.
fn limits_of(alloc: Global, c: &Cluster, limits: &Table<Text, u64>) -> Result<Text, AllocError>
    ensures { IfOk result (λ text. text ≡ limits_text c.now limits.now) }
{
    join_list(alloc, printed_limits(alloc, c, limits)?.items())
}

fn line_of_rule(alloc: Global, c: &Cluster, rule: &Rule) -> Result<Text, AllocError>
    ensures { IfOk result (λ line. line ≡ rule_line c.now rule.now) }
{
    let limits = limits_of(alloc, c, &rule.limits)?;
    let mut line = Text::from_bytes(alloc, b"limit")?;
    append_name(&mut line, rule.name.bytes())?;
    append_part(alloc, &mut line, b"users", &rule.users)?;
    append_part(alloc, &mut line, b"projects", &rule.projects)?;
    append_part(alloc, &mut line, b"pes", &rule.pes)?;
    append_part(alloc, &mut line, b"queues", &rule.queues)?;
    append_part(alloc, &mut line, b"hosts", &rule.hosts)?;
    line.append(b" to ")?;
    line.append(limits.bytes())?;
    Ok(line)
}

fn put_rules(
    alloc: Global,
    lines: &mut List<Text>,
    c: &Cluster,
    rules: &[Rule],
) -> Result<(), AllocError>
    ensures { OnOk result (lines.new ≡ lines.old ++ map (rule_line c.now) rules.now) }
{
    for rule in rules {
        lines.push(line_of_rule(alloc, c, rule)?)?;
    }
    Ok(())
}

fn described(description: &Text) -> &[u8]
    ensures { result.now ≡ description_text description.now }
{
    match description.bytes() {
        [] => b"NONE",
        text => text,
    }
}

fn flag(enabled: bool) -> &'static [u8]
    ensures { result.now ≡ flag_text enabled }
{
    if enabled { b"TRUE" } else { b"FALSE" }
}

/// The lines of a rule set, between braces.
pub(crate) fn print_quota(
    alloc: Global,
    c: &Cluster,
    name: &Text,
    set: &QuotaRow,
) -> Result<List<Text>, AllocError>
    ensures { IfOk result (λ lines. lines ≡ quota_lines c.now name.now set.now) }
{
    let mut lines = List::new(alloc);
    lines.push(Text::from_bytes(alloc, b"{")?)?;
    put(alloc, &mut lines, b"name", name.bytes())?;
    put(
        alloc,
        &mut lines,
        b"description",
        described(&set.description),
    )?;
    put(alloc, &mut lines, b"enabled", flag(set.enabled))?;
    put_rules(alloc, &mut lines, c, set.rules.items())?;
    lines.push(Text::from_bytes(alloc, b"}")?)?;
    Ok(lines)
}
