//! A rule of a rule set, as it is written behind `limit`: sge_resource_quota(5).

ghost use Rattle.std.specs.Prelude.{◌≡◌, [], IfOk, map, codes};
ghost use Rattle.std.specs.List.{list_all};
ghost use Rattle.ge_model_rows.specs.Pieces.{list_items, joined_by};
ghost use Rattle.ge_model_grammar.specs.Rules.{bare_rule, with_filter, filtered_by, has_equals, written_resource, with_resources, rule_with_rest, rule_in, rule_line_of};
ghost use Rattle.ge_pieces.specs.Gives.{Gives, Leaves};

use crate::filters::read_filter;
use ge_model_grammar::RuleLine;
use ge_pieces::{ReadFault, before, behind, has, is_word, items_of_list, join, words_between};
use ge_rows::{Filter, List, Text};
use std::alloc::{AllocError, Global};

fn rule_without_filters(alloc: Global, name: &[u8]) -> Result<RuleLine, AllocError>
    ensures { IfOk result (λ rule. rule ≡ bare_rule name.now) }
{
    let name = Text::from_bytes(alloc, name)?;
    Ok(RuleLine {
        name,
        users: None,
        projects: None,
        pes: None,
        queues: None,
        hosts: None,
        limits: List::new(alloc),
    })
}

// The rule with a filter more, where it has none of this sort.
fn put_filter(rule: &mut RuleLine, word: &[u8], filter: Filter) -> Result<(), ReadFault>
    ensures { Leaves result rule.new (with_filter rule.old word.now filter) }
{
    if is_word(word, b"users") && rule.users.is_none() {
        rule.users = Some(filter);
    } else if is_word(word, b"projects") && rule.projects.is_none() {
        rule.projects = Some(filter);
    } else if is_word(word, b"pes") && rule.pes.is_none() {
        rule.pes = Some(filter);
    } else if is_word(word, b"queues") && rule.queues.is_none() {
        rule.queues = Some(filter);
    } else if is_word(word, b"hosts") && rule.hosts.is_none() {
        rule.hosts = Some(filter);
    } else {
        return Err(ReadFault::Syntax);
    }
    Ok(())
}

fn add_filter(alloc: Global, rule: &mut RuleLine, word: &[u8], text: &[u8]) -> Result<(), ReadFault>
    ensures { Leaves result rule.new (filtered_by rule.old word.now text.now) }
{
    let filter = read_filter(alloc, text)?;
    put_filter(rule, word, filter)
}

fn has_a_limit(item: &Text) -> bool
    ensures { result ≡ has_equals item.now }
{
    has(b'=', item.bytes())
}

fn have_limits(items: &[Text]) -> bool
    ensures { result ≡ list_all has_equals items.now }
{
    items.iter().all(|item| has_a_limit(item))
}

fn read_resource(alloc: Global, item: &[u8]) -> Result<(Text, Text), AllocError>
    ensures { IfOk result (λ resource. resource ≡ written_resource item.now) }
{
    let name = Text::from_bytes(alloc, before(b'=', item))?;
    let limit = Text::from_bytes(alloc, behind(b'=', item))?;
    Ok((name, limit))
}

fn read_resources(alloc: Global, items: &[Text]) -> Result<List<(Text, Text)>, AllocError>
    ensures { IfOk result (λ resources. resources ≡ map written_resource items.now) }
{
    let mut resources = List::new(alloc);
    for item in items {
        let resource = read_resource(alloc, item.bytes())?;
        resources.push(resource)?;
    }
    Ok(resources)
}

// The rule with its resources: at least one, each with its limit.
fn put_resources(alloc: Global, rule: &mut RuleLine, items: &[Text]) -> Result<(), ReadFault>
    ensures { Leaves result rule.new (with_resources rule.old items.now) }
{
    if items.is_empty() || !have_limits(items) {
        return Err(ReadFault::Syntax);
    }
    rule.limits = read_resources(alloc, items)?;
    Ok(())
}

fn read_limits(alloc: Global, rule: &mut RuleLine, words: &[Text]) -> Result<(), ReadFault>
    ensures { Leaves result rule.new (with_resources rule.old (list_items (joined_by (codes " ") words.now))) }
{
    let list = join(alloc, b" ", words)?;
    let items = items_of_list(alloc, list.bytes())?;
    put_resources(alloc, rule, items.items())
}

// Filters in any order, each at most once, then `to` and the resources.
fn read_rest(alloc: Global, rule: &mut RuleLine, words: &[Text]) -> Result<(), ReadFault>
    ensures { Leaves result rule.new (rule_with_rest rule.old words.now) }
{
    let mut rest = words;
    while let Some((word, others)) = rest.split_first() {
        let Some((text, behind)) = others.split_first() else {
            return Err(ReadFault::Syntax);
        };
        if is_word(word.bytes(), b"to") {
            return read_limits(alloc, rule, others);
        }
        match add_filter(alloc, rule, word.bytes(), text.bytes()) {
            Ok(()) => rest = behind,
            Err(fault) => return Err(fault),
        }
    }
    Err(ReadFault::Syntax)
}

fn read_named(alloc: Global, name: &[u8], words: &[Text]) -> Result<RuleLine, ReadFault>
    ensures { Gives result (rule_with_rest (bare_rule name.now) words.now) }
{
    let mut rule = rule_without_filters(alloc, name)?;
    match read_rest(alloc, &mut rule, words) {
        Ok(()) => Ok(rule),
        Err(fault) => Err(fault),
    }
}

// A rule's words: its name, where it has one, stands before its filters.
fn read_words(alloc: Global, words: &[Text]) -> Result<RuleLine, ReadFault>
    ensures { Gives result (rule_in words.now) }
{
    match words {
        [] | [_] => Err(ReadFault::Syntax),
        [word, name, rest @ ..] => {
            if is_word(word.bytes(), b"name") {
                read_named(alloc, name.bytes(), rest)
            } else {
                read_named(alloc, b"", words)
            }
        }
    }
}

/// A rule as it is written behind `limit`.
#[tactic(auto, unfolding(ge_model_grammar::specs::Rules::rule_line_of))]
pub(crate) fn read_rule(alloc: Global, text: &[u8]) -> Result<RuleLine, ReadFault>
    ensures { Gives result (rule_line_of text.now) }
{
    let words = words_between(alloc, text)?;
    read_words(alloc, words.items())
}
