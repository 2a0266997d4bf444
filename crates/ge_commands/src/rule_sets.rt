//! The body of a rule set: `{`, its attributes and rules, and `}` (sge_resource_quota(5)).

ghost use Rattle.std.specs.Prelude.{◌≡◌, ◌++◌, ◌∷◌, [], ◌&&◌, not, map, length, option_map, codes};
ghost use Rattle.ge_collections.specs.Keyed.{text_eq};
ghost use Rattle.ge_model_rows.specs.Pieces.{is_empty, trimmed};
ghost use Rattle.ge_model_grammar.specs.Bodies.{attribute_line, with_attribute, has_attribute, rule_set_attributes, finished_rules, is_limit, rule_set_from, rule_set_body};
ghost use Rattle.ge_model_grammar.specs.Rules.{rule_line_of};
ghost use Rattle.ge_pieces.specs.Gives.{Gives, Leaves};
ghost use Rattle.ge_commands.specs.RuleSets.{with_rule, with_line};

use crate::attributes::{add_attribute, has_attribute};
use crate::rules::read_rule;
use ge_model_grammar::{Body, RuleLine};
use ge_pieces::{ReadFault, behind_word, first_word, is_word, trimmed_text};
use ge_rows::{List, Text};
use std::alloc::Global;

// The attributes of a rule set beside its rules.
fn set_attributes() -> &'static [&'static [u8]]
    ensures { map (λ name. name.now) result.now ≡ rule_set_attributes }
{
    &[b"name", b"description", b"enabled"]
}

fn is_a_limit(line: &[u8]) -> bool
    ensures { result ≡ is_limit line.now }
{
    is_word(first_word(trimmed_text(line)), b"limit")
}

fn add_rule(alloc: Global, rules: &mut List<RuleLine>, line: &[u8]) -> Result<(), ReadFault>
    ensures { Leaves result rules.new (with_rule rules.old (rule_line_of (attribute_line line.now).1)) }
{
    let rule = read_rule(alloc, trimmed_text(behind_word(trimmed_text(line))))?;
    rules.push(rule)?;
    Ok(())
}

fn add_line(
    alloc: Global,
    values: &mut List<(Text, Text)>,
    rules: &mut List<RuleLine>,
    line: &[u8],
) -> Result<(), ReadFault>
    ensures { Leaves result (values.new, rules.new) (with_line values.old rules.old line.now) }
{
    if is_a_limit(line) {
        add_rule(alloc, rules, line)
    } else {
        add_attribute(alloc, set_attributes(), values, line)
    }
}

fn is_the_end(line: &[u8]) -> bool
    ensures { result ≡ text_eq (trimmed line.now) (codes "}") }
{
    is_word(trimmed_text(line), b"}")
}

// A rule set has a name and at least one rule.
fn finish(values: List<(Text, Text)>, rules: List<RuleLine>) -> Result<Body, ReadFault>
    ensures { Gives result (finished_rules values rules) }
{
    if has_attribute(values.items(), b"name") && !rules.is_empty() {
        Ok(Body::RuleSet(values, rules))
    } else {
        Err(ReadFault::Syntax)
    }
}

// The lines behind the `{`, up to the `}` that ends them.
fn read_inside(alloc: Global, lines: &[Text]) -> Result<Body, ReadFault>
    ensures { Gives result (rule_set_from [] [] lines.now) }
{
    let mut values = List::new(alloc);
    let mut rules = List::new(alloc);
    let mut rest = lines;
    while let Some((line, others)) = rest.split_first() {
        if is_the_end(line.bytes()) {
            return if others.is_empty() {
                finish(values, rules)
            } else {
                Err(ReadFault::Syntax)
            };
        }
        match add_line(alloc, &mut values, &mut rules, line.bytes()) {
            Ok(()) => rest = others,
            Err(fault) => return Err(fault),
        }
    }
    Err(ReadFault::Syntax)
}

/// The body of a rule set.
#[tactic(auto, unfolding(ge_model_grammar::specs::Bodies::rule_set_body))]
pub(crate) fn read_rule_set(alloc: Global, lines: &[Text]) -> Result<Body, ReadFault>
    ensures { Gives result (rule_set_body lines.now) }
{
    match lines {
        [] => Err(ReadFault::Syntax),
        [first, rest @ ..] => {
            if is_word(trimmed_text(first.bytes()), b"{") {
                read_inside(alloc, rest)
            } else {
                Err(ReadFault::Syntax)
            }
        }
    }
}
