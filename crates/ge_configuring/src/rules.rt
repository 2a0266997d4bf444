// What rules of resource quotas name.
ghost use Rattle.std.specs.Prelude.{◌≡◌, ◌∷◌};
ghost use Rattle.std.specs.List.{list_any};
ghost use Rattle.ge_collections.specs.Keyed.{text_eq};
ghost use Rattle.ge_model_config.specs.Cited.{has_name as has_name_in};
ghost use Rattle.ge_model_config.specs.Quotas.{elements_of};
ghost use Rattle.ge_model_config.specs.Used as used;
ghost use Rattle.ge_model_rows.specs.Pieces.{is_one_of};

use crate::there::has_name;
use ge_pieces::{is_among, is_word};
use ge_rows::{Cluster, Filter, Rule, Text};

fn is_element(name: &Text, filter: &Option<Filter>) -> bool
    ensures { result ≡ is_one_of name.now (elements_of filter.now) }
{
    match filter {
        None => false,
        Some(filter) => {
            is_among(name, filter.plain.items()) || is_among(name, filter.without.items())
        }
    }
}

fn is_set_element(name: &Text, element: &Text) -> bool
    ensures { result ≡ text_eq (64 ∷ name.now) element.now }
{
    match element.bytes() {
        [] => false,
        [first, rest @ ..] => *first == b'@' && is_word(name.bytes(), rest),
    }
}

fn is_set_among(name: &Text, elements: &[Text]) -> bool
    ensures { result ≡ is_one_of (64 ∷ name.now) elements.now }
{
    elements.iter().any(|element| is_set_element(name, element))
}

fn is_set_of(name: &Text, filter: &Option<Filter>) -> bool
    ensures { result ≡ is_one_of (64 ∷ name.now) (elements_of filter.now) }
{
    match filter {
        None => false,
        Some(filter) => {
            is_set_among(name, filter.plain.items()) || is_set_among(name, filter.without.items())
        }
    }
}

fn has_limit(name: &Text, rule: &Rule) -> bool
    ensures { result ≡ has_name_in rule.now.limits name.now }
{
    has_name(&rule.limits, name)
}

fn names_group(name: &Text, rule: &Rule) -> bool
    ensures { result ≡ is_one_of name.now (elements_of rule.now.hosts) }
{
    is_element(name, &rule.hosts)
}

fn names_set(name: &Text, rule: &Rule) -> bool
    ensures { result ≡ is_one_of (64 ∷ name.now) (elements_of rule.now.users) }
{
    is_set_of(name, &rule.users)
}

fn group_in_set(name: &Text, rules: &[Rule]) -> bool
    ensures { result ≡ list_any (λ rule. is_one_of name.now (elements_of rule.hosts)) rules.now }
{
    rules.iter().any(|rule| names_group(name, rule))
}

fn set_in_set(name: &Text, rules: &[Rule]) -> bool
    ensures { result ≡ list_any (λ rule. is_one_of (64
        ∷ name.now) (elements_of rule.users)) rules.now }
{
    rules.iter().any(|rule| names_set(name, rule))
}

fn complex_in_set(name: &Text, rules: &[Rule]) -> bool
    ensures { result ≡ list_any (λ rule. has_name_in rule.limits name.now) rules.now }
{
    rules.iter().any(|rule| has_limit(name, rule))
}

/// Whether a rule names a host group.
pub(crate) fn group_in_rules(name: &Text, c: &Cluster) -> bool
    ensures { result ≡ used.rule_where c.now (λ rule. is_one_of name.now (elements_of rule.hosts)) }
{
    for (_, set) in c.quotas.iter() {
        if group_in_set(name, set.rules.items()) {
            return true;
        }
    }
    false
}

/// Whether a rule names a user set.
pub(crate) fn set_in_rules(name: &Text, c: &Cluster) -> bool
    ensures { result ≡ used.rule_where c.now
        (λ rule. is_one_of (64 ∷ name.now) (elements_of rule.users)) }
{
    for (_, set) in c.quotas.iter() {
        if set_in_set(name, set.rules.items()) {
            return true;
        }
    }
    false
}

/// Whether a rule limits an attribute.
pub(crate) fn complex_in_rules(name: &Text, c: &Cluster) -> bool
    ensures { result ≡ used.rule_where c.now (λ rule. has_name_in rule.limits name.now) }
{
    for (_, set) in c.quotas.iter() {
        if complex_in_set(name, set.rules.items()) {
            return true;
        }
    }
    false
}
