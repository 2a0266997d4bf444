//! Filters of rules.

ghost use Rattle.std.specs.Prelude.{◌≡◌, ◌∷◌, [], ℕ, Bool, List, IfOk};
ghost use Rattle.std.specs.List.{list_any};
ghost use Rattle.ge_collections.specs.Keyed.{text_eq};
ghost use Rattle.ge_model_text.specs.Pattern.{pattern_covers};
ghost use Rattle.ge_model_rows.specs.Pieces.{is_empty};
ghost use Rattle.ge_model_place.specs.Quotas.{names_one, filter_admits, admits_name};

use crate::asking::Who;
use ge_rows::{Cluster, Filter, Groups, Text};
use ge_site::{group_has, in_set};
use ge_text::matches;
use std::alloc::{AllocError, Global};

fn is_star(pattern: &[u8]) -> bool
    ensures { result ≡ text_eq pattern.now (42 ∷ []) }
{
    match pattern {
        [b'*'] => true,
        _ => false,
    }
}

// Whether a pattern stands for a name. Most patterns of filters are `*`, which stands for every name.
#[tactic(auto, using(crate::proofs::Patterns::star_covers))]
fn stands_for(pattern: &[u8], name: &[u8]) -> bool
    ensures { result ≡ pattern_covers pattern.now name.now }
{
    is_star(pattern) || matches(pattern, name)
}

/// Whether an element of a filter names what is asked for.
pub(crate) trait Asked {
    ghost names_by: { Self → List ℕ → Bool };

    /// Whether this element names it. A name of a user set is copied, to be looked up.
    fn is_named(&self, alloc: Global, element: &Text) -> Result<bool, AllocError>
        ensures { IfOk result (λ named. named ≡ names_by self.now element.now) };
}

/// A user, named by a pattern or by `@` and a user set.
#[derive(Clone, Copy)]
pub(crate) struct AskedUser<'a> {
    pub(crate) cluster: &'a Cluster,
    pub(crate) who: &'a Who<'a>,
}

impl<'a> Asked for AskedUser<'a> {
    ghost use Rattle.ge_model_place.specs.Quotas.{names_user};
    ghost use Rattle.ge_quota.specs.Asked.{asked_by};

    ghost names_by = { λ asked. names_user asked.cluster.now (asked_by asked.who.now) };

    fn is_named(&self, alloc: Global, element: &Text) -> Result<bool, AllocError> {
        match element.bytes() {
            [first, name @ ..] => {
                if *first == b'@' {
                    let set = Text::from_bytes(alloc, name)?;
                    Ok(in_set(self.cluster, &set, self.who.user, self.who.group))
                } else {
                    Ok(stands_for(element.bytes(), self.who.user.bytes()))
                }
            }
            [] => Ok(false),
        }
    }
}

/// A host, named by a pattern or by a group of hosts.
#[derive(Clone, Copy)]
pub(crate) struct AskedHost<'a> {
    pub(crate) groups: &'a Groups,
    pub(crate) host: &'a Text,
}

impl<'a> Asked for AskedHost<'a> {
    ghost use Rattle.ge_model_place.specs.Quotas.{names_host};

    ghost names_by = { λ asked. names_host asked.groups.now asked.host.now };

    fn is_named(&self, _alloc: Global, element: &Text) -> Result<bool, AllocError> {
        match element.bytes() {
            [first, ..] => {
                if *first == b'@' {
                    Ok(group_has(self.groups, element, self.host))
                } else {
                    Ok(stands_for(element.bytes(), self.host.bytes()))
                }
            }
            [] => Ok(false),
        }
    }
}

/// A project, a parallel environment or a queue, named by a pattern.
#[derive(Clone, Copy)]
pub(crate) struct AskedName<'a> {
    pub(crate) name: &'a Text,
}

impl<'a> Asked for AskedName<'a> {
    ghost use Rattle.ge_model_place.specs.Quotas.{names};

    ghost names_by = { λ asked. names asked.name.now };

    fn is_named(&self, _alloc: Global, element: &Text) -> Result<bool, AllocError> {
        Ok(stands_for(element.bytes(), self.name.bytes()))
    }
}

fn has_no_name(name: &Text) -> bool
    ensures { result ≡ is_empty name.now }
{
    name.bytes().is_empty()
}

fn is_named_by_one<A: Asked>(
    alloc: Global,
    asked: &A,
    elements: &[Text],
) -> Result<bool, AllocError>
    ensures { IfOk result (λ named. named ≡ list_any (A.names_by asked.now) elements.now) }
{
    for element in elements {
        if asked.is_named(alloc, element)? {
            return Ok(true);
        }
    }
    Ok(false)
}

fn is_named_among<A: Asked>(
    alloc: Global,
    asked: &A,
    name: &Text,
    elements: &[Text],
) -> Result<bool, AllocError>
    ensures { IfOk result (λ named. named ≡ names_one (A.names_by asked.now) name.now elements.now) }
{
    if has_no_name(name) {
        return Ok(false);
    }
    is_named_by_one(alloc, asked, elements)
}

fn is_in_filter<A: Asked>(
    alloc: Global,
    asked: &A,
    name: &Text,
    filter: &Filter,
) -> Result<bool, AllocError>
    ensures { IfOk result (λ admitted. admitted ≡ filter_admits (A.names_by asked.now) name.now filter.now) }
{
    let plain = filter.plain.items();
    let named = plain.is_empty() || is_named_among(alloc, asked, name, plain)?;
    Ok(named && !is_named_among(alloc, asked, name, filter.without.items())?)
}

/// Whether a filter admits a name; one that is missing admits all.
pub(crate) fn is_admitted<A: Asked>(
    alloc: Global,
    asked: &A,
    name: &Text,
    filter: &Option<Filter>,
) -> Result<bool, AllocError>
    ensures { IfOk result (λ admitted. admitted ≡ admits_name (A.names_by asked.now) name.now filter.now) }
{
    match filter {
        Some(filter) => is_in_filter(alloc, asked, name, filter),
        None => Ok(true),
    }
}
