//! Attributes: lines of a name and a value.

ghost use Rattle.std.specs.Prelude.{◌≡◌, ◌++◌, ◌∷◌, [], OnOk, map, unwrap_or};
ghost use Rattle.std.specs.Option.{option_copied};
ghost use Rattle.std.specs.BTreeMap.{is_at};
ghost use Rattle.ge_collections.specs.Keyed.{text_cmp};
ghost use Rattle.ge_model_grammar.specs.Bodies.{attribute_line, attribute_in, has_attribute, with_attribute, attributes_after, if_named, attribute_body};
ghost use Rattle.ge_pieces.specs.Gives.{Gives, Leaves};

use crate::known::{has_its_name, known_to};
use ge_model_grammar::Body;
use ge_pieces::{ReadFault, behind_word, first_word, is_in, trimmed_text};
use ge_rows::{List, ObjectKind, Text};
use std::alloc::{AllocError, Global};
use std::cmp::Ordering;

fn is_key(name: &[u8], key: &Text) -> bool
    ensures { result ≡ is_at (text_cmp name.now) key.now }
{
    name.cmp(key.bytes()) == Ordering::Equal
}

/// What a body gives an attribute.
pub fn value_in<'a>(values: &'a [(Text, Text)], name: &[u8]) -> Option<&'a Text>
    ensures { option_copied result ≡ attribute_in values.now name.now }
{
    for (key, value) in values {
        if is_key(name, key) {
            return Some(value);
        }
    }
    None
}

/// Whether a body gives an attribute a value.
pub fn has_attribute(values: &[(Text, Text)], name: &[u8]) -> bool
    ensures { result ≡ has_attribute values.now name.now }
{
    value_in(values, name).is_some()
}

/// What a body gives an attribute, or its default.
pub fn value_or<'a>(values: &'a [(Text, Text)], name: &[u8], fallback: &'a [u8]) -> &'a [u8]
    ensures { result.now ≡ unwrap_or (attribute_in values.now name.now) fallback.now }
{
    match value_in(values, name) {
        Some(value) => value.bytes(),
        None => fallback,
    }
}

fn push_attribute(
    alloc: Global,
    values: &mut List<(Text, Text)>,
    name: &[u8],
    value: &[u8],
) -> Result<(), AllocError>
    ensures { OnOk result (values.new ≡ values.old ++ (name.now, value.now) ∷ []) }
{
    let name = Text::from_bytes(alloc, name)?;
    let value = Text::from_bytes(alloc, value)?;
    values.push((name, value))
}

/// One more attribute, if it is known, has not come before and has a value.
pub(crate) fn add_attribute(
    alloc: Global,
    known: &[&[u8]],
    values: &mut List<(Text, Text)>,
    line: &[u8],
) -> Result<(), ReadFault>
    ensures { Leaves result values.new
        (with_attribute (map (λ name. name.now) known.now) values.old (attribute_line line.now)) }
{
    let line = trimmed_text(line);
    let name = first_word(line);
    let value = trimmed_text(behind_word(line));
    if is_in(name, known) && !has_attribute(values.items(), name) && !value.is_empty() {
        push_attribute(alloc, values, name, value)?;
        Ok(())
    } else {
        Err(ReadFault::Syntax)
    }
}

// The attributes of lines.
fn read_attributes(
    alloc: Global,
    known: &[&[u8]],
    lines: &[Text],
) -> Result<List<(Text, Text)>, ReadFault>
    ensures { Gives result (attributes_after (map (λ name. name.now) known.now) [] lines.now) }
{
    let mut values = List::new(alloc);
    for line in lines {
        match add_attribute(alloc, known, &mut values, line.bytes()) {
            Ok(()) => {}
            Err(fault) => return Err(fault),
        }
    }
    Ok(values)
}

// The attributes, where those that name the object are among them.
fn if_it_is_named(kind: ObjectKind, values: List<(Text, Text)>) -> Result<Body, ReadFault>
    ensures { Gives result (if_named kind values) }
{
    if has_its_name(kind, values.items()) {
        Ok(Body::Attributes(values))
    } else {
        Err(ReadFault::Syntax)
    }
}

/// A body of attributes: each known and given once, and the one that names the object among them.
#[tactic(auto, unfolding(ge_model_grammar::specs::Bodies::attribute_body))]
pub(crate) fn read_attribute_body(
    alloc: Global,
    kind: ObjectKind,
    lines: &[Text],
) -> Result<Body, ReadFault>
    ensures { Gives result (attribute_body kind lines.now) }
{
    let values = read_attributes(alloc, known_to(kind), lines)?;
    if_it_is_named(kind, values)
}
