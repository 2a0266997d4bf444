//! Values of a queue with overrides: `VALUE,[HOST=VALUE],[@GROUP=VALUE]` (queue_conf(5)).

ghost use Rattle.std.specs.Prelude.{◌≡◌, ◌∷◌, [], Some, IfOk, OnOk, option_map, map, flat_map};
ghost use Rattle.std.specs.List.{list_all};
ghost use Rattle.ge_model_text.specs.Words.{is_blank};
ghost use Rattle.ge_model_config.specs.Overrides.{behind_byte_first, begins_overrides, plain_part, bracket_part, key_and_value, override_of, overrides_between, overrides_of, filled, override_read, attr_with, attr_read};
ghost use Rattle.ge_pieces.specs.Gives.{Gives, Reads};
ghost use Rattle.ge_model_rows.specs.ClusterRows.{plain_attr};
ghost use Rattle.ge_model_rows.specs.Faults.{after_faults};
ghost use Rattle.ge_base.specs.declared.refusal.Refusal.TheVariants.{BadValue};

use crate::values::{Reader, is_a_host_or_group};
use ge_base::Refusal;
use ge_commands::value_in;
use ge_pieces::{ReadFault, before, behind, has, is_blank_byte, note, pieces, trimmed_text};
use ge_rows::{Attr, Cluster, List, Text, Twin};
use std::alloc::{AllocError, Global};

// What stands behind a byte that comes first, blanks left aside.
fn behind_mark(byte: u8, text: &[u8]) -> Option<&[u8]>
    ensures { option_map (λ rest. rest.now) result ≡ behind_byte_first byte text.now }
{
    let mut rest = text;
    while let Some((first, others)) = rest.split_first() {
        if !is_blank_byte(*first) {
            return if *first == byte { Some(others) } else { None };
        }
        rest = others;
    }
    None
}

fn are_begun(b: u8, rest: &[u8]) -> bool
    ensures { result ≡ begins_overrides b rest.now }
{
    b == b',' && behind_mark(b'[', rest).is_some()
}

// The overrides, from the comma on that begins them.
fn brackets(text: &[u8]) -> &[u8]
    ensures { result.now ≡ bracket_part text.now }
{
    let mut rest = text;
    while let Some((first, others)) = rest.split_first() {
        if are_begun(*first, others) {
            return rest;
        }
        rest = others;
    }
    rest
}

// What stands before the overrides.
fn plain_bytes(text: &[u8]) -> &[u8]
    ensures { result.now ≡ plain_part text.now }
{
    text.split_at(text.len() - brackets(text).len()).0
}

fn read_pair(alloc: Global, inside: &[u8]) -> Result<(Text, Text), ReadFault>
    ensures { Gives result (key_and_value inside.now) }
{
    if !has(b'=', inside) {
        return Err(ReadFault::Syntax);
    }
    let key = Text::from_bytes(alloc, before(b'=', inside))?;
    let value = Text::from_bytes(alloc, behind(b'=', inside))?;
    Ok((key, value))
}

fn read_override(alloc: Global, text: &[u8]) -> Result<(Text, Text), ReadFault>
    ensures { Gives result (override_of text.now) }
{
    match behind_mark(b',', text) {
        None => Err(ReadFault::Syntax),
        Some(rest) => match behind_mark(b'[', rest) {
            None => Err(ReadFault::Syntax),
            Some(inside) => read_pair(alloc, inside),
        },
    }
}

fn is_all_blank(text: &[u8]) -> bool
    ensures { result ≡ list_all is_blank text.now }
{
    text.iter().all(|b| is_blank_byte(*b))
}

fn read_between(alloc: Global, texts: &[Text]) -> Result<List<(Text, Text)>, ReadFault>
    ensures { Gives result (overrides_between texts.now) }
{
    let mut pairs = List::new(alloc);
    let mut rest = texts;
    while let Some((text, others)) = rest.split_first() {
        if others.is_empty() {
            return if is_all_blank(text.bytes()) {
                Ok(pairs)
            } else {
                Err(ReadFault::Syntax)
            };
        }
        let pair = read_override(alloc, text.bytes())?;
        pairs.push(pair)?;
        rest = others;
    }
    Ok(pairs)
}

fn read_overrides(alloc: Global, text: &[u8]) -> Result<List<(Text, Text)>, ReadFault>
    ensures { Gives result (overrides_of text.now) }
{
    read_between(alloc, pieces(alloc, b']', brackets(text))?.items())
}

// A value that has to be there.
fn read_filled<T: Twin + Drop, R: Reader<T>>(
    alloc: Global,
    fallback: &T,
    reader: &R,
    text: &[u8],
    faults: &mut Option<Refusal>,
) -> Result<T, AllocError>
    ensures { Reads result faults.old faults.new (filled fallback.now
        (R.read reader.now) text.now) }
{
    if text.is_empty() {
        note(faults, true, Refusal::BadValue);
        fallback.twin(alloc)
    } else {
        reader.read(alloc, text, faults)
    }
}

fn read_one<T: Twin + Drop, R: Reader<T>>(
    alloc: Global,
    c: &Cluster,
    fallback: &T,
    reader: &R,
    pair: &(Text, Text),
    faults: &mut Option<Refusal>,
) -> Result<(Text, T), AllocError>
    ensures { Reads result faults.old faults.new (override_read c.now fallback.now
        (R.read reader.now) pair.now) }
{
    let (name, text) = pair;
    note(faults, !is_a_host_or_group(c, name), Refusal::NoSuchObject);
    let value = read_filled(alloc, fallback, reader, text.bytes(), faults)?;
    Ok((name.twin(alloc)?, value))
}

fn read_all<T: Twin + Drop, R: Reader<T>>(
    alloc: Global,
    c: &Cluster,
    fallback: &T,
    reader: &R,
    pairs: &[(Text, Text)],
    faults: &mut Option<Refusal>,
) -> Result<List<(Text, T)>, AllocError>
    ensures values { IfOk result (λ others. others
        ≡ map (λ o. o.0) (map (override_read c.now fallback.now (R.read reader.now)) pairs.now)) }
    ensures faults { OnOk result (faults.new ≡ after_faults faults.old (flat_map (λ o. o.1) (map
        (override_read c.now fallback.now (R.read reader.now)) pairs.now))) }
{
    let mut others = List::new(alloc);
    for pair in pairs {
        let other = read_one(alloc, c, fallback, reader, pair, faults)?;
        others.push(other)?;
    }
    Ok(others)
}

fn read_with<T: Twin + Drop, R: Reader<T>>(
    alloc: Global,
    c: &Cluster,
    fallback: &T,
    reader: &R,
    plain: &[u8],
    pairs: &[(Text, Text)],
    faults: &mut Option<Refusal>,
) -> Result<Attr<T>, AllocError>
    ensures { Reads result faults.old faults.new (attr_with c.now fallback.now
        (R.read reader.now) plain.now (Some pairs.now)) }
{
    let plain = read_filled(alloc, fallback, reader, plain, faults)?;
    let overrides = read_all(alloc, c, fallback, reader, pairs, faults)?;
    Ok(Attr { plain, overrides })
}

fn unread<T: Twin>(
    alloc: Global,
    fallback: &T,
    faults: &mut Option<Refusal>,
) -> Result<Attr<T>, AllocError>
    ensures { Reads result faults.old faults.new (plain_attr fallback.now, BadValue ∷ []) }
{
    note(faults, true, Refusal::BadValue);
    Ok(Attr {
        plain: fallback.twin(alloc)?,
        overrides: List::new(alloc),
    })
}

/// An attribute of a queue, or its default where the body leaves it out.
pub(crate) fn read_attr<T: Twin + Drop, R: Reader<T>>(
    alloc: Global,
    c: &Cluster,
    values: &[(Text, Text)],
    attribute: &[u8],
    fallback: Attr<T>,
    reader: &R,
    faults: &mut Option<Refusal>,
) -> Result<Attr<T>, AllocError>
    ensures { Reads result faults.old faults.new (attr_read c.now values.now attribute.now fallback
        (R.read reader.now)) }
{
    match value_in(values, attribute) {
        None => Ok(fallback),
        Some(text) => {
            let plain = trimmed_text(plain_bytes(text.bytes()));
            match read_overrides(alloc, text.bytes()) {
                Ok(pairs) => read_with(
                    alloc,
                    c,
                    &fallback.plain,
                    reader,
                    plain,
                    pairs.items(),
                    faults,
                ),
                Err(ReadFault::Syntax) => unread(alloc, &fallback.plain, faults),
                Err(ReadFault::Memory) => Err(AllocError),
            }
        }
    }
}
