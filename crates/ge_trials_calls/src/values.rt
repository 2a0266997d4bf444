//! Values read, printed and compared, and complexes looked up.

use crate::answers::{is_named, no_call, yes_or_no};
use ge_complex::{
    ComplexFinder, ValueError, admits, complex_named, pair_text, read_value, value_text,
};
use ge_opening_cluster::opening;
use ge_pieces::{before, behind, digits_worth};
use ge_printing::join_words;
use ge_rows::{Cluster, ComplexDef, Consumable, Kind, Relop, Requestable, Text, Value};
use std::alloc::{AllocError, Global};

fn kind_by(letter: u8) -> Kind {
    match letter {
        b'i' => Kind::Int,
        b't' => Kind::Time,
        b'm' => Kind::Memory,
        b'd' => Kind::Double,
        b'b' => Kind::Bool,
        b's' => Kind::Str,
        b'c' => Kind::CStr,
        b'r' => Kind::ReStr,
        _ => Kind::Host,
    }
}

fn relop_by(letter: u8) -> Relop {
    match letter {
        b'=' => Relop::Eq,
        b'!' => Relop::Ne,
        b'<' => Relop::Lt,
        b'l' => Relop::Le,
        b'>' => Relop::Gt,
        _ => Relop::Ge,
    }
}

// The value of a text of a kind; nothing where it has none.
fn value_of(alloc: Global, kind: Kind, text: &[u8]) -> Result<Option<Value>, AllocError> {
    match read_value(alloc, kind, text) {
        Ok(value) => Ok(Some(value)),
        Err(ValueError::Bad) => Ok(None),
        Err(ValueError::NoMemory) => Err(AllocError),
    }
}

// How the value of a text of a kind is printed.
fn printed(alloc: Global, kind: Kind, text: &[u8]) -> Result<Text, AllocError> {
    match value_of(alloc, kind, text)? {
        Some(value) => value_text(alloc, kind, &value),
        None => Text::from_bytes(alloc, b"no value"),
    }
}

fn value(alloc: Global, given: &[u8]) -> Result<Text, AllocError> {
    match given {
        [letter, text @ ..] => printed(alloc, kind_by(*letter), text),
        [] => Ok(Text::new(alloc)),
    }
}

fn complex_of(alloc: Global, kind: Kind, relop: Relop) -> ComplexDef {
    ComplexDef {
        shortcut: Text::new(alloc),
        kind,
        relop,
        requestable: Requestable::Yes,
        consumable: Consumable::No,
        fallback: Value::Amount(0),
        urgency: 0,
    }
}

// The value of a letter of a kind and a text.
fn value_by(alloc: Global, text: &[u8]) -> Result<Option<Value>, AllocError> {
    match text {
        [letter, rest @ ..] => value_of(alloc, kind_by(*letter), rest),
        [] => Ok(None),
    }
}

// Whether a complex admits an asked text where the text of another letter is there.
fn is_admitted(
    alloc: Global,
    complex: &ComplexDef,
    asked: &[u8],
    there: &[u8],
) -> Result<Text, AllocError> {
    match (
        value_of(alloc, complex.kind, asked)?,
        value_by(alloc, there)?,
    ) {
        (Some(asked), Some(there)) => yes_or_no(alloc, admits(complex, &asked, &there)),
        _ => Text::from_bytes(alloc, b"no value"),
    }
}

// The same of the complex whose kind and operator the first two letters are.
fn compared(alloc: Global, asked: &[u8], there: &[u8]) -> Result<Text, AllocError> {
    match asked {
        [letter, relop, text @ ..] => {
            let complex = complex_of(alloc, kind_by(*letter), relop_by(*relop));
            is_admitted(alloc, &complex, text, there)
        }
        _ => Ok(Text::new(alloc)),
    }
}

// The opening complexes, and zz with the shortcut of hostname.
fn with_second(alloc: Global) -> Result<Cluster, AllocError> {
    let mut c = opening(alloc)?;
    let mut second = complex_of(alloc, Kind::Int, Relop::Le);
    second.shortcut.append(b"h")?;
    c.complexes.insert(Text::from_bytes(alloc, b"zz")?, second)?;
    Ok(c)
}

fn walked(alloc: Global, c: &Cluster, word: &Text) -> Result<Text, AllocError> {
    match complex_named(c, word) {
        Some((name, _)) => Text::from_bytes(alloc, name.bytes()),
        None => Text::from_bytes(alloc, b"none"),
    }
}

fn found(alloc: Global, c: &Cluster, word: Text) -> Result<Text, AllocError> {
    match ComplexFinder::new(c).find(alloc, word)? {
        Some((name, _)) => Ok(name),
        None => Text::from_bytes(alloc, b"none"),
    }
}

// The complex that a word names, looked up both ways.
fn named(alloc: Global, given: &[u8]) -> Result<Text, AllocError> {
    let c = with_second(alloc)?;
    let word = Text::from_bytes(alloc, given)?;
    let walked = walked(alloc, &c, &word)?;
    let found = found(alloc, &c, word)?;
    join_words(alloc, b", ", &[walked.bytes(), found.bytes()])
}

fn pair(alloc: Global, name: &[u8], value: &Value) -> Result<Text, AllocError> {
    let name = Text::from_bytes(alloc, name)?;
    pair_text(alloc, &opening(alloc)?, &name, value)
}

/// What a call answers: `value` is given a letter of a kind and a text, `admits` the letters of a kind and an operator and what is
/// asked, and behind a bar a letter of a kind and what is there; `complex` a word; `amount` a name and an amount, `flag` a name.
pub(crate) fn answer(alloc: Global, name: &[u8], given: &[u8]) -> Result<Text, AllocError> {
    let (first, second) = (before(b'|', given), behind(b'|', given));
    if is_named(name, b"value") {
        value(alloc, given)
    } else if is_named(name, b"admits") {
        compared(alloc, first, second)
    } else if is_named(name, b"complex") {
        named(alloc, given)
    } else if is_named(name, b"amount") {
        pair(alloc, first, &Value::Amount(digits_worth(second)))
    } else if is_named(name, b"flag") {
        pair(alloc, given, &Value::Flag(true))
    } else {
        no_call(alloc)
    }
}
