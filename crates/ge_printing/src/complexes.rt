//! The table of complexes: see the manual page complex.

ghost use Rattle.std.specs.Prelude.{◌≡◌, IfOk, codes, map};
ghost use Rattle.ge_model_config.specs.Columns.{kind_text, relop_text, requestable_text, consumable_text};
ghost use Rattle.ge_model_config.specs.Complexes.{printed_complex};

use crate::joining::join_words;
use ge_complex::{fixed_text, value_text};
use ge_rows::{ComplexDef, Consumable, Kind, List, Relop, Requestable, Table, Text};
use std::alloc::{AllocError, Global};

fn kind_word(kind: &Kind) -> &[u8]
    ensures { result.now ≡ kind_text kind.now }
{
    match kind {
        Kind::Int => b"INT",
        Kind::Time => b"TIME",
        Kind::Memory => b"MEMORY",
        Kind::Double => b"DOUBLE",
        Kind::Bool => b"BOOL",
        Kind::Str => b"STRING",
        Kind::CStr => b"CSTRING",
        Kind::ReStr => b"RESTRING",
        Kind::Host => b"HOST",
    }
}

fn relop_word(relop: &Relop) -> &[u8]
    ensures { result.now ≡ relop_text relop.now }
{
    match relop {
        Relop::Eq => b"==",
        Relop::Ne => b"!=",
        Relop::Lt => b"<",
        Relop::Le => b"<=",
        Relop::Gt => b">",
        Relop::Ge => b">=",
    }
}

fn requestable_word(requestable: &Requestable) -> &[u8]
    ensures { result.now ≡ requestable_text requestable.now }
{
    match requestable {
        Requestable::No => b"NO",
        Requestable::Yes => b"YES",
        Requestable::Forced => b"FORCED",
    }
}

fn consumable_word(consumable: &Consumable) -> &[u8]
    ensures { result.now ≡ consumable_text consumable.now }
{
    match consumable {
        Consumable::No => b"NO",
        Consumable::Yes => b"YES",
        Consumable::Job => b"JOB",
    }
}

// The eight words of a complex.
fn line_of(alloc: Global, name: &Text, complex: &ComplexDef) -> Result<Text, AllocError>
    ensures { IfOk result (λ line. line ≡ printed_complex (name.now, complex.now)) }
{
    let fallback = value_text(alloc, complex.kind, &complex.fallback)?;
    let urgency = fixed_text(alloc, complex.urgency)?;
    let words: [&[u8]; 8] = [
        name.bytes(),
        complex.shortcut.bytes(),
        kind_word(&complex.kind),
        relop_word(&complex.relop),
        requestable_word(&complex.requestable),
        consumable_word(&complex.consumable),
        fallback.bytes(),
        urgency.bytes(),
    ];
    join_words(alloc, b" ", &words)
}

/// The lines of the table of complexes, by name.
pub(crate) fn print_complexes(
    alloc: Global,
    complexes: &Table<Text, ComplexDef>,
) -> Result<List<Text>, AllocError>
    ensures { IfOk result (λ lines. lines ≡ map printed_complex complexes.now) }
{
    let mut lines = List::new(alloc);
    for (name, complex) in complexes.iter() {
        lines.push(line_of(alloc, name, complex)?)?;
    }
    Ok(lines)
}
