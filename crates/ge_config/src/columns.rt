//! The words in the columns of the table of complexes: complex(5).

ghost use Rattle.std.specs.Prelude.{◌≡◌, ◌||◌, IfOk};
ghost use Rattle.ge_model_rows.specs.ValueRows.{Kind, Relop};
ghost use Rattle.ge_model_config.specs.Columns.{kind_text, kind_of, is_same_kind, relop_of, is_relop, requestable_of, consumable_of};

use ge_pieces::{is_word, lower};
use ge_rows::{Consumable, Kind, Relop, Requestable};
use std::alloc::{AllocError, Global};

fn kind_word(kind: Kind) -> &'static [u8]
    ensures { result.now ≡ kind_text kind }
{
    match kind {
        Kind::Int => b"INT",
        Kind::Time => b"TIME",
        Kind::Memory => b"MEMORY",
        Kind::Double => b"DOUBLE",
        Kind::Bool => b"BOOL",
        Kind::Str => b"STRING",
        Kind::CStr => b"CSTRING",
        Kind::ReStr => b"RESTRING",
        Kind::Host => b"HOST",
    }
}

/// The type that a word names.
pub(crate) fn kind_by(word: &[u8]) -> Option<Kind>
    ensures { result ≡ kind_of word.now }
{
    if is_word(word, b"INT") {
        Some(Kind::Int)
    } else if is_word(word, b"TIME") {
        Some(Kind::Time)
    } else if is_word(word, b"MEMORY") {
        Some(Kind::Memory)
    } else if is_word(word, b"DOUBLE") {
        Some(Kind::Double)
    } else if is_word(word, b"BOOL") {
        Some(Kind::Bool)
    } else if is_word(word, b"STRING") {
        Some(Kind::Str)
    } else if is_word(word, b"CSTRING") {
        Some(Kind::CStr)
    } else if is_word(word, b"RESTRING") {
        Some(Kind::ReStr)
    } else if is_word(word, b"HOST") {
        Some(Kind::Host)
    } else {
        None
    }
}

/// Whether two types are the same.
pub(crate) fn are_same_kind(kind: Kind, other: Kind) -> bool
    ensures { result ≡ is_same_kind kind other }
{
    is_word(kind_word(kind), kind_word(other))
}

/// The operator that a word names.
pub(crate) fn relop_by(word: &[u8]) -> Option<Relop>
    ensures { result ≡ relop_of word.now }
{
    if is_word(word, b"==") {
        Some(Relop::Eq)
    } else if is_word(word, b"!=") {
        Some(Relop::Ne)
    } else if is_word(word, b"<") {
        Some(Relop::Lt)
    } else if is_word(word, b"<=") {
        Some(Relop::Le)
    } else if is_word(word, b">") {
        Some(Relop::Gt)
    } else if is_word(word, b">=") {
        Some(Relop::Ge)
    } else {
        None
    }
}

/// Whether it is `==` or `!=`.
pub(crate) fn asks_sameness(relop: Relop) -> bool
    ensures { result ≡ (is_relop relop Relop.Eq || is_relop relop Relop.Ne) }
{
    match relop {
        Relop::Eq | Relop::Ne => true,
        Relop::Lt | Relop::Le | Relop::Gt | Relop::Ge => false,
    }
}

/// Whether it is `<=`.
pub(crate) fn asks_at_most(relop: Relop) -> bool
    ensures { result ≡ is_relop relop Relop.Le }
{
    match relop {
        Relop::Le => true,
        Relop::Eq | Relop::Ne | Relop::Lt | Relop::Gt | Relop::Ge => false,
    }
}

/// What a word says of asking: YES, NO or FORCED in any case, or the first letter of one.
pub(crate) fn requestable_by(alloc: Global, word: &[u8]) -> Result<Option<Requestable>, AllocError>
    ensures { IfOk result (λ requestable. requestable ≡ requestable_of word.now) }
{
    let word = lower(alloc, word)?;
    let word = word.bytes();
    if is_word(word, b"no") || is_word(word, b"n") {
        Ok(Some(Requestable::No))
    } else if is_word(word, b"yes") || is_word(word, b"y") {
        Ok(Some(Requestable::Yes))
    } else if is_word(word, b"forced") || is_word(word, b"f") {
        Ok(Some(Requestable::Forced))
    } else {
        Ok(None)
    }
}

/// What a word says of consuming: YES, NO or JOB in any case, or the first letter of one.
pub(crate) fn consumable_by(alloc: Global, word: &[u8]) -> Result<Option<Consumable>, AllocError>
    ensures { IfOk result (λ consumable. consumable ≡ consumable_of word.now) }
{
    let word = lower(alloc, word)?;
    let word = word.bytes();
    if is_word(word, b"no") || is_word(word, b"n") {
        Ok(Some(Consumable::No))
    } else if is_word(word, b"yes") || is_word(word, b"y") {
        Ok(Some(Consumable::Yes))
    } else if is_word(word, b"job") || is_word(word, b"j") {
        Ok(Some(Consumable::Job))
    } else {
        Ok(None)
    }
}
