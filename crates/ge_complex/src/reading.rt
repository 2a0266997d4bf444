//! Values of texts (complex, type; sge_types).

ghost use Rattle.std.specs.Prelude.{◌≡◌, IfOk, codes, ◌||◌};
ghost use Rattle.std.specs.List.{list_all};
ghost use Rattle.std.specs.Int.{is_in_range};
ghost use Rattle.ge_collections.specs.Keyed.{text_eq};
ghost use Rattle.ge_model_text.specs.Reading.{reading};
ghost use Rattle.ge_model_rows.specs.Pieces.{lower_case};
ghost use Rattle.ge_model_rows.specs.Values.{value_of, read_amount, flag_of, word_of, is_word_byte};
ghost use Rattle.ge_model_rows.specs.Values as values;
ghost use Rattle.ge_complex.specs.Read.{IsRead};

use crate::comparing::is_same_but_for_case;
use ge_pieces::is_word;
use ge_rows::{Kind, Text, Value};
use ge_text::{Form, amount};
use std::alloc::{AllocError, Global};

/// Why a text gives no value.
#[derive(Clone, Copy, PartialEq, Eq)]
pub enum ValueError {
    /// It is no value of its kind.
    Bad,
    /// Memory ran out.
    NoMemory,
}

/// Whether the values of a kind are amounts.
pub fn is_number_kind(kind: Kind) -> bool
    ensures { result ≡ values.is_number_kind kind }
{
    match kind {
        Kind::Int => true,
        Kind::Time => true,
        Kind::Memory => true,
        Kind::Double => true,
        _ => false,
    }
}

fn amount_value(form: Form, text: &[u8]) -> Option<Value>
    ensures { result ≡ read_amount (reading form text.now) }
{
    match amount(form, text) {
        Some(amount) => Some(Value::Amount(amount)),
        None => None,
    }
}

// TRUE in any case.
fn is_true_word(text: &[u8]) -> bool
    ensures { result ≡ text_eq (lower_case text.now) (codes "true") }
{
    is_same_but_for_case(text, b"true")
}

fn is_false_word(text: &[u8]) -> bool
    ensures { result ≡ text_eq (lower_case text.now) (codes "false") }
{
    is_same_but_for_case(text, b"false")
}

fn flag_value(text: &[u8]) -> Option<Value>
    ensures { result ≡ flag_of text.now }
{
    if is_true_word(text) || is_word(text, b"1") {
        Some(Value::Flag(true))
    } else if is_false_word(text) || is_word(text, b"0") {
        Some(Value::Flag(false))
    } else {
        None
    }
}

fn prints_and_is_no_blank(b: u8) -> bool
    ensures { result ≡ is_in_range 33 126 b }
{
    b >= 33 && b <= 126
}

fn may_stand_in_word(b: u8) -> bool
    ensures { result ≡ is_word_byte b }
{
    prints_and_is_no_blank(b) && !(b == b',' || b == b'=' || b == b']')
}

fn has_word_bytes(text: &[u8]) -> bool
    ensures { result ≡ list_all is_word_byte text.now }
{
    text.iter().all(|b| may_stand_in_word(*b))
}

fn is_a_word(text: &[u8]) -> bool
    ensures { result ≡ values.is_word text.now }
{
    text.len() >= 1 && text.len() <= 255 && has_word_bytes(text)
}

fn word_value(alloc: Global, text: &[u8]) -> Result<Option<Value>, AllocError>
    ensures { IfOk result (λ value. value ≡ word_of text.now) }
{
    if is_word(text, b"NONE") {
        Ok(Some(Value::Word(Text::new(alloc))))
    } else if is_a_word(text) {
        Ok(Some(Value::Word(Text::from_bytes(alloc, text)?)))
    } else {
        Ok(None)
    }
}

/// The value of a text of a kind; none where it has none, as where an amount isn't below 2^48 (complex, type).
pub fn value_of_text(alloc: Global, kind: Kind, text: &[u8]) -> Result<Option<Value>, AllocError>
    ensures { IfOk result (λ value. value ≡ value_of kind text.now) }
{
    match kind {
        Kind::Int => Ok(amount_value(Form::Int, text)),
        Kind::Time => Ok(amount_value(Form::Time, text)),
        Kind::Memory => Ok(amount_value(Form::Memory, text)),
        Kind::Double => Ok(amount_value(Form::Fixed, text)),
        Kind::Bool => Ok(flag_value(text)),
        _ => word_value(alloc, text),
    }
}

/// The value of a text of a kind. `Bad` comes exactly where it has none.
pub fn read_value(alloc: Global, kind: Kind, text: &[u8]) -> Result<Value, ValueError>
    ensures { IsRead result (value_of kind text.now) }
{
    match value_of_text(alloc, kind, text) {
        Ok(Some(value)) => Ok(value),
        Ok(None) => Err(ValueError::Bad),
        Err(_) => Err(ValueError::NoMemory),
    }
}
