//! What texts are worth.

use crate::answers::{is_named, no_call, number};
use ge_printing::join_words;
use ge_rows::Text;
use ge_text::{Form, ValueFault, amount, read_fixed, read_int, read_memory, read_time};
use std::alloc::{AllocError, Global};

/// Longer texts are not tried.
const MOST: usize = 1000;

fn worth(form: Form, text: &[u8]) -> Result<u64, ValueFault> {
    if text.len() > MOST {
        return Err(ValueFault::Empty);
    }
    match form {
        Form::Int => read_int(text),
        Form::Time => read_time(text),
        Form::Memory => read_memory(text),
        Form::Fixed => read_fixed(text),
    }
}

fn told(alloc: Global, worth: Result<u64, ValueFault>) -> Result<String, AllocError> {
    match worth {
        Ok(amount) => amount.to_string(alloc),
        Err(ValueFault::Empty) => String::from_str(alloc, "empty"),
        Err(ValueFault::TooLarge) => String::from_str(alloc, "too large"),
        Err(ValueFault::Digit(place)) => format!(in alloc; "digit {place}"),
    }
}

// What a text of a form is worth, and whether it has an amount.
fn amounts(alloc: Global, form: Form, text: &[u8]) -> Result<Text, AllocError> {
    let worth = told(alloc, worth(form, text))?;
    let amount = number(alloc, amount(form, text))?;
    join_words(alloc, b", ", &[worth.as_bytes(), amount.bytes()])
}

/// What a text of a form is worth, and its amount.
pub(crate) fn answer(alloc: Global, name: &[u8], given: &[u8]) -> Result<Text, AllocError> {
    if is_named(name, b"int") {
        amounts(alloc, Form::Int, given)
    } else if is_named(name, b"time") {
        amounts(alloc, Form::Time, given)
    } else if is_named(name, b"memory") {
        amounts(alloc, Form::Memory, given)
    } else if is_named(name, b"fixed") {
        amounts(alloc, Form::Fixed, given)
    } else {
        no_call(alloc)
    }
}
