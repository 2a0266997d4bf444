//! Refusals gathered.

use crate::answers::is_named;
use ge_base::Refusal;
use ge_pieces::{before, behind, earlier, note, sooner_of};
use ge_rows::Text;
use std::alloc::{AllocError, Global};

fn named(word: &[u8]) -> Option<Refusal> {
    if is_named(word, b"syntax") {
        Some(Refusal::Syntax)
    } else if is_named(word, b"too long") {
        Some(Refusal::TooLong)
    } else if is_named(word, b"bad value") {
        Some(Refusal::BadValue)
    } else if is_named(word, b"no such object") {
        Some(Refusal::NoSuchObject)
    } else if is_named(word, b"limit") {
        Some(Refusal::Limit)
    } else {
        None
    }
}

fn word_of(refusal: Option<Refusal>) -> &'static [u8] {
    match refusal {
        Some(Refusal::Syntax) => b"syntax",
        Some(Refusal::TooLong) => b"too long",
        Some(Refusal::BadValue) => b"bad value",
        Some(Refusal::NoSuchObject) => b"no such object",
        Some(Refusal::Limit) => b"limit",
        Some(_) => b"another",
        None => b"none",
    }
}

fn second(word: &[u8]) -> Refusal {
    named(word).unwrap_or(Refusal::Limit)
}

// What is noted behind a refusal: `yes` or `no`, and another.
fn noted(first: Option<Refusal>, rest: &[u8]) -> Option<Refusal> {
    let mut faults = first;
    note(
        &mut faults,
        is_named(before(b'|', rest), b"yes"),
        second(behind(b'|', rest)),
    );
    faults
}

/// The refusal that is left of a first one, or `none`, and others.
pub(crate) fn answer(alloc: Global, name: &[u8], given: &[u8]) -> Result<Text, AllocError> {
    let (first, rest) = (named(before(b'|', given)), behind(b'|', given));
    let word: &[u8] = if is_named(name, b"note") {
        word_of(noted(first, rest))
    } else if is_named(name, b"earlier") {
        word_of(earlier(first, second(rest)))
    } else if is_named(name, b"sooner_of") {
        word_of(sooner_of(first, named(rest)))
    } else {
        b"no such call"
    };
    Text::from_bytes(alloc, word)
}
