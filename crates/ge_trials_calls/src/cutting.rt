//! Texts cut and joined.

use crate::answers::{is_named, no_call};
use ge_pieces::*;
use ge_rows::{List, Text};
use ge_text::{TextFault, words};
use ge_trials_rows::append_all;
use std::alloc::{AllocError, Global};

/// Longer lines are not tried as words.
const MOST: usize = 1000;

// Texts as one line, each in brackets.
fn bracketed(alloc: Global, texts: &List<Text>) -> Result<Text, AllocError> {
    let mut line = Text::new(alloc);
    for text in texts.items() {
        append_all(&mut line, &[b"[", text.bytes(), b"]"])?;
    }
    Ok(line)
}

// Lent texts as one line, each in brackets.
fn lent_bracketed(alloc: Global, texts: &[&[u8]]) -> Result<Text, AllocError> {
    let mut line = Text::new(alloc);
    for text in texts {
        append_all(&mut line, &[b"[", text, b"]"])?;
    }
    Ok(line)
}

// The words of a line, or where a quote is open.
fn words_of(alloc: Global, line: &[u8]) -> Result<Text, AllocError> {
    if line.len() > MOST {
        return Ok(Text::new(alloc));
    }
    match words(alloc, line) {
        Ok(found) => lent_bracketed(alloc, found.as_slice()),
        Err(TextFault::Quote(place)) => Text::from_bytes(
            alloc,
            format!(in alloc; "quote {place}")?.as_bytes(),
        ),
        Err(TextFault::NoMemory) => Err(AllocError),
    }
}

// What bars part; nothing where the text is empty.
fn parts(alloc: Global, text: &[u8]) -> Result<List<Text>, AllocError> {
    if text.is_empty() {
        Ok(List::new(alloc))
    } else {
        pieces(alloc, b'|', text)
    }
}

fn behind_a_word(alloc: Global, text: &[u8]) -> Result<Text, AllocError> {
    let mut line = Text::from_bytes(alloc, b"hostlist ")?;
    append_joined(&mut line, b", ", parts(alloc, text)?.items())?;
    Ok(line)
}

fn first_of(text: &[u8]) -> &[u8] {
    if text.is_empty() {
        text
    } else {
        first_line(text)
    }
}

fn from_second(text: &[u8]) -> &[u8] {
    if text.is_empty() {
        text
    } else {
        bytes_from(text, 1)
    }
}

fn or_none(alloc: Global, text: &[u8]) -> Result<Text, AllocError> {
    let word = Text::from_bytes(alloc, text)?;
    Text::from_bytes(alloc, or_none_text(&word))
}

// The calls that make lists of texts, and such that join them.
fn listed(alloc: Global, name: &[u8], given: &[u8]) -> Result<Text, AllocError> {
    if is_named(name, b"words") {
        words_of(alloc, given)
    } else if is_named(name, b"slices_at") {
        lent_bracketed(alloc, slices_at(alloc, b',', given)?.as_slice())
    } else if is_named(name, b"pieces") {
        bracketed(alloc, &pieces(alloc, b'@', given)?)
    } else if is_named(name, b"words_between") {
        bracketed(alloc, &words_between(alloc, given)?)
    } else if is_named(name, b"items_of_list") {
        bracketed(alloc, &items_of_list(alloc, given)?)
    } else if is_named(name, b"lines_of_body") {
        bracketed(alloc, &lines_of_body(alloc, given)?)
    } else if is_named(name, b"join_list") {
        join_list(alloc, parts(alloc, given)?.items())
    } else if is_named(name, b"join") {
        join(alloc, b" ", parts(alloc, given)?.items())
    } else if is_named(name, b"append_joined") {
        behind_a_word(alloc, given)
    } else if is_named(name, b"lower") {
        lower(alloc, given)
    } else {
        no_call(alloc)
    }
}

/// What a call answers: each text of a list in brackets, or one text. Bars part what is joined.
pub(crate) fn answer(alloc: Global, name: &[u8], given: &[u8]) -> Result<Text, AllocError> {
    if is_named(name, b"first_word") {
        Text::from_bytes(alloc, first_word(given))
    } else if is_named(name, b"behind_word") {
        Text::from_bytes(alloc, behind_word(given))
    } else if is_named(name, b"before") {
        Text::from_bytes(alloc, before(b'=', given))
    } else if is_named(name, b"behind") {
        Text::from_bytes(alloc, behind(b'=', given))
    } else if is_named(name, b"first_line") {
        Text::from_bytes(alloc, first_of(given))
    } else if is_named(name, b"bare_line") {
        Text::from_bytes(alloc, bare_line(given))
    } else if is_named(name, b"bytes_from") {
        Text::from_bytes(alloc, from_second(given))
    } else if is_named(name, b"or_none_text") {
        or_none(alloc, given)
    } else {
        listed(alloc, name, given)
    }
}
