//! Numbers read and written, and sets of tasks.

use crate::answers::{is_named, no_call, number};
use ge_pieces::{before, behind, digits_worth, line_len, number_up_to, slices_at};
use ge_printing::{decimal_text, decimals4, fixed, join_words, number_list};
use ge_ranges::{RangeFault, next_after, parse_set, text};
use ge_rows::Text;
use std::alloc::{AllocError, Global};

// What commas part as numbers; nothing where the text is empty.
fn numbers(alloc: Global, given: &[u8]) -> Result<Vec<u32>, AllocError> {
    let mut found = Vec::new(alloc);
    if given.is_empty() {
        return Ok(found);
    }
    for word in slices_at(alloc, b',', given)?.as_slice() {
        found.push(digits_worth(word).min(1000) as u32)?;
    }
    Ok(found)
}

// Two words, three numbers as the next, and the greatest number behind a blank.
fn decimals(alloc: Global, word: &[u8]) -> Result<Text, AllocError> {
    let (a, b, c, d) = decimals4(alloc, 0, 7, 10, u128::MAX)?;
    let words: [&[u8]; 5] = [word, b"", a.bytes(), b.bytes(), c.bytes()];
    let mut line = join_words(alloc, b":", &words)?;
    line.append(b" ")?;
    line.append(d.bytes())?;
    Ok(line)
}

// How a set of tasks is printed.
fn printed(alloc: Global, written: &[u8]) -> Result<Text, AllocError> {
    match parse_set(alloc, written) {
        Ok(set) => text(alloc, &set),
        Err(RangeFault::Syntax) => Text::from_bytes(alloc, b"syntax"),
        Err(RangeFault::Limit) => Text::from_bytes(alloc, b"limit"),
        Err(RangeFault::NoMemory) => Err(AllocError),
    }
}

// The least number of a set above one, or the answer of a number that isn't there.
fn later(alloc: Global, written: &[u8], number_before: &[u8]) -> Result<Text, AllocError> {
    let after = digits_worth(number_before).min(1_000_000) as u32;
    match parse_set(alloc, written) {
        Ok(set) => number(alloc, next_after(&set, after).map(u64::from)),
        Err(_) => Text::from_bytes(alloc, b"no set"),
    }
}

fn first_len(text: &[u8]) -> usize {
    if text.is_empty() { 0 } else { line_len(text) }
}

/// What a call answers: numbers as they are written, and sets of tasks.
pub(crate) fn answer(alloc: Global, name: &[u8], given: &[u8]) -> Result<Text, AllocError> {
    if is_named(name, b"digits_worth") {
        number(alloc, Some(digits_worth(given)))
    } else if is_named(name, b"number_up_to_1024") {
        number(alloc, number_up_to(1024, given))
    } else if is_named(name, b"decimals") {
        decimals(alloc, given)
    } else if is_named(name, b"decimal_text") {
        decimal_text(alloc, u128::from(digits_worth(given)))
    } else if is_named(name, b"fixed_text") {
        fixed(alloc, u128::from(digits_worth(given)))
    } else if is_named(name, b"number_list") {
        number_list(alloc, numbers(alloc, given)?.as_slice())
    } else if is_named(name, b"line_len") {
        number(alloc, Some(first_len(given) as u64))
    } else if is_named(name, b"next_after") {
        later(alloc, before(b'|', given), behind(b'|', given))
    } else if is_named(name, b"set") {
        printed(alloc, given)
    } else {
        no_call(alloc)
    }
}
