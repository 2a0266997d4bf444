//! Texts, short and long: how they compare, grow, shrink and are copied; and lists of them.

use ge_pieces::{join, slices_at};
use ge_rows::{List, Text, Twin};
use std::alloc::{AllocError, Global};
use std::cmp::Ordering;

fn order_word(order: Ordering) -> &'static [u8] {
    match order {
        Ordering::Less => b"less",
        Ordering::Equal => b"equal",
        Ordering::Greater => b"greater",
    }
}

fn same_word(is_same: bool) -> &'static [u8] {
    if is_same { b"same" } else { b"other" }
}

// A line of words.
fn push_line(text: &mut Vec<u8>, words: &[&[u8]]) -> Result<(), AllocError> {
    let mut gap: &[u8] = b"";
    for word in words {
        text.extend_from_slice(gap)?;
        text.extend_from_slice(word)?;
        gap = b" ";
    }
    text.extend_from_slice(b"\n")
}

// A text with other bytes behind it: the first is pushed, and the rest appended.
fn grown(alloc: Global, own: &Text, more: &[u8]) -> Result<Text, AllocError> {
    let mut text = own.twin(alloc)?;
    if let Some((first, rest)) = more.split_first() {
        text.push(*first)?;
        text.append(rest)?;
    }
    Ok(text)
}

// What is told of two texts.
fn push_texts(
    alloc: Global,
    text: &mut Vec<u8>,
    own: &[u8],
    other: &[u8],
) -> Result<(), AllocError> {
    let one = Text::from_bytes(alloc, own)?;
    let two = Text::from_bytes(alloc, other)?;
    let order = order_word(one.cmp(&two));
    let mut both = grown(alloc, &one, other)?;
    let size = both.len().to_string(alloc)?;
    let copy = both.twin(alloc)?;
    let copied = same_word(copy == both);
    let whole = same_word(both == one);
    both.truncate(own.len().saturating_add(1));
    let last = [both.pop().unwrap_or(b'-')];
    let cut = same_word(both == one);
    push_line(
        text,
        &[
            order,
            size.as_bytes(),
            copy.bytes(),
            copied,
            whole,
            last.as_slice(),
            cut,
        ],
    )
}

// What is told of a list of two texts, when one comes in between.
fn push_list(
    alloc: Global,
    text: &mut Vec<u8>,
    first: &[u8],
    between: &[u8],
    last: &[u8],
) -> Result<(), AllocError> {
    let mut list = List::new(alloc);
    list.push(Text::from_bytes(alloc, first)?)?;
    list.push(Text::from_bytes(alloc, last)?)?;
    let size = list.len().to_string(alloc)?;
    let place = list.len().min(1);
    list.insert(place, Text::from_bytes(alloc, between)?)?;
    let copy = list.twin(alloc)?;
    let items = join(alloc, b" ", copy.items())?;
    let copied = same_word(copy == list);
    push_line(text, &[size.as_bytes(), items.bytes(), copied])
}

fn push_row(alloc: Global, text: &mut Vec<u8>, line: &[u8]) -> Result<(), AllocError> {
    match slices_at(alloc, b' ', line)?.as_slice() {
        [own, other] => push_texts(alloc, text, own, other),
        [first, between, last] => push_list(alloc, text, first, between, last),
        _ => push_line(text, &[b"no such row"]),
    }
}

/// A page `texts`: on each line two texts or three, with blanks between them. Of two it tells how
/// the first compares with the second; how long both are once the second stands behind the first,
/// and what they are; whether a copy of both is the same as both, and whether the first is; then,
/// cut behind the byte that came first, what the last byte is, and whether without that byte they
/// are the same as the first. Of three it tells how long the list of the first and the last is,
/// the list once the second stands between them, and whether a copy is the same.
pub(crate) fn texts_page(alloc: Global, body: &[u8]) -> Result<Vec<u8>, AllocError> {
    let mut text = Vec::new(alloc);
    for line in slices_at(alloc, b'\n', body)?.as_slice() {
        push_row(alloc, &mut text, line)?;
    }
    Ok(text)
}
