//! Texts cut into pieces: at a byte, and between blanks.

ghost use Rattle.std.specs.Prelude.{◌≡◌, ◌≤◌, ◌++◌, length, map, not, ◌==◌, IfOk, OnOk};
ghost use Rattle.std.specs.List.{position, position_or_len, slice_split, before_first, after_first};
ghost use Rattle.ge_model_text.specs.Words.{is_blank};
ghost use Rattle.ge_model_rows.specs.Pieces.{pieces_at, before_byte, behind_byte, has_byte, trimmed, without_first_blanks, without_last_blanks, blank_pieces, items_between, list_items};
ghost use Rattle.ge_pieces.specs.Items.{items_of_all};

use crate::comparing::is_word;
use ge_rows::{List, Text};
use std::alloc::{AllocError, Global};

fn is_byte(byte: u8, b: u8) -> bool
    ensures { result ≡ (b == byte) }
{
    b == byte
}

/// A blank or a tab.
pub fn is_blank_byte(b: u8) -> bool
    ensures { result ≡ is_blank b }
{
    b == b' ' || b == b'\t'
}

/// Whether a text has a byte.
pub fn has(byte: u8, text: &[u8]) -> bool
    ensures { result ≡ has_byte byte text.now }
{
    text.iter().any(|b| is_byte(byte, *b))
}

fn place_of(byte: u8, text: &[u8]) -> Option<usize>
    ensures { result ≡ position (λ b. b == byte) text.now }
{
    text.iter().position(|b| is_byte(byte, *b))
}

/// Where the first such byte is, or the length where there is none.
#[tactic(auto, using(crate::proofs::Places::unwrap_position))]
pub(crate) fn place_or_end(byte: u8, text: &[u8]) -> usize
    ensures place { result ≡ position_or_len (λ b. b == byte) text.now }
    ensures within { result ≤ length text.now }
{
    place_of(byte, text).unwrap_or(text.len())
}

/// What stands before the first such byte; the whole text where there is none.
pub fn before(byte: u8, text: &[u8]) -> &[u8]
    ensures { result.now ≡ before_byte byte text.now }
{
    text.split_at(place_or_end(byte, text)).0
}

/// What stands behind the first such byte; nothing where there is none.
pub fn behind(byte: u8, text: &[u8]) -> &[u8]
    ensures { result.now ≡ behind_byte byte text.now }
{
    let place = place_or_end(byte, text);
    if place < text.len() {
        text.split_at(place + 1).1
    } else {
        &[]
    }
}

/// What stands between such bytes, as parts of the text: one more than there are such bytes.
pub fn slices_at(alloc: Global, byte: u8, text: &[u8]) -> Result<Vec<&[u8]>, AllocError>
    ensures { IfOk result (λ slices. map (λ s. s.now) slices.items ≡ pieces_at byte text.now) }
{
    text.split(|b| is_byte(byte, *b)).collect(alloc)
}

fn own(alloc: Global, slices: &[&[u8]]) -> Result<List<Text>, AllocError>
    ensures { IfOk result (λ texts. texts ≡ map (λ s. s.now) slices.now) }
{
    let mut texts = List::new(alloc);
    for slice in slices {
        texts.push(Text::from_bytes(alloc, slice)?)?;
    }
    Ok(texts)
}

/// What stands between such bytes, copied: one more than there are such bytes.
pub fn pieces(alloc: Global, byte: u8, text: &[u8]) -> Result<List<Text>, AllocError>
    ensures { IfOk result (λ texts. texts ≡ pieces_at byte text.now) }
{
    own(alloc, &slices_at(alloc, byte, text)?)
}

fn place_of_blank(text: &[u8]) -> Option<usize>
    ensures { result ≡ position is_blank text.now }
{
    text.iter().position(|b| is_blank_byte(*b))
}

#[tactic(auto, using(crate::proofs::Places::unwrap_position))]
fn blank_or_end(text: &[u8]) -> usize
    ensures place { result ≡ position_or_len is_blank text.now }
    ensures within { result ≤ length text.now }
{
    place_of_blank(text).unwrap_or(text.len())
}

/// What stands before the first blank; the whole text where there is none.
pub fn first_word(text: &[u8]) -> &[u8]
    ensures { result.now ≡ before_first is_blank text.now }
{
    text.split_at(blank_or_end(text)).0
}

/// What stands behind the first blank; nothing where there is none.
pub fn behind_word(text: &[u8]) -> &[u8]
    ensures { result.now ≡ after_first is_blank text.now }
{
    let place = blank_or_end(text);
    if place < text.len() {
        text.split_at(place + 1).1
    } else {
        &[]
    }
}

/// What stands before and what stands behind the first blank, by one search: the whole text and nothing where there is none.
pub fn split_word(text: &[u8]) -> (&[u8], &[u8])
    ensures before { result.0.now ≡ before_first is_blank text.now }
    ensures after { result.1.now ≡ after_first is_blank text.now }
{
    let place = blank_or_end(text);
    if place < text.len() {
        (text.split_at(place).0, text.split_at(place + 1).1)
    } else {
        (text, &[])
    }
}

fn slices_between(alloc: Global, text: &[u8]) -> Result<Vec<&[u8]>, AllocError>
    ensures { IfOk result (λ slices. map (λ s. s.now) slices.items ≡ slice_split is_blank text.now) }
{
    text.split(|b| is_blank_byte(*b)).collect(alloc)
}

fn is_filled(text: &[u8]) -> bool
    ensures { result ≡ not (length text.now == 0) }
{
    !text.is_empty()
}

fn push_words(alloc: Global, words: &mut List<Text>, text: &[u8]) -> Result<(), AllocError>
    ensures { OnOk result (words.new ≡ words.old ++ blank_pieces text.now) }
{
    for slice in slices_between(alloc, text)?.as_slice() {
        if is_filled(slice) {
            words.push(Text::from_bytes(alloc, slice)?)?;
        }
    }
    Ok(())
}

/// What stands between blanks, however many.
pub fn words_between(alloc: Global, text: &[u8]) -> Result<List<Text>, AllocError>
    ensures { IfOk result (λ words. words ≡ blank_pieces text.now) }
{
    let mut words = List::new(alloc);
    push_words(alloc, &mut words, text)?;
    Ok(words)
}

/// A text without the blanks at its start.
pub fn without_first(text: &[u8]) -> &[u8]
    ensures { result.now ≡ without_first_blanks text.now }
{
    let mut rest = text;
    while let Some((first, others)) = rest.split_first() {
        if !is_blank_byte(*first) {
            return rest;
        }
        rest = others;
    }
    rest
}

/// A text without the blanks at its end.
pub fn without_last(text: &[u8]) -> &[u8]
    ensures { result.now ≡ without_last_blanks text.now }
{
    let mut rest = text;
    while let Some((last, others)) = rest.split_last() {
        if !is_blank_byte(*last) {
            return rest;
        }
        rest = others;
    }
    rest
}

/// A text without the blanks at its ends.
pub fn trimmed_text(text: &[u8]) -> &[u8]
    ensures { result.now ≡ trimmed text.now }
{
    without_last(without_first(text))
}

#[tactic(auto, using(crate::proofs::Items::nothing_between, crate::proofs::Items::some_between))]
fn push_items(alloc: Global, items: &mut List<Text>, text: &[u8]) -> Result<(), AllocError>
    ensures { OnOk result (items.new ≡ items.old ++ items_between text.now) }
{
    let before = items.len();
    push_words(alloc, items, text)?;
    if items.len() == before {
        items.push(Text::new(alloc))?;
    }
    Ok(())
}

fn push_all_items(alloc: Global, items: &mut List<Text>, slices: &[&[u8]]) -> Result<(), AllocError>
    ensures { OnOk result (items.new ≡ items.old ++ items_of_all (map (λ s. s.now) slices.now)) }
{
    for slice in slices {
        push_items(alloc, items, slice)?;
    }
    Ok(())
}

/// The items of a list in a body: blanks, or a comma with or without blanks round it, part them, and NONE is the
/// empty list. Nothing between two commas is an empty item.
pub fn items_of_list(alloc: Global, text: &[u8]) -> Result<List<Text>, AllocError>
    ensures { IfOk result (λ items. items ≡ list_items text.now) }
{
    let mut items = List::new(alloc);
    if !is_word(trimmed_text(text), b"NONE") {
        push_all_items(alloc, &mut items, &slices_at(alloc, b',', text)?)?;
    }
    Ok(items)
}
