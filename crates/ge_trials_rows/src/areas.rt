//! Bytes that are given as words of hex, and areas in memory that hold them. Wrong digits end a run as want of memory does.

use ge_outside::MemDisk;
use ge_pieces::{before, behind, digits_worth, has, slices_at};
use std::alloc::{AllocError, Global};

// How often a word's bytes are taken.
fn times_of(word: &[u8]) -> u64 {
    if has(b'*', word) {
        digits_worth(before(b'*', word))
    } else {
        1
    }
}

// The digits of a word.
fn digits_of(word: &[u8]) -> &[u8] {
    if has(b'*', word) {
        behind(b'*', word)
    } else {
        word
    }
}

/// Adds a word's bytes: in hex, behind a number and a star where they stand so many times.
pub(crate) fn push_word(alloc: Global, bytes: &mut Vec<u8>, word: &[u8]) -> Result<(), AllocError> {
    let Ok(piece) = hex::decode(alloc, digits_of(word)) else {
        return Err(AllocError);
    };
    for _ in 0..times_of(word) {
        bytes.extend_from_slice(piece.as_slice())?;
    }
    Ok(())
}

/// The bytes that a line gives: words of hex between blanks.
pub fn bytes_of(alloc: Global, line: &[u8]) -> Result<Vec<u8>, AllocError> {
    let mut bytes = Vec::new(alloc);
    for word in slices_at(alloc, b' ', line)?.as_slice() {
        push_word(alloc, &mut bytes, word)?;
    }
    Ok(bytes)
}

/// An area that holds some bytes and fails at one call, counted from 1; at none where the number is 0.
pub fn area(alloc: Global, bytes: &[u8], fails: u64) -> Result<MemDisk, AllocError> {
    Ok(MemDisk::new(alloc, bytes.to_vec(alloc)?, [fails].to_vec(alloc)?))
}

/// Such an area of the bytes that a line gives.
pub fn area_of(alloc: Global, line: &[u8], fails: u64) -> Result<MemDisk, AllocError> {
    area(alloc, bytes_of(alloc, line)?.as_slice(), fails)
}
