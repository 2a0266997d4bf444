//! Rows of a page, each told with its answer, and bytes in hex.
//!
//! A row is a line of a name, a blank and what is given, and is told with ` = ` and its answer behind it. In what is given, what
//! stands between two `%` is bytes in hex, behind a number and a star where they stand so many times: `%0d0a%`, `%3*61%`, and
//! `%25%` for a `%` itself. All other bytes stand for themselves. In an answer each byte that is no plain character is in hex so,
//! and 100 or more equal bytes are told as their number, a star and the byte.
//!
//! - `at_bar(text)`: what bars part.
//! - `bytes(alloc, text)`: the bytes that a text of a row stands for. A row's parts are cut first, and then read by it.
//! - `push_bytes(alloc, &mut text, bytes)`: adds bytes as an answer has them.
//! - `push_answer(alloc, &mut text, row, answer)`: adds the line that is told of a row; `answer` are its bytes, not yet in hex.

use crate::areas::push_word;
use ge_pieces::{before, behind, slices_at};
use std::alloc::{AllocError, Global};

/// So many equal bytes are told as their number.
const MANY: u64 = 100;

/// What stands before the first bar of a text, and what behind it.
pub fn at_bar(text: &[u8]) -> (&[u8], &[u8]) {
    (before(b'|', text), behind(b'|', text))
}

/// The bytes that a text of a row stands for.
pub fn bytes(alloc: Global, text: &[u8]) -> Result<Vec<u8>, AllocError> {
    let mut bytes = Vec::new(alloc);
    let mut is_hex = false;
    for piece in slices_at(alloc, b'%', text)?.as_slice() {
        if is_hex {
            push_word(alloc, &mut bytes, piece)?;
        } else {
            bytes.extend_from_slice(piece)?;
        }
        is_hex = !is_hex;
    }
    Ok(bytes)
}

fn is_plain(byte: u8) -> bool {
    byte >= 32 && byte <= 126 && byte != b'%'
}

// A text to which bytes are added, and whether a `%` is open in it.
#[derive(Drop)]
struct Told<'a> {
    alloc: Global,
    text: &'a mut Vec<u8>,
    is_hex: bool,
}

impl Told<'_> {
    // Opens hex, or closes it.
    fn turn(&mut self, is_hex: bool) -> Result<(), AllocError> {
        if self.is_hex != is_hex {
            self.text.push(b'%')?;
        }
        self.is_hex = is_hex;
        Ok(())
    }

    fn push(&mut self, byte: u8) -> Result<(), AllocError> {
        if is_plain(byte) {
            self.turn(false)?;
            self.text.push(byte)?;
            Ok(())
        } else {
            self.turn(true)?;
            let digits = hex::encode(self.alloc, [byte].as_slice())?;
            self.text.extend_from_slice(digits.as_bytes())
        }
    }

    // Adds a byte so many times.
    fn push_times(&mut self, byte: u8, times: u64) -> Result<(), AllocError> {
        if times >= MANY {
            self.turn(false)?;
            let word = format!(in self.alloc; "%{times}*{byte:02x}%")?;
            return self.text.extend_from_slice(word.as_bytes());
        }
        for _ in 0..times {
            self.push(byte)?;
        }
        Ok(())
    }
}

/// Adds bytes as an answer has them.
pub fn push_bytes(alloc: Global, text: &mut Vec<u8>, bytes: &[u8]) -> Result<(), AllocError> {
    let is_hex = false;
    let mut told = Told {
        alloc,
        text,
        is_hex,
    };
    let mut last = 0;
    let mut times: u64 = 0;
    for byte in bytes {
        if *byte != last {
            told.push_times(last, times)?;
            last = *byte;
            times = 0;
        }
        times = times.saturating_add(1);
    }
    told.push_times(last, times)?;
    told.turn(false)
}

/// Adds the line that is told of a row.
pub(crate) fn push_answer(
    alloc: Global,
    text: &mut Vec<u8>,
    row: &[u8],
    answer: &[u8],
) -> Result<(), AllocError> {
    text.extend_from_slice(row)?;
    text.extend_from_slice(b" = ")?;
    push_bytes(alloc, text, answer)?;
    text.extend_from_slice(b"\n")
}
