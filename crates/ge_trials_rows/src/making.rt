//! Scripts that are made from a few lines.

use ge_pieces::{behind_word, digits_worth, first_word, is_word, slices_at};
use std::alloc::{AllocError, Global};

// A text, in which a bar stands for a line feed.
fn put(script: &mut Vec<u8>, text: &[u8]) -> Result<(), AllocError> {
    for byte in text {
        script.push(if *byte == b'|' { b'\n' } else { *byte })?;
    }
    Ok(())
}

// A text so many times.
fn put_times(
    alloc: Global,
    script: &mut Vec<u8>,
    times: u64,
    text: &[u8],
) -> Result<(), AllocError> {
    let mut piece = Vec::new(alloc);
    put(&mut piece, text)?;
    for _ in 0..times {
        script.extend_from_slice(piece.as_slice())?;
    }
    Ok(())
}

// A text for a number, which stands for each `#` in it; the next number stands for each `%`.
fn put_numbered(
    alloc: Global,
    script: &mut Vec<u8>,
    number: u64,
    text: &[u8],
) -> Result<(), AllocError> {
    let this = number.to_string(alloc)?;
    let next = number.saturating_add(1).to_string(alloc)?;
    for byte in text {
        match *byte {
            b'#' => script.extend_from_slice(this.as_bytes())?,
            b'%' => script.extend_from_slice(next.as_bytes())?,
            other => script.push(other)?,
        }
    }
    Ok(())
}

// A text for each number from one on to another.
fn put_counted(
    alloc: Global,
    script: &mut Vec<u8>,
    first: u64,
    last: u64,
    text: &[u8],
) -> Result<(), AllocError> {
    let mut piece = Vec::new(alloc);
    put(&mut piece, text)?;
    for number in first..=last {
        put_numbered(alloc, script, number, piece.as_slice())?;
    }
    Ok(())
}

fn put_line(script: &mut Vec<u8>, line: &[u8]) -> Result<(), AllocError> {
    script.extend_from_slice(line)?;
    script.extend_from_slice(b"\n")
}

// What one line adds.
fn put_made(alloc: Global, script: &mut Vec<u8>, line: &[u8]) -> Result<(), AllocError> {
    let (word, rest) = (first_word(line), behind_word(line));
    let (number, behind) = (first_word(rest), behind_word(rest));
    if line.is_empty() {
        Ok(())
    } else if is_word(word, b"%put") {
        put(script, rest)
    } else if is_word(word, b"%times") {
        put_times(alloc, script, digits_worth(number), behind)
    } else if is_word(word, b"%count") {
        let last = digits_worth(first_word(behind));
        put_counted(
            alloc,
            script,
            digits_worth(number),
            last,
            behind_word(behind),
        )
    } else {
        put_line(script, line)
    }
}

/// The script that some lines make. `%put TEXT` adds the text, `%times N TEXT` adds it N times, `%count FIRST LAST TEXT` adds it
/// for each number from one to the other, where each `#` is that number and each `%` the next one; in all of them a bar is a
/// line feed. An empty line adds nothing. Any other line adds itself and a line feed.
pub fn made(alloc: Global, lines: &[u8]) -> Result<Vec<u8>, AllocError> {
    let mut script = Vec::new(alloc);
    for line in slices_at(alloc, b'\n', lines)?.as_slice() {
        put_made(alloc, &mut script, line)?;
    }
    Ok(script)
}
