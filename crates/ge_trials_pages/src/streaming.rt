//! Runs over streams that fail, are interrupted, or give and take little.

use crate::readers::{Dripping, Interrupted, Narrow, Slow};
use crate::running::{Ran, run, shown, simulated};
use ge_edge::{StdinSource, StdoutSink};
use ge_outside::PlainSource;
use ge_pieces::{before, behind, behind_word, digits_worth, first_word, is_word};
use ge_top::simulate;
use ge_trials_rows::{area, made};
use std::alloc::{AllocError, Global};
use std::io::{ErrorKind, Read};

// A run of `simulate` from a reader into a writer that takes so many bytes at most.
fn narrowed<R: Read + Drop>(alloc: Global, reader: R, most: usize) -> Ran {
    let mut written = Vec::new(alloc);
    let mut input = StdinSource::new(reader);
    let mut output = StdoutSink::new(Narrow {
        taken: &mut written,
        most,
        is_next: false,
    });
    let status = simulate(alloc, &mut input, &mut output);
    Ran { status, written }
}

// A reader of a script that ends in an error where a word says so.
fn dripping<'a>(word: &[u8], script: &'a [u8]) -> Dripping<'a> {
    Dripping {
        bytes: script,
        error: if is_word(word, b"error") {
            Some(ErrorKind::ConnectionReset)
        } else {
            None
        },
    }
}

fn streamed(alloc: Global, line: &[u8], script: &[u8]) -> Result<Ran, AllocError> {
    let word = first_word(line);
    let most = digits_worth(behind_word(line)) as usize;
    if is_word(word, b"slow") {
        let mut input = Slow(PlainSource::new(script.to_vec(alloc)?));
        return simulated(alloc, &mut input);
    }
    let inner = dripping(word, script);
    if is_word(word, b"interrupted") {
        let is_next = false;
        return Ok(narrowed(alloc, Interrupted { inner, is_next }, most));
    }
    Ok(narrowed(alloc, inner, most))
}

/// A page `streams`: on a line the reader and how many bytes the writer takes, and then the lines of a script that is made and
/// simulated. The reader gives single bytes, and then an `end` or an `error`; of an `interrupted` one each second read is. Of
/// the writer each second write is interrupted. A `slow` source gives single bytes too, to a writer that takes all.
pub(crate) fn streams_page(alloc: Global, body: &[u8]) -> Result<Vec<u8>, AllocError> {
    let (line, lines) = (before(b'\n', body), behind(b'\n', body));
    let script = made(alloc, lines)?;
    streamed(alloc, line, script.as_slice())?.told(alloc)
}

// Adds what is told of a run over two new areas from a source that breaks off behind some bytes.
fn push_front(
    alloc: Global,
    text: &mut Vec<u8>,
    words: &[u8],
    front: &[u8],
) -> Result<(), AllocError> {
    let mut a = area(alloc, b"", 0)?;
    let mut b = area(alloc, b"", 0)?;
    let mut input = StdinSource::new(dripping(b"error", front));
    let ran = run(alloc, words, &mut input, 0, &mut a, &mut b)?;
    text.extend_from_slice(b"front ")?;
    text.extend_from_slice(front.len().to_string(alloc)?.as_bytes())?;
    text.extend_from_slice(b"\n")?;
    ran.push_to(alloc, text)?;
    shown(alloc, &mut a, &mut b)?.push_to(alloc, text)
}

/// A page `fronts`: on a line the words of a run, and then the lines of a script that is made. It tells of each front of the
/// script what a run writes whose source breaks off there, and what `status` writes then.
pub(crate) fn fronts_page(alloc: Global, body: &[u8]) -> Result<Vec<u8>, AllocError> {
    let (words, lines) = (before(b'\n', body), behind(b'\n', body));
    let script = made(alloc, lines)?;
    let mut text = Vec::new(alloc);
    for end in 0..=script.len() {
        let front = script.as_slice().get(..end).unwrap_or(&[]);
        push_front(alloc, &mut text, words, front)?;
    }
    Ok(text)
}
