//! Runs where each call of an area fails in its turn, and what a stop may leave then.

use crate::areas::Given;
use crate::running::{Ran, run, shown};
use ge_outside::{MemDisk, MemSource};
use ge_pieces::{before, behind, is_word};
use ge_trials_rows::{area, bytes_of, made};
use std::alloc::{AllocError, Global};

// More calls of an area than any page makes.
const CALLS: u64 = 1000;

// A run over two areas, of which the first or the second fails.
#[derive(Drop)]
struct Trial<'a> {
    words: &'a [u8],
    a: Vec<u8>,
    b: Vec<u8>,
    is_second: bool,
    script: Vec<u8>,
}

// Whether a text is one of some.
fn is_told(told: &[Vec<u8>], text: &[u8]) -> bool {
    for other in told {
        if other.as_slice() == text {
            return true;
        }
    }
    false
}

// What `status` tells of eight draws of what a stop may leave now, each text once.
fn push_drawn(
    alloc: Global,
    text: &mut Vec<u8>,
    a: &MemDisk,
    b: &MemDisk,
) -> Result<(), AllocError> {
    let mut told: Vec<Vec<u8>> = Vec::new(alloc);
    for pick in 0..8u64 {
        let mut first = a.image(pick)?;
        let mut second = b.image(pick * 7 + 3)?;
        let look = shown(alloc, &mut first, &mut second)?.told(alloc)?;
        if !is_told(told.as_slice(), look.as_slice()) {
            text.extend_from_slice(look.as_slice())?;
            told.push(look)?;
        }
    }
    Ok(())
}

// What is told of the call of a number, counted from 1.
fn push_call(alloc: Global, text: &mut Vec<u8>, call: u64, ran: &Ran) -> Result<(), AllocError> {
    text.extend_from_slice(b"call ")?;
    text.extend_from_slice(call.to_string(alloc)?.as_bytes())?;
    text.extend_from_slice(b"\n")?;
    ran.push_to(alloc, text)
}

// Lets one call fail, and tells what is left; false where the run ends well all the same, since it makes fewer calls.
fn try_call(
    alloc: Global,
    text: &mut Vec<u8>,
    trial: &Trial<'_>,
    call: u64,
) -> Result<bool, AllocError> {
    let (of_a, of_b) = if trial.is_second {
        (0, call)
    } else {
        (call, 0)
    };
    let mut a = area(alloc, trial.a.as_slice(), of_a)?;
    let mut b = area(alloc, trial.b.as_slice(), of_b)?;
    let mut input = MemSource::new(trial.script.to_vec(alloc)?, Vec::new(alloc));
    let ran = run(alloc, trial.words, &mut input, 0, &mut a, &mut b)?;
    if ran.status == 0 {
        return Ok(false);
    }
    push_call(alloc, text, call, &ran)?;
    push_drawn(alloc, text, &a, &b)?;
    Ok(true)
}

fn trial_of<'a>(alloc: Global, body: &'a [u8]) -> Result<Trial<'a>, AllocError> {
    let given = Given::new(body);
    let (which, lines) = (before(b'\n', given.rest), behind(b'\n', given.rest));
    Ok(Trial {
        words: given.words,
        a: bytes_of(alloc, given.a)?,
        b: bytes_of(alloc, given.b)?,
        is_second: is_word(which, b"b"),
        script: made(alloc, lines)?,
    })
}

/// A page `calls`: the words of a run, the bytes of both areas, and which of them fails, `a` or `b`, each on a line, and then
/// the lines of a script that is made. It tells of each call of that area what a run writes in which it fails, and what
/// `status` then writes of the areas that a stop may leave.
pub(crate) fn calls_page(alloc: Global, body: &[u8]) -> Result<Vec<u8>, AllocError> {
    let trial = trial_of(alloc, body)?;
    let mut text = Vec::new(alloc);
    for call in 1..CALLS {
        if !try_call(alloc, &mut text, &trial, call)? {
            return Ok(text);
        }
    }
    Ok(text)
}
