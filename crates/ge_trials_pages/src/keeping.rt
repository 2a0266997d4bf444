//! Runs over areas that go on from what the page before left.

use crate::areas::{Areas, Given, push_area};
use crate::running::{run, shown};
use ge_outside::{MemDisk, MemSource};
use ge_pieces::{before, behind, behind_word, digits_worth, first_word, is_word};
use ge_trials_rows::{area, area_of, made};
use std::alloc::{AllocError, Global};

// The area that a line gives, or `=`, which stands for the bytes that the run before left.
fn area_on(alloc: Global, line: &[u8], left: &Vec<u8>) -> Result<MemDisk, AllocError> {
    if is_word(line, b"=") {
        area(alloc, left.as_slice(), 0)
    } else {
        area_of(alloc, line, 0)
    }
}

/// A page `areas`: the words of a run, the bytes of both areas, each on a line, and then the script. It tells the bytes of both
/// areas afterwards.
pub(crate) fn areas_page(
    alloc: Global,
    body: &[u8],
    areas: &mut Areas,
) -> Result<Vec<u8>, AllocError> {
    let given = Given::new(body);
    let mut a = area_on(alloc, given.a, &areas.a)?;
    let mut b = area_on(alloc, given.b, &areas.b)?;
    let mut input = MemSource::new(given.rest.to_vec(alloc)?, Vec::new(alloc));
    let ran = run(alloc, given.words, &mut input, 0, &mut a, &mut b)?;
    areas.a = a.bytes().to_vec(alloc)?;
    areas.b = b.bytes().to_vec(alloc)?;
    let mut text = ran.told(alloc)?;
    push_area(alloc, &mut text, b"a ", a.bytes())?;
    push_area(alloc, &mut text, b"b ", b.bytes())?;
    Ok(text)
}

// The number of the call of a sort that a line lets fail, or 0.
fn fails_at(line: &[u8], sort: &[u8]) -> u64 {
    if is_word(first_word(line), sort) {
        digits_worth(behind_word(line))
    } else {
        0
    }
}

/// A page `kept`: the words of a run, the bytes of both areas, and which call fails, as `read 2`, `write 1`, or nothing, each on
/// a line, and then the lines of a script that is made. It tells what `status` writes afterwards.
pub(crate) fn kept_page(
    alloc: Global,
    body: &[u8],
    areas: &mut Areas,
) -> Result<Vec<u8>, AllocError> {
    let given = Given::new(body);
    let (line, lines) = (before(b'\n', given.rest), behind(b'\n', given.rest));
    let mut a = area_on(alloc, given.a, &areas.a)?;
    let mut b = area_on(alloc, given.b, &areas.b)?;
    let reads = [fails_at(line, b"read")].to_vec(alloc)?;
    let mut input = MemSource::new(made(alloc, lines)?, reads);
    let write = fails_at(line, b"write");
    let ran = run(alloc, given.words, &mut input, write, &mut a, &mut b)?;
    areas.a = a.bytes().to_vec(alloc)?;
    areas.b = b.bytes().to_vec(alloc)?;
    let mut text = ran.told(alloc)?;
    shown(alloc, &mut a, &mut b)?.push_to(alloc, &mut text)?;
    Ok(text)
}
