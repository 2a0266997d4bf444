//! Rows of runs over a log.

use crate::disks::{Disks, Ran};
use ge_outside::MemDisk;
use ge_pieces::{digits_worth, is_word, slices_at};
use ge_rows::Text;
use ge_trials_rows::{
    Rows, append_all, append_hex, area, area_of, at_bar, bytes, bytes_of, no_such_row,
};
use std::alloc::{AllocError, Global};

/// How many images of a log are tried.
const IMAGES: u64 = 8;

/// A log of more bytes is told by their number.
const SHORT: usize = 32;

// What a run wrote, and its status.
fn append_run(alloc: Global, text: &mut Text, ran: &Ran) -> Result<(), AllocError> {
    let status = ran.status.to_string(alloc)?;
    append_all(text, &[ran.written.as_slice(), status.as_bytes(), b" "])
}

// The bytes of a log, or how many they are.
fn append_log(alloc: Global, text: &mut Text, log: &[u8]) -> Result<(), AllocError> {
    if log.len() <= SHORT {
        append_hex(alloc, text, log)
    } else {
        let size = log.len().to_string(alloc)?;
        append_all(text, &[size.as_bytes(), b" bytes"])
    }
}

// A row `log SCRIPT|LOG|WORDS;WORDS`: what each of these runs writes, with its status, over the areas that a script leaves and a log of
// these bytes; and the log afterwards.
fn logged(alloc: Global, given: &[u8]) -> Result<Text, AllocError> {
    let (script, rest) = at_bar(given);
    let (log, runs) = at_bar(rest);
    let disks = Disks::after(alloc, bytes(alloc, script)?.as_slice())?;
    let mut log = area_of(alloc, log, 0)?;
    let mut text = Text::new(alloc);
    for line in slices_at(alloc, b';', runs)?.as_slice() {
        append_run(alloc, &mut text, &disks.run(alloc, line, &mut log)?)?;
    }
    append_log(alloc, &mut text, log.bytes())?;
    Ok(text)
}

// How many lines a log has, by what is shown of it.
fn lines_of(alloc: Global, disks: &Disks, log: &mut MemDisk) -> Result<usize, AllocError> {
    let ran = disks.run(alloc, b"show", log)?;
    let lines = slices_at(alloc, b'\n', ran.written.as_slice())?;
    Ok(lines.len().saturating_sub(1))
}

// How many lines each image of a log has, and how many behind a further flush.
fn append_images(
    alloc: Global,
    text: &mut Text,
    disks: &Disks,
    log: &MemDisk,
) -> Result<(), AllocError> {
    for pick in 0..IMAGES {
        let mut image = log.image(pick)?;
        let before = lines_of(alloc, disks, &mut image)?;
        let _ran = disks.run(alloc, b"flush", &mut image)?;
        let after = lines_of(alloc, disks, &mut image)?;
        append_all(text, &[format!(in alloc; " {before}-{after}")?.as_bytes()])?;
    }
    Ok(())
}

// A row `stops SCRIPT|LOG|CALLS`: for each of so many calls of the log's disk, and for none, the status of a flush at which it fails, and
// how many lines the images of the log have then, and behind a further flush.
fn stopped(alloc: Global, given: &[u8]) -> Result<Text, AllocError> {
    let (script, rest) = at_bar(given);
    let (log, calls) = at_bar(rest);
    let disks = Disks::after(alloc, bytes(alloc, script)?.as_slice())?;
    let given = bytes_of(alloc, log)?;
    let mut text = Text::new(alloc);
    for call in 0..=digits_worth(calls) {
        let mut log = area(alloc, given.as_slice(), call)?;
        let status = disks.run(alloc, b"flush", &mut log)?.status;
        append_all(
            &mut text,
            &[format!(in alloc; "[{call}: {status}")?.as_bytes()],
        )?;
        append_images(alloc, &mut text, &disks, &log)?;
        append_all(&mut text, &[b"]"])?;
    }
    Ok(text)
}

/// Rows `log` and `stops`.
pub(crate) struct Accounts;

impl Rows for Accounts {
    fn answer(&self, alloc: Global, name: &[u8], given: &[u8]) -> Result<Text, AllocError> {
        if is_word(name, b"log") {
            logged(alloc, given)
        } else if is_word(name, b"stops") {
            stopped(alloc, given)
        } else {
            no_such_row(alloc)
        }
    }
}
