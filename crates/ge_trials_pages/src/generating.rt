//! Scripts that are made up from a number, and their trials.

use crate::running::simulated;
use ge_outside::{MemSink, PlainSource};
use ge_pieces::{before, digits_worth, slices_at};
use ge_top::{generate, trial};
use std::alloc::{AllocError, Global};

// How many lines tell of a start.
fn starts_in(alloc: Global, written: &[u8]) -> Result<u64, AllocError> {
    let mut starts: u64 = 0;
    for line in slices_at(alloc, b'\n', written)?.as_slice() {
        if line.starts_with(b"start ") {
            starts = starts.saturating_add(1);
        }
    }
    Ok(starts)
}

/// A page `generated`: a number of jobs. It tells the status of writing the script that is made up from it, that of simulating the
/// script and how many tasks are then started, and the status and the line of its trial.
pub(crate) fn generated_page(alloc: Global, body: &[u8]) -> Result<Vec<u8>, AllocError> {
    let jobs = digits_worth(before(b'\n', body)).min(100_000) as u32;
    let mut script = MemSink::new(alloc, Vec::new(alloc));
    let generated = generate(alloc, jobs, &mut script);
    let ran = simulated(alloc, &mut PlainSource::new(script.bytes().to_vec(alloc)?))?;
    let (status, starts) = (ran.status, starts_in(alloc, ran.written.as_slice())?);
    let mut line = MemSink::new(alloc, Vec::new(alloc));
    let tried = trial(alloc, jobs, &mut line);
    let told = format!(in alloc;
        "generate {generated}, simulate {status} starts {starts}, trial {tried}\n"
    )?;
    let mut text = Vec::from_slice(alloc, told.as_bytes())?;
    text.extend_from_slice(line.bytes())?;
    Ok(text)
}
