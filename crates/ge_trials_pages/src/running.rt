//! The top calls over streams and areas in memory.

use ge_outside::{MemClock, MemDisk, MemDoor, MemSink, MemSource, PlainSource, Source};
use ge_top::{gridmaster, simulate};
use ge_trials_rows::words_at;
use std::alloc::{AllocError, Global};

/// What a run wrote, and its status.
#[derive(Drop)]
pub(crate) struct Ran {
    pub(crate) status: u8,
    pub(crate) written: Vec<u8>,
}

impl Ran {
    /// Adds what was written, and a line with the status.
    pub(crate) fn push_to(&self, alloc: Global, text: &mut Vec<u8>) -> Result<(), AllocError> {
        text.extend_from_slice(self.written.as_slice())?;
        text.extend_from_slice(b"status ")?;
        text.extend_from_slice(self.status.to_string(alloc)?.as_bytes())?;
        text.extend_from_slice(b"\n")
    }

    /// What was written, and a line with the status.
    pub(crate) fn told(&self, alloc: Global) -> Result<Vec<u8>, AllocError> {
        let mut text = Vec::new(alloc);
        self.push_to(alloc, &mut text)?;
        Ok(text)
    }
}

/// A run with the words of a line, of which one write fails, counted from 1; none where the number is 0.
pub(crate) fn run<S: Source>(
    alloc: Global,
    line: &[u8],
    input: &mut S,
    fails: u64,
    a: &mut MemDisk,
    b: &mut MemDisk,
) -> Result<Ran, AllocError> {
    let words = words_at(alloc, b' ', line)?;
    let mut output = MemSink::new(alloc, [fails].to_vec(alloc)?);
    let mut door = MemDoor::new(alloc, Vec::new(alloc), Vec::new(alloc));
    let mut clock = MemClock::new(Vec::new(alloc));
    let status = gridmaster(
        alloc,
        &words,
        input,
        &mut output,
        a,
        b,
        &mut door,
        &mut clock,
    );
    Ok(Ran {
        status,
        written: output.bytes().to_vec(alloc)?,
    })
}

/// The run of `status` over two areas.
pub(crate) fn shown(alloc: Global, a: &mut MemDisk, b: &mut MemDisk) -> Result<Ran, AllocError> {
    let mut input = MemSource::new(Vec::new(alloc), Vec::new(alloc));
    run(alloc, b"status", &mut input, 0, a, b)
}

/// A run of `simulate`.
pub(crate) fn simulated<S: Source>(alloc: Global, input: &mut S) -> Result<Ran, AllocError> {
    let mut output = MemSink::new(alloc, Vec::new(alloc));
    let status = simulate(alloc, input, &mut output);
    Ok(Ran {
        status,
        written: output.bytes().to_vec(alloc)?,
    })
}

/// A page `simulate`, which is a script.
pub(crate) fn script_page(alloc: Global, script: &[u8]) -> Result<Vec<u8>, AllocError> {
    simulated(alloc, &mut PlainSource::new(script.to_vec(alloc)?))?.told(alloc)
}
