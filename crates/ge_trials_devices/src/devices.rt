//! Streams and clocks in memory, and the other devices.

use crate::{device_disks, device_links};
use ge_outside::{
    Clock, Failed, MemClock, MemSink, MemSource, PlainSource, Sink, Source, write_all,
};
use ge_pieces::is_word;
use ge_rows::Text;
use ge_trials_rows::{Rows, at_bar, failing, moments, no_such_row};
use std::alloc::{AllocError, Global};

// A sink that takes one byte at a time.
#[derive(Drop)]
struct Slow(MemSink);

impl Sink for Slow {
    ghost use Rattle.std.specs.Prelude.{Some};
    ghost use Rattle.ge_outside.specs.Memory.{sink_bytes, sink_faults};

    ghost written = { λ s. Some (sink_bytes s.0) };

    ghost write_faults = { λ s. sink_faults s.0 };

    fn write(&mut self, piece: &[u8]) -> Result<usize, Failed> {
        let (first, _) = piece.split_at(piece.len().min(1));
        self.0.write(first)
    }
}

// A row `write CALL|BYTES`: whether a piece is written byte by byte, where a call fails, and
// what has been written then.
fn slowly(alloc: Global, given: &[u8]) -> Result<Text, AllocError> {
    let (call, piece) = at_bar(given);
    let mut sink = Slow(MemSink::new(alloc, failing(alloc, call)?));
    let word: &[u8] = match write_all(&mut sink, piece) {
        Ok(()) => b"written ",
        Err(Failed) => b"failed ",
    };
    let mut line = Text::from_bytes(alloc, word)?;
    line.append(sink.0.bytes())?;
    Ok(line)
}

// Reads up to two bytes, and puts them at the end of a line with a comma.
fn append_read<S: Source>(line: &mut Text, source: &mut S) -> Result<(), AllocError> {
    let mut buf = [0; 2];
    match source.read(&mut buf) {
        Ok(count) => {
            let (read, _) = buf.as_slice().split_at(count);
            line.append(read)?;
        }
        Err(Failed) => line.append(b"failed")?,
    }
    line.append(b",")
}

// A row `read CALL|BYTES`: three reads, of which one fails.
fn read_thrice(alloc: Global, given: &[u8]) -> Result<Text, AllocError> {
    let (call, bytes) = at_bar(given);
    let mut source = MemSource::new(bytes.to_vec(alloc)?, failing(alloc, call)?);
    let mut line = Text::new(alloc);
    append_read(&mut line, &mut source)?;
    append_read(&mut line, &mut source)?;
    append_read(&mut line, &mut source)?;
    Ok(line)
}

// A row `plain BYTES`: one read.
fn read_once(alloc: Global, bytes: &[u8]) -> Result<Text, AllocError> {
    let mut source = PlainSource::new(bytes.to_vec(alloc)?);
    let mut line = Text::new(alloc);
    append_read(&mut line, &mut source)?;
    Ok(line)
}

// A row `clock MOMENTS`, with commas between: what a clock shows three times.
fn shown(alloc: Global, given: &[u8]) -> Result<Text, AllocError> {
    let mut clock = MemClock::new(moments(alloc, given)?);
    let (first, second, third) = (clock.now(), clock.now(), clock.now());
    let line = format!(in alloc; "{first} {second} {third}")?;
    Text::from_bytes(alloc, line.as_bytes())
}

/// The rows of a page `devices`: what is tried, a blank, and what it is given, with bars between.
pub(crate) struct Devices;

impl Rows for Devices {
    fn answer(&self, alloc: Global, name: &[u8], given: &[u8]) -> Result<Text, AllocError> {
        if is_word(name, b"write") {
            slowly(alloc, given)
        } else if is_word(name, b"read") {
            read_thrice(alloc, given)
        } else if is_word(name, b"plain") {
            read_once(alloc, given)
        } else if is_word(name, b"clock") {
            shown(alloc, given)
        } else if is_word(name, b"link") {
            device_links::told(alloc, given)
        } else if is_word(name, b"disk") {
            device_disks::told(alloc, given)
        } else if is_word(name, b"image") {
            device_disks::images(alloc)
        } else {
            no_such_row(alloc)
        }
    }
}
