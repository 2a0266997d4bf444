//! Questions over connections in memory, and connections to a new master.
//!
//! - `port WORDS`: the port that the words of a question name; commas part them.
//! - `asked WORDS|CALL|CALL|CALL|BYTES|INPUT`: a question over one connection on which these bytes come; the read of the input, the
//!   write of the output and the call of the connection that have these numbers fail. Where the last is `none` no connection
//!   comes. It tells the status, what is printed, and in brackets what was sent over each connection.
//! - `served MOMENTS|CALL|BYTES`: how a connection with these bytes ends at a new master whose clock says these moments, and what
//!   is written to it. The call of this number fails.

use ge_master::Master;
use ge_outside::{MemClock, MemDisk, MemDoor, MemLink, MemSink, MemSource};
use ge_pieces::is_word;
use ge_rows::Text;
use ge_serve::{LinkEnd, serve_link};
use ge_trials_rows::{
    Rows, append_all, append_closed, at_bar, bytes, failing, moments, no_such_row, words_at,
};
use ge_wire::{ask, port_of};
use std::alloc::{AllocError, Global};

// The port that words name.
fn port(alloc: Global, given: &[u8]) -> Result<Text, AllocError> {
    let port = port_of(&words_at(alloc, b',', given)?);
    Text::from_bytes(alloc, port.to_string(alloc)?.as_bytes())
}

// A door of one connection with these bytes, of which the call of a number fails, or of none.
fn door_of(alloc: Global, call: &[u8], text: &[u8]) -> Result<MemDoor, AllocError> {
    let mut links = Vec::new(alloc);
    if is_word(call, b"none") {
        return Ok(MemDoor::new(alloc, links, Vec::new(alloc)));
    }
    let (bytes, calls) = (bytes(alloc, text)?, failing(alloc, call)?);
    links.push(MemLink::new(alloc, bytes, calls))?;
    Ok(MemDoor::new(alloc, links, Vec::new(alloc)))
}

// What a question answers: the status, what is printed, and what was sent.
fn told(alloc: Global, status: u8, output: &MemSink, door: &MemDoor) -> Result<Text, AllocError> {
    let mut text = Text::from_bytes(alloc, status.to_string(alloc)?.as_bytes())?;
    append_all(&mut text, &[b"|", output.bytes(), b"|"])?;
    append_closed(&mut text, door)?;
    Ok(text)
}

// A question over a connection.
fn asked(alloc: Global, given: &[u8]) -> Result<Text, AllocError> {
    let (words, rest) = at_bar(given);
    let (read, rest) = at_bar(rest);
    let (write, rest) = at_bar(rest);
    let (call, rest) = at_bar(rest);
    let (reply, question) = at_bar(rest);
    let words = words_at(alloc, b',', words)?;
    let mut input = MemSource::new(bytes(alloc, question)?, failing(alloc, read)?);
    let mut output = MemSink::new(alloc, failing(alloc, write)?);
    let mut door = door_of(alloc, call, reply)?;
    let status = ask(alloc, &words, &mut input, &mut output, &mut door);
    told(alloc, status, &output, &door)
}

fn end_text(alloc: Global, end: LinkEnd) -> Result<Text, AllocError> {
    match end {
        LinkEnd::Done => Text::from_bytes(alloc, b"Done"),
        LinkEnd::Stopped => Text::from_bytes(alloc, b"Stopped"),
        LinkEnd::Read => Text::from_bytes(alloc, b"Read"),
        LinkEnd::Write => Text::from_bytes(alloc, b"Write"),
        LinkEnd::Frame(place) => {
            Text::from_bytes(alloc, format!(in alloc; "Frame({place})")?.as_bytes())
        }
        LinkEnd::Long => Text::from_bytes(alloc, b"Long"),
        LinkEnd::Memory => Err(AllocError),
    }
}

// How a connection to a new master ends.
fn end_of(alloc: Global, link: &mut MemLink, clock: &mut MemClock) -> Result<Text, AllocError> {
    let mut a = MemDisk::new(alloc, Vec::new(alloc), Vec::new(alloc));
    let mut b = MemDisk::new(alloc, Vec::new(alloc), Vec::new(alloc));
    let mut master = match Master::open(alloc, &mut a, &mut b) {
        Ok(master) => master,
        Err(_) => return Text::from_bytes(alloc, b"no master"),
    };
    match serve_link(alloc, &mut master, &mut a, &mut b, link, clock) {
        Ok(end) => end_text(alloc, end),
        Err(_) => Text::from_bytes(alloc, b"no master"),
    }
}

// A connection to a new master.
fn served(alloc: Global, given: &[u8]) -> Result<Text, AllocError> {
    let (times, rest) = at_bar(given);
    let (call, rest) = at_bar(rest);
    let (bytes, calls) = (bytes(alloc, rest)?, failing(alloc, call)?);
    let mut link = MemLink::new(alloc, bytes, calls);
    let mut clock = MemClock::new(moments(alloc, times)?);
    let mut text = end_of(alloc, &mut link, &mut clock)?;
    append_all(&mut text, &[b"|", link.written()])?;
    Ok(text)
}

/// The rows of a page `links`.
pub(crate) struct Links;

impl Rows for Links {
    fn answer(&self, alloc: Global, name: &[u8], given: &[u8]) -> Result<Text, AllocError> {
        if is_word(name, b"port") {
            port(alloc, given)
        } else if is_word(name, b"asked") {
            asked(alloc, given)
        } else if is_word(name, b"served") {
            served(alloc, given)
        } else {
            no_such_row(alloc)
        }
    }
}
