//! Frames of requests and replies, whole and cut, and the events of payloads.
//!
//! - `frame PLACE|CALL|BYTES`: the frames of a source, of which the read of this number fails (none where it is 0), until none is
//!   read: each payload behind the place behind it, and then how it ends and where.
//! - `asked CALL|PAYLOAD`, `answered CALL|TEXT`: the frame that is written of a request or a reply, behind what the call says. The
//!   write of this number fails.
//! - `reply BYTES`: the text of a reply.
//! - `event PAYLOAD`: the event of a payload at the moment 5: its form, its moment, the user, the group and the text.

use ge_limits::TEXT_BYTES;
use ge_outside::{MemSink, MemSource};
use ge_pieces::{digits_worth, is_word};
use ge_printing::join_words;
use ge_rows::{Form, Text};
use ge_trials_rows::{Rows, at_bar, bytes, failing, no_such_row};
use ge_wire::{WireFault, frame_event, read_frame, read_reply, write_frame, write_reply};
use std::alloc::{AllocError, Global};

/// A connection has fewer bytes than this.
const LINK_BYTES: u64 = 1 << 40;

/// The moment of the events.
const MOMENT: u64 = 5;

// A place, what is read there, and what stands behind it.
fn append_read(
    alloc: Global,
    text: &mut Text,
    place: u64,
    read: &[u8],
    end: &[u8],
) -> Result<(), AllocError> {
    text.append(format!(in alloc; "{place} ")?.as_bytes())?;
    text.append(read)?;
    text.append(end)
}

fn fault_text(alloc: Global, fault: WireFault) -> Result<String, AllocError> {
    format!(in alloc; "{fault:?}")
}

// Adds what the next call answers, and tells whether there is one behind it.
fn append_frame(
    alloc: Global,
    text: &mut Text,
    source: &mut MemSource,
    place: &mut u64,
) -> Result<bool, AllocError> {
    let mut here = (*place).min(LINK_BYTES);
    let answer = read_frame(alloc, source, &mut here);
    *place = here;
    match answer {
        Ok(Some(payload)) => {
            append_read(alloc, text, here, payload.bytes(), b"|")?;
            Ok(true)
        }
        Ok(None) => {
            append_read(alloc, text, here, b"end", b"")?;
            Ok(false)
        }
        Err(fault) => {
            let fault = fault_text(alloc, fault)?;
            append_read(alloc, text, here, fault.as_bytes(), b"")?;
            Ok(false)
        }
    }
}

// The frames of a source, until none is read.
fn frames_in(alloc: Global, given: &[u8]) -> Result<Text, AllocError> {
    let (place, rest) = at_bar(given);
    let (call, rest) = at_bar(rest);
    let bytes = bytes(alloc, rest)?;
    let most = bytes.len();
    let mut source = MemSource::new(bytes, failing(alloc, call)?);
    let mut place = digits_worth(place);
    let mut text = Text::new(alloc);
    for _ in 0..=most {
        if !append_frame(alloc, &mut text, &mut source, &mut place)? {
            return Ok(text);
        }
    }
    Ok(text)
}

// What a call that writes says, and what was written.
fn written(
    alloc: Global,
    answer: Result<(), WireFault>,
    sink: &MemSink,
) -> Result<Text, AllocError> {
    match answer {
        Ok(()) => join_words(alloc, b"|", &[b"Ok", sink.bytes()]),
        Err(fault) => {
            let fault = fault_text(alloc, fault)?;
            join_words(alloc, b"|", &[fault.as_bytes(), sink.bytes()])
        }
    }
}

// The frame of a request.
fn asked(alloc: Global, given: &[u8]) -> Result<Text, AllocError> {
    let (call, rest) = at_bar(given);
    let payload = Text::from_vec(bytes(alloc, rest)?);
    if payload.len() == 0 || payload.len() > TEXT_BYTES {
        return Text::from_bytes(alloc, b"no payload");
    }
    let mut sink = MemSink::new(alloc, failing(alloc, call)?);
    let answer = write_frame(&mut sink, &payload);
    written(alloc, answer, &sink)
}

// The frame of a reply.
fn answered(alloc: Global, given: &[u8]) -> Result<Text, AllocError> {
    let (call, rest) = at_bar(given);
    let reply = Text::from_vec(bytes(alloc, rest)?);
    let mut sink = MemSink::new(alloc, failing(alloc, call)?);
    let answer = write_reply(&mut sink, &reply);
    written(alloc, answer, &sink)
}

// The text of a reply.
fn reply(alloc: Global, given: &[u8]) -> Result<Text, AllocError> {
    let mut source = MemSource::new(bytes(alloc, given)?, Vec::new(alloc));
    match read_reply(alloc, &mut source) {
        Ok(reply) => join_words(alloc, b"|", &[b"Ok", reply.bytes()]),
        Err(fault) => Text::from_bytes(alloc, fault_text(alloc, fault)?.as_bytes()),
    }
}

fn form_name(form: Form) -> &'static [u8] {
    match form {
        Form::Good => b"Good",
        Form::BadHeader => b"BadHeader",
        Form::TooLong => b"TooLong",
    }
}

// The event of a payload.
fn event(alloc: Global, given: &[u8]) -> Result<Text, AllocError> {
    let payload = Text::from_vec(bytes(alloc, given)?);
    let event = frame_event(alloc, &payload, MOMENT)?;
    let moment = event.moment.to_string(alloc)?;
    join_words(
        alloc,
        b"|",
        &[
            form_name(event.form),
            moment.as_bytes(),
            event.user.bytes(),
            event.group.bytes(),
            event.text.bytes(),
        ],
    )
}

/// The rows of a page `frames`.
pub(crate) struct Frames;

impl Rows for Frames {
    fn answer(&self, alloc: Global, name: &[u8], given: &[u8]) -> Result<Text, AllocError> {
        if is_word(name, b"frame") {
            frames_in(alloc, given)
        } else if is_word(name, b"asked") {
            asked(alloc, given)
        } else if is_word(name, b"answered") {
            answered(alloc, given)
        } else if is_word(name, b"reply") {
            reply(alloc, given)
        } else if is_word(name, b"event") {
            event(alloc, given)
        } else {
            no_such_row(alloc)
        }
    }
}
