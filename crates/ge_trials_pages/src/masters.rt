//! A master that is opened, handles events, one alone or a batch, and is opened again.

use ge_master::Master;
use ge_outside::MemDisk;
use ge_pieces::{before, behind};
use ge_rows::Reply;
use ge_spool::OpenFault;
use ge_trials_calls::render;
use ge_trials_rows::{area, area_of, first_event, read_events};
use std::alloc::{AllocError, Global};

// What a master tells of itself, as a line.
fn told(alloc: Global, master: &Master) -> Result<String, AllocError> {
    let (generation, records) = (master.generation(), master.records());
    let jobs = master.cluster().jobs.len();
    let going = if master.stopping() {
        "stopping"
    } else {
        "going"
    };
    format!(in alloc; "generation {generation} records {records} jobs {jobs} {going}\n")
}

// What opening two areas answers, as a line.
fn opened(alloc: Global, a: &mut MemDisk, b: &mut MemDisk) -> Result<String, AllocError> {
    match Master::open(alloc, a, b) {
        Ok(master) => told(alloc, &master),
        Err(OpenFault::Frame(number, place)) => {
            format!(in alloc; "area {number} is wrong at {place}\n")
        }
        Err(OpenFault::Bad(number, place)) => {
            format!(in alloc; "area {number} has a bad body at {place}\n")
        }
        Err(OpenFault::Disk) => String::from_str(alloc, "a disk failed\n"),
        Err(OpenFault::Memory) => Err(AllocError),
    }
}

/// A page `open`: the bytes of both areas, each on a line. It tells what opening them answers.
pub(crate) fn open_page(alloc: Global, body: &[u8]) -> Result<Vec<u8>, AllocError> {
    let (of_a, of_b) = (before(b'\n', body), before(b'\n', behind(b'\n', body)));
    let mut a = area_of(alloc, of_a, 0)?;
    let mut b = area_of(alloc, of_b, 0)?;
    Vec::from_slice(alloc, opened(alloc, &mut a, &mut b)?.as_bytes())
}

// What a master says of itself, and what one says that is opened on its areas.
fn push_behind(
    alloc: Global,
    text: &mut Vec<u8>,
    master: &Master,
    a: &mut MemDisk,
    b: &mut MemDisk,
) -> Result<(), AllocError> {
    text.extend_from_slice(told(alloc, master)?.as_bytes())?;
    text.extend_from_slice(opened(alloc, a, b)?.as_bytes())
}

/// A page `event`: a script, whose first event a new master handles. It tells what the master says of itself before, the reply,
/// what it says afterwards, and what a master says that is opened on its areas.
pub(crate) fn event_page(alloc: Global, script: &[u8]) -> Result<Vec<u8>, AllocError> {
    let event = first_event(alloc, script)?;
    let mut a = area(alloc, b"", 0)?;
    let mut b = area(alloc, b"", 0)?;
    let mut master = match Master::open(alloc, &mut a, &mut b) {
        Ok(master) => master,
        Err(_) => return Vec::from_slice(alloc, b"no master\n"),
    };
    let mut text = Vec::from_slice(alloc, told(alloc, &master)?.as_bytes())?;
    match master.handle(&mut a, &mut b, &event) {
        Ok(reply) => text.extend_from_slice(render(alloc, &reply)?.bytes())?,
        Err(_) => text.extend_from_slice(b"stopped\n")?,
    }
    push_behind(alloc, &mut text, &master, &mut a, &mut b)?;
    Ok(text)
}

// The replies to all events of a script.
fn push_replies(alloc: Global, text: &mut Vec<u8>, replies: &[Reply]) -> Result<(), AllocError> {
    for reply in replies {
        text.extend_from_slice(render(alloc, reply)?.bytes())?;
    }
    Ok(())
}

/// A page `batch`: a script, all of whose events a new master handles as one batch. It tells the replies, what the master says
/// of itself afterwards, and what a master says that is opened on its areas.
pub(crate) fn batch_page(alloc: Global, script: &[u8]) -> Result<Vec<u8>, AllocError> {
    let mut text = Vec::new(alloc);
    let events = read_events(alloc, script)?;
    let mut a = area(alloc, b"", 0)?;
    let mut b = area(alloc, b"", 0)?;
    let mut master = match Master::open(alloc, &mut a, &mut b) {
        Ok(master) => master,
        Err(_) => return Vec::from_slice(alloc, b"no master\n"),
    };
    match master.handle_batch(&mut a, &mut b, &events) {
        Ok(replies) => push_replies(alloc, &mut text, replies.items())?,
        Err(_) => text.extend_from_slice(b"stopped\n")?,
    }
    push_behind(alloc, &mut text, &master, &mut a, &mut b)?;
    Ok(text)
}
