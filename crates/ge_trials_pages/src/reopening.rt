//! A master on two areas in memory, with a world beside it, which stops inside an event and opens again.

use ge_master::{Master, Stop};
use ge_model_world::{Arrival, World};
use ge_outside::MemDisk;
use ge_pieces::{before, behind, digits_worth, words_between};
use ge_trials_rows::first_event;
use ge_world::new_world;
use ge_world_master::{handle_in, is_same_cluster, reopen_in};
use std::alloc::{AllocError, Global};

// An area with some bytes, of which a call fails, counted from 1.
fn area(alloc: Global, bytes: &[u8], call: u64) -> Result<MemDisk, AllocError> {
    Ok(MemDisk::new(alloc, bytes.to_vec(alloc)?, [call].to_vec(alloc)?))
}

fn stop_word(stop: &Stop) -> &'static str {
    match stop {
        Stop::Disk => "disk",
        Stop::Full(_) => "full",
        Stop::Spent => "spent",
        Stop::Dead => "dead",
    }
}

// The master is opened, handles what comes, and is gone.
fn handled_words(
    alloc: Global,
    a: &mut MemDisk,
    b: &mut MemDisk,
    w: &mut World,
    x: &Arrival,
) -> Result<String, AllocError> {
    let Ok(mut m) = Master::open(alloc, a, b) else {
        return String::from_str(alloc, "not opened");
    };
    match handle_in(alloc, &mut m, a, b, w, x) {
        Ok(reply) => {
            let code = reply.code;
            format!(in alloc; "answered {code}")
        }
        Err(stop) => String::from_str(alloc, stop_word(&stop)),
    }
}

// It is opened again on what the areas hold, of which no call fails.
fn reopened_words(
    alloc: Global,
    a: &MemDisk,
    b: &MemDisk,
    w: &mut World,
    x: &Arrival,
) -> Result<String, AllocError> {
    let mut a = area(alloc, a.bytes(), 0)?;
    let mut b = area(alloc, b.bytes(), 0)?;
    match reopen_in(alloc, &mut a, &mut b, w, x) {
        Ok(m) => {
            let same = is_same_cluster(alloc, m.cluster(), &w.cluster)?;
            let same = if same { "the world's" } else { "another" };
            let jobs = w.cluster.jobs.len();
            format!(in alloc; "opened again, {same} cluster, jobs {jobs}")
        }
        Err(_) => String::from_str(alloc, "not opened again"),
    }
}

// The line of one call that fails.
fn push_call(
    alloc: Global,
    text: &mut Vec<u8>,
    hosts: &[u8],
    x: &Arrival,
    call: u64,
) -> Result<(), AllocError> {
    let mut w = new_world(alloc, &words_between(alloc, hosts)?)?;
    let mut a = area(alloc, b"", call)?;
    let mut b = area(alloc, b"", 0)?;
    let first = handled_words(alloc, &mut a, &mut b, &mut w, x)?;
    let second = reopened_words(alloc, &a, &b, &mut w, x)?;
    let line = format!(in alloc; "call {call}: {first}, {second}\n")?;
    text.extend_from_slice(line.as_bytes())
}

/// A page `reopening`: a number, hosts, and a script, of which the first event comes to a master on two empty areas. It tells what became of
/// that and of opening again, for each call of the first area up to the number that fails, from 0 on, which is none.
pub(crate) fn reopening_page(alloc: Global, body: &[u8]) -> Result<Vec<u8>, AllocError> {
    let rest = behind(b'\n', body);
    let hosts = before(b'\n', rest);
    let x = Arrival::Command(first_event(alloc, behind(b'\n', rest))?);
    let mut text = Vec::new(alloc);
    for call in 0..digits_worth(before(b'\n', body)) {
        push_call(alloc, &mut text, hosts, &x, call)?;
    }
    Ok(text)
}
