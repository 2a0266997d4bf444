//! gq: one question to a gridmaster that listens on this machine.
//!
//! `gq PORT USER GROUP` sends the standard input as one request, and writes the reply.
#![tactic(auto)]

use ge_edge::{
    About, StdinSource, StdoutSink, TcpDialer, Waits, hold_streams, is_said, read_words,
};
use ge_wire::{ask, port_of};
use std::io;
use std::io::ErrorKind;
use std::process::ExitCode;
use std::time::Duration;

/// What the program says of itself.
const ABOUT: About = About {
    help: HELP,
    version: "gq 0.9\n",
};

const HELP: &str = "\
gq, which sends one request to a gridmaster and writes the reply

usage: gq PORT USER GROUP     the request is the standard input: a command line, and behind it a script or a body
       gq --help | --version

How it ends: 0 accepted, 1 refused, 2 these words or this input can't be sent, 6 input failed, 7 output failed, 8 standard
streams can't be held, 9 nobody listens or the connection broke, 10 no memory. See gq(1).
";

/// All was done.
const DONE: u8 = 0;

/// The output failed.
const WRITE_FAULT: u8 = 7;

/// The status of a command line that can't be read.
const USAGE: u8 = 2;

/// The status of a run that could not hold the standard streams.
const NO_DISK: u8 = 8;

/// How long the reply may be waited for, since others may be served before.
const SECONDS: u64 = 3600;

/// The status of a run that found no memory.
const NO_MEMORY: u8 = 10;

// The status where the words could not be read.
fn unread_status(error: &io::Error) -> u8 {
    if error.kind() == ErrorKind::OutOfMemory {
        NO_MEMORY
    } else {
        USAGE
    }
}

// Makes the devices, and asks over them.
fn status_over(rt: &HostRuntime, words: &Vec<String>) -> u8 {
    let mut input = StdinSource::new(rt.reader());
    let mut output = StdoutSink::new(io::writer(rt));
    let waits = Waits::new(Duration::from_secs(SECONDS), Duration::from_secs(SECONDS));
    let mut door = TcpDialer::new(rt, rt, port_of(words), waits);
    ask(rt.alloc(), words, &mut input, &mut output, &mut door)
}

// The status of a question with the words that were read.
fn status_of(rt: &HostRuntime, words: &io::Result<Vec<String>>) -> u8 {
    match words {
        Ok(words) => status_over(rt, words),
        Err(error) => unread_status(error),
    }
}

fn main(rt: HostRuntime) -> ExitCode {
    let Ok(_streams) = hold_streams(&rt) else {
        return ExitCode::from(NO_DISK);
    };
    let words = read_words(&rt);
    let status = match ABOUT.said(&words) {
        Some(said) if is_said(&rt, said) => DONE,
        Some(_) => WRITE_FAULT,
        None => status_of(&rt, &words),
    };
    ExitCode::from(status)
}
