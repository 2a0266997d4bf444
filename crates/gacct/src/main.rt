//! gacct: the accounting log of a gridmaster.
//!
//! `gacct flush` appends to `acct.log` the accounting lines that the cluster in `spool.a` and `spool.b` has and the log hasn't. `gacct show`
//! writes the log's lines, and `gacct sum` sums them.
#![tactic(auto)]

use ge_edge::{About, FileDisk, StdoutSink, hold_streams, is_said, read_words};
use ge_gridacct::gridacct;
use std::io;
use std::io::ErrorKind;
use std::process::ExitCode;

/// What the program says of itself.
const ABOUT: About = About {
    help: HELP,
    version: "gacct 0.9\n",
};

const HELP: &str = "\
gacct, the accounting log of a gridmaster

usage: gacct flush         the lines that the cluster in spool.a and spool.b has and acct.log hasn't are appended to it
       gacct show          the lines of acct.log
       gacct sum [NAME]    their number and sums, as qacct tells them, of all or of an owner
       gacct --help | --version

How it ends: 0 done, 2 these words can't be read, 4 the two files hold no cluster, 5 the log is full, 7 output failed, 8 a
file failed or another run holds it, 10 no memory, 11 the log can't be read, 12 it is another cluster's. See gacct(1).
";

/// All was done.
const DONE: u8 = 0;

/// The status of a command line that can't be read.
const USAGE: u8 = 2;

/// The output failed.
const WRITE_FAULT: u8 = 7;

/// The status of a run that could not hold the standard streams.
const NO_STREAMS: u8 = 8;

/// The status of a run that found no memory.
const NO_MEMORY: u8 = 10;

// The status where the words could not be read.
fn unread_status(error: &io::Error) -> u8 {
    if error.kind() == ErrorKind::OutOfMemory {
        NO_MEMORY
    } else {
        USAGE
    }
}

// Makes the devices, and does over them what the words say.
fn status_over(rt: &HostRuntime, words: &Vec<String>) -> u8 {
    let alloc = rt.alloc();
    let (Ok(path_a), Ok(path_b), Ok(path_log)) = (
        String::from_str(alloc, "spool.a"),
        String::from_str(alloc, "spool.b"),
        String::from_str(alloc, "acct.log"),
    ) else {
        return NO_MEMORY;
    };
    let mut output = StdoutSink::new(io::writer(rt));
    let mut a = FileDisk::new(rt, path_a);
    let mut b = FileDisk::new(rt, path_b);
    let mut log = FileDisk::new(rt, path_log);
    gridacct(alloc, words, &mut output, &mut a, &mut b, &mut log)
}

// The status of a run with the words that were read.
fn status_of(rt: &HostRuntime, words: &io::Result<Vec<String>>) -> u8 {
    match words {
        Ok(words) => status_over(rt, words),
        Err(error) => unread_status(error),
    }
}

fn main(rt: HostRuntime) -> ExitCode {
    let Ok(_streams) = hold_streams(&rt) else {
        return ExitCode::from(NO_STREAMS);
    };
    let words = read_words(&rt);
    let status = match ABOUT.said(&words) {
        Some(said) if is_said(&rt, said) => DONE,
        Some(_) => WRITE_FAULT,
        None => status_of(&rt, &words),
    };
    ExitCode::from(status)
}
