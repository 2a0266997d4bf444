//! All tests that cross crates, each a page of the standard input: runs over streams and areas in memory, with what each writes, its
//! status and what it leaves; and calls alone and devices in memory, which ge_trials_calls and ge_trials_devices tell.
//!
//! Pages are parted by form feeds. A page's first line is its kind, a blank and its name; what stands behind it is told at the
//! kind's function, and `pages` has those of runs and hands the others on. What is told of a page stands behind a line with its
//! name; of a `large` one it is that line, and of a `command` what is told alone. The stored lines were worked out by hand, or are
//! those of an independent reading of the rules.
//!
//! Behind the pages come processes: the program starts itself with a word that is no command, then as a server of two
//! connections, twice as a client and once over the server's files, and writes what the clients wrote and how each of the five
//! ended. Then it tells what is seen of the adapters of connections, files and the clock, starts itself with standard streams that
//! are closed, and asks itself what it is. With `ask` and the words of `gq` it does what `gq` does, and with any other words what
//! `gridmaster` does with them.
#![tactic(auto)]

mod areas;
mod asking;
mod closing;
mod command_lines;
mod driving;
mod generating;
mod keeping;
mod large;
mod links;
mod masters;
mod pages;
mod parsing;
mod ports;
mod readers;
mod rendering;
mod reopening;
mod running;
mod sockets;
mod starting;
mod stepping;
mod streaming;

use crate::areas::Areas;
use ge_edge::read_words;
use ge_top::run;
use std::io;
use std::io::{BufRead, BufReader, BufWriter, Eprint, Write};
use std::process::ExitCode;

/// What stands between two pages: a form feed.
const PAGE_END: u8 = 0x0c;

// Writes what is told of each page.
fn tell_pages(rt: &HostRuntime) -> io::Result<()> {
    let alloc = rt.alloc();
    let mut output = BufWriter::new(alloc, io::writer(rt))?;
    let mut areas = Areas::new(alloc);
    for page in BufReader::new(alloc, rt.reader())?.split(alloc, PAGE_END) {
        let text = pages::report(alloc, page?.as_slice(), &mut areas)?;
        output.write_all(text.as_slice())?;
    }
    output.flush()
}

// The pages, and behind them the processes.
fn tell_all(rt: &HostRuntime) -> io::Result<()> {
    tell_pages(rt)?;
    driving::drive(rt)
}

fn tell(rt: &HostRuntime) -> ExitCode {
    match tell_all(rt) {
        Ok(()) => ExitCode::SUCCESS,
        Err(error) => {
            let _ = rt.eprintln(error);
            ExitCode::FAILURE
        }
    }
}

// Does what the words say.
fn part(rt: &HostRuntime, mut words: Vec<String>) -> ExitCode {
    if words.is_empty() {
        return tell(rt);
    }
    let first = words.remove(0);
    if first.as_str() == "ask" {
        ExitCode::from(asking::status_of(rt, &words))
    } else {
        run(rt)
    }
}

fn main(rt: HostRuntime) -> ExitCode {
    match read_words(&rt) {
        Ok(words) => part(&rt, words),
        Err(_) => ExitCode::FAILURE,
    }
}
