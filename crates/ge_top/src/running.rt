// The program over the devices of a system.
use crate::command_line::status_of;
use crate::help::ABOUT;
use crate::statuses::{DONE, NO_MEMORY, NO_STREAMS, WRITE_FAULT};
use crate::words::port_of;
use ge_edge::{
    FileDisk, StdinSource, StdoutSink, SystemClock, TcpDoor, Waits, hold_streams, is_said,
    read_words,
};
use std::alloc::AllocGlobal;
use std::env::Env;
use std::fs::{File, Files};
use std::io::{Input, Print};
use std::net::{Net, TcpStream};
use std::process::ExitCode;
use std::time::Duration;
use std::{io, time};

/// How long a client may keep the server waiting, at one read or write.
const ONE_WAIT: u64 = 30;

/// How long it may at all of them together.
const ALL_WAITS: u64 = 60;

// Makes the devices, makes the top call over them, and gives its status.
fn status_over<
    R: AllocGlobal + Files<File = File> + Input + Net<Stream = TcpStream> + Print + time::Clock,
>(rt: &R, words: io::Result<Vec<String>>) -> u8 {
    let alloc = rt.alloc();
    let (Ok(path_a), Ok(path_b)) = (
        String::from_str(alloc, "spool.a"),
        String::from_str(alloc, "spool.b"),
    ) else {
        return NO_MEMORY;
    };
    let mut input = StdinSource::new(rt.reader());
    let mut output = StdoutSink::new(io::writer(rt));
    let mut a = FileDisk::new(rt, path_a);
    let mut b = FileDisk::new(rt, path_b);
    let port = match &words {
        Ok(words) => port_of(words),
        Err(_) => 0,
    };
    let waits = Waits::new(
        Duration::from_secs(ONE_WAIT),
        Duration::from_secs(ALL_WAITS),
    );
    let mut door = TcpDoor::new(rt, rt, port, waits);
    let mut clock = SystemClock::new(rt);
    status_of(
        alloc,
        words,
        &mut input,
        &mut output,
        &mut a,
        &mut b,
        &mut door,
        &mut clock,
    )
}

/// Reads the words, makes the devices, makes the top call over them, and gives its status to end with.
/// Standard input and output are the system's, the areas are the files `spool.a` and `spool.b` of the
/// working folder, the door listens at the port that the words name, and the clock is the system's. Standard streams that
/// are closed are held first, so that none of these gets the number of one. The words `--help` and `--version`, alone, are
/// answered before any device is made.
pub fn run<
    R: AllocGlobal
        + Env
        + Files<File = File>
        + Input
        + Net<Stream = TcpStream>
        + Print
        + time::Clock,
>(rt: &R) -> ExitCode {
    let Ok(_streams) = hold_streams(rt) else {
        return ExitCode::from(NO_STREAMS);
    };
    let words = read_words(rt);
    let status = match ABOUT.said(&words) {
        Some(said) if is_said(rt, said) => DONE,
        Some(_) => WRITE_FAULT,
        None => status_over(rt, words),
    };
    ExitCode::from(status)
}
