//! A faulty line, then a server, two questions to it and a run beside it; then the adapters, closed streams, and what the program
//! says of itself.
use crate::closing::{tell_closed, tell_end};
use crate::ports::{is_free, port_at};
use crate::sockets::tell_adapters;
use crate::starting::{Place, answer, end_of, own_program, start_server};
use std::io::{ErrorKind, Print};
use std::process::{Child, Output};
use std::{fs, io, process};

/// A word that is no command.
const FAULTY: &str = "simulat";

/// How many ports are tried.
const PORTS: u32 = 20;

/// How often the first question is asked while nobody listens.
const TRIES: u32 = 1_000;

/// The status of a client that finds nobody who listens.
const UNHEARD: i32 = 9;

/// How the line of the job begins. What follows is left out, since it depends on the clock.
const JOB: &str = "1 one ann ";

fn is_unheard(output: &Output) -> bool {
    output.status.code() == Some(UNHEARD)
}

// The answer to a question, once somebody listens; none where the server has ended before.
fn first_answer(
    rt: &HostRuntime,
    place: &Place<'_>,
    server: &mut Child,
    question: &str,
) -> io::Result<Option<Output>> {
    for _ in 0..TRIES {
        let output = answer(rt, place, question)?;
        if !is_unheard(&output) {
            return Ok(Some(output));
        }
        if server.try_wait()?.is_some() {
            return Ok(None);
        }
    }
    Err(io::Error::from(ErrorKind::TimedOut))
}

fn print_line(rt: &HostRuntime, line: &str) -> io::Result<()> {
    if line.starts_with(JOB) {
        println!(rt; "{JOB}..")
    } else {
        println!(rt; "{line}")
    }
}

// Writes how a client ended, and its lines. It is an error where the client has not ended well.
fn tell(rt: &HostRuntime, question: &str, output: &Output) -> io::Result<()> {
    let status = output.status;
    println!(rt; "{question}: {status}")?;
    let text = String::from_utf8_lossy(rt.alloc(), output.stdout.as_slice())?;
    for line in text.as_str().lines() {
        print_line(rt, line)?;
    }
    if status.success() {
        Ok(())
    } else {
        Err(io::Error::from(ErrorKind::Other))
    }
}

// Asks the server twice, and tells of it. It gives how `status` ended over the same files in between; none where the server
// wasn't there.
fn converse(rt: &HostRuntime, place: &Place<'_>, server: &mut Child) -> io::Result<Option<Output>> {
    let Some(output) = first_answer(rt, place, server, "qsub -N one x")? else {
        return Ok(None);
    };
    tell(rt, "qsub -N one x", &output)?;
    let beside = end_of(rt, place.program, place.folder, "status")?;
    let output = answer(rt, place, "qstat")?;
    tell(rt, "qstat", &output)?;
    Ok(Some(beside))
}

// Serves two questions at a place, and tells whether that could be done there.
fn serve_at(rt: &HostRuntime, place: &Place<'_>) -> io::Result<bool> {
    let mut server = start_server(rt, place)?;
    let conversed = converse(rt, place, &mut server);
    if conversed.is_err() {
        // it may listen on
        let _ = server.kill();
    }
    let status = server.wait()?;
    let Some(beside) = conversed? else {
        return Ok(false);
    };
    println!(rt; "serve: {status}")?;
    tell_end(rt, "status beside it", &beside)?;
    Ok(true)
}

// Serves two questions at a port, unless another listens there, and tells whether that could be done.
fn serve_at_port(rt: &HostRuntime, program: &str, folder: &str, port: u16) -> io::Result<bool> {
    if !is_free(rt, port) {
        return Ok(false);
    }
    let port = port.to_string(rt.alloc())?;
    let place = Place {
        program,
        folder,
        port: port.as_str(),
    };
    serve_at(rt, &place)
}

// Tells how the program ends with a word that is no command: its status is not to be lost.
fn tell_faulty(rt: &HostRuntime, program: &str, folder: &str) -> io::Result<()> {
    let status = end_of(rt, program, folder, FAULTY)?.status;
    println!(rt; "{FAULTY}: {status}")
}

// Serves two questions at the first port where that can be done.
fn serve(rt: &HostRuntime, process: u32, program: &str, folder: &str) -> io::Result<()> {
    for turn in 0..PORTS {
        if serve_at_port(rt, program, folder, port_at(process, turn))? {
            return Ok(());
        }
    }
    Err(io::Error::from(ErrorKind::AddrInUse))
}

// Tells what the program says of itself.
fn tell_about(rt: &HostRuntime, program: &str, folder: &str) -> io::Result<()> {
    for word in ["--help", "--version"] {
        let output = end_of(rt, program, folder, word)?;
        tell(rt, word, &output)?;
    }
    Ok(())
}

fn drive_in(rt: &HostRuntime, process: u32, folder: &str) -> io::Result<()> {
    let program = own_program(rt)?;
    let program = program.as_str();
    tell_faulty(rt, program, folder)?;
    serve(rt, process, program, folder)?;
    tell_adapters(rt, folder)?;
    tell_closed(rt, program, folder)?;
    tell_about(rt, program, folder)
}

/// Drives the program in a folder that is made for it and taken away, and tells what is seen of it.
pub(crate) fn drive(rt: &HostRuntime) -> io::Result<()> {
    let process = process::id(rt.process());
    let folder = format!(in rt.alloc(); "served-{process}")?;
    fs::create_dir(rt, folder.as_str())?;
    let driven = drive_in(rt, process, folder.as_str());
    fs::remove_dir_all(rt, folder.as_str())?;
    driven
}
