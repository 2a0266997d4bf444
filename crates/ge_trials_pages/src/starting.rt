//! This program as a server, and as a client.
use std::io::{ErrorKind, Write};
use std::process::{Child, Command, Output, Stdio};
use std::{env, fs, io};

/// Where a server is: the program that it and its clients run, the folder of its files, and its port.
#[derive(Drop)]
pub(crate) struct Place<'a> {
    pub(crate) program: &'a str,
    pub(crate) folder: &'a str,
    pub(crate) port: &'a str,
}

/// The path of this program, which holds in every folder.
pub(crate) fn own_program(rt: &HostRuntime) -> io::Result<String> {
    match env::args(rt)?.next() {
        Some(name) => Ok(fs::canonicalize(rt, name.as_str())?.into_string()),
        None => Err(io::Error::from(ErrorKind::NotFound)),
    }
}

/// How this program ends with one word in a folder, and what it writes.
pub(crate) fn end_of(
    rt: &HostRuntime,
    program: &str,
    folder: &str,
    word: &str,
) -> io::Result<Output> {
    let mut command = Command::new(rt.alloc(), program)?;
    command.arg(word)?.current_dir(folder)?;
    command
        .stdin(Stdio::null())
        .stdout(Stdio::piped())
        .stderr(Stdio::piped());
    command.spawn(rt)?.wait_with_output(rt.alloc())
}

/// Starts a server of two connections.
pub(crate) fn start_server(rt: &HostRuntime, place: &Place<'_>) -> io::Result<Child> {
    let mut server = Command::new(rt.alloc(), place.program)?;
    server.arg("serve")?.arg(place.port)?.arg("2")?;
    server.current_dir(place.folder)?.stdin(Stdio::null());
    server.spawn(rt)
}

/// What a client with this question writes, and how it ends.
pub(crate) fn answer(rt: &HostRuntime, place: &Place<'_>, question: &str) -> io::Result<Output> {
    let mut client = Command::new(rt.alloc(), place.program)?;
    client
        .arg("ask")?
        .arg(place.port)?
        .arg("ann")?
        .arg("staff")?;
    client.stdin(Stdio::piped()).stdout(Stdio::piped());
    let mut client = client.spawn(rt)?;
    if let Some(mut input) = client.stdin.take() {
        input.write_all(question.as_bytes())?;
    }
    client.wait_with_output(rt.alloc())
}
