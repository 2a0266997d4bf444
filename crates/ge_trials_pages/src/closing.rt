//! This program through a shell that closes standard streams.
use crate::sockets::plain;
use std::alloc::{AllocError, Global};
use std::io::Print;
use std::process::{Command, Output, Stdio};
use std::{fs, io};

/// What closes streams, in the shell's words.
const CLOSINGS: [&str; 8] = [
    "",
    " 2>&-",
    " >&-",
    " >&- 2>&-",
    " <&-",
    " <&- 2>&-",
    " <&- >&-",
    " <&- >&- 2>&-",
];

/// What stands in the standard input where that is open.
const SCRIPT: &str = "@10 ann staff\nqsub -N one x\n";

/// A folder for the runs, the script that they read, and the program.
#[derive(Drop)]
struct Shell<'a> {
    folder: &'a str,
    script: &'a str,
    program: &'a str,
}

// How the program ends with these words, behind which the shell is told what to close.
fn end_of_line(rt: &HostRuntime, shell: &Shell<'_>, line: &str) -> io::Result<Output> {
    let alloc = rt.alloc();
    let line = format!(in alloc; "exec \"$0\" {line}")?;
    let mut command = Command::new(alloc, "/bin/sh")?;
    command.arg("-c")?.arg(line.as_str())?.arg(shell.program)?;
    command
        .current_dir(shell.folder)?
        .stdin(fs::open(rt, shell.script)?)
        .stdout(Stdio::piped())
        .stderr(Stdio::piped());
    command.spawn(rt)?.wait_with_output(alloc)
}

// What was written to a stream, behind the stream's name; nothing where nothing was.
fn part(alloc: Global, name: &str, bytes: &[u8]) -> Result<String, AllocError> {
    if bytes.is_empty() {
        return Ok(String::new(alloc));
    }
    let text = plain(alloc, bytes)?;
    format!(in alloc; ", {name} {text}")
}

/// Tells how a run ended and what it wrote, on a line.
pub(crate) fn tell_end(rt: &HostRuntime, name: &str, output: &Output) -> io::Result<()> {
    let status = output.status;
    let out = part(rt.alloc(), "output", output.stdout.as_slice())?;
    let errors = part(rt.alloc(), "errors", output.stderr.as_slice())?;
    println!(rt; "{name}: {status}{out}{errors}")
}

// Tells of a command with each choice of streams that are closed.
fn tell_command(rt: &HostRuntime, shell: &Shell<'_>, command: &str) -> io::Result<()> {
    for closing in CLOSINGS {
        let line = format!(in rt.alloc(); "{command}{closing}")?;
        let output = end_of_line(rt, shell, line.as_str())?;
        tell_end(rt, line.as_str(), &output)?;
    }
    Ok(())
}

/// Tells how `replay` ends, and then `status` over the same files, with each choice of streams that are closed. The files are
/// made in a new folder inside a folder.
pub(crate) fn tell_closed(rt: &HostRuntime, program: &str, folder: &str) -> io::Result<()> {
    let alloc = rt.alloc();
    let script = format!(in alloc; "{folder}/script")?;
    fs::write(rt, script.as_str(), SCRIPT)?;
    let inner = format!(in alloc; "{folder}/closed")?;
    fs::create_dir(rt, inner.as_str())?;
    let shell = Shell {
        folder: inner.as_str(),
        script: script.as_str(),
        program,
    };
    tell_command(rt, &shell, "replay")?;
    tell_command(rt, &shell, "status")
}
