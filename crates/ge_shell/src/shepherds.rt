// Shepherds: shells that each start a program, wait for it and leave its exit.
use crate::files::{note, path_of};
use ge_collections::{List, Text};
use ge_spawner::Description;
use std::alloc::{AllocError, Global};
use std::fs::{File, Files};
use std::io::ErrorKind;
use std::process::{Child, Command, Processes, Stdio};
use std::{fs, io};

/// Starts the words behind the first, and leaves their process's number in S.pid and their exit in S.status of the folder D.
const SHEPHERD: &str =
    "d=$0; s=$1; shift; \"$@\" & p=$!; echo $p > \"$d/$s.pid\"; wait $p; echo $? > \"$d/$s.tmp\"; mv \"$d/$s.tmp\" \"$d/$s.status\"";

/// A command that runs a text by `sh`, with no input.
pub(crate) fn shell(alloc: Global, text: &str) -> Result<Command, AllocError> {
    let mut command = Command::new(alloc, "sh")?;
    command.arg("-c")?.arg(text)?.stdin(Stdio::null());
    Ok(command)
}

// The command of a shepherd.
fn shepherd(alloc: Global, dir: &str, words: &List<Text>) -> io::Result<Command> {
    let mut command = shell(alloc, SHEPHERD)?;
    command.arg(dir)?;
    for word in words.items() {
        let Ok(word) = str::from_utf8(word.bytes()) else {
            return Err(io::Error::from(ErrorKind::InvalidInput));
        };
        command.arg(word)?;
    }
    Ok(command)
}

// A number as a variable of a program's environment.
fn set_number(
    alloc: Global,
    command: &mut Command,
    name: &str,
    number: u64,
) -> Result<(), AllocError> {
    let number = format!(in alloc; "{number}")?;
    command.env(name, number)?;
    Ok(())
}

// What a program is told of its task, where that was described.
fn tell(
    alloc: Global,
    command: &mut Command,
    host: &str,
    id: u64,
    described: Option<Description>,
) -> Result<(), AllocError> {
    command.env("HOSTNAME", host)?;
    set_number(alloc, command, "GRIDMASTER_SERIAL", id)?;
    match described {
        Some(task) if task.id == id => {
            set_number(alloc, command, "JOB_ID", u64::from(task.job))?;
            set_number(alloc, command, "SGE_TASK_ID", u64::from(task.task))?;
            set_number(alloc, command, "NSLOTS", u64::from(task.slots))
        }
        _ => Ok(()),
    }
}

// A file of what a program writes, made anew.
fn output_file<R: Files<File = File>>(
    files: &R,
    alloc: Global,
    dir: &str,
    id: u64,
    ending: &str,
) -> io::Result<Stdio> {
    let file = fs::create(files, path_of(alloc, dir, id, ending)?)?;
    Ok(Stdio::from(file))
}

/// Starts a shepherd, whose program writes to files of its own. It fails where a word can't be handed over, as one that is no
/// text in UTF-8.
pub(crate) fn begin<R: AllocGlobal + Files<File = File> + Processes>(
    rt: &R,
    dir: &str,
    host: &str,
    id: u64,
    described: Option<Description>,
    words: &List<Text>,
) -> io::Result<Child<R::Started>> {
    let alloc = rt.alloc();
    let mut command = shepherd(alloc, dir, words)?;
    tell(alloc, &mut command, host, id, described)?;
    command.stdout(output_file(rt, alloc, dir, id, "out")?);
    command.stderr(output_file(rt, alloc, dir, id, "err")?);
    note(rt, dir, id)?;
    command.spawn(rt)
}
