// The files that are kept of a program, in the spawner's folder: SERIAL and an ending.
//
// .boot    the boot in which it was begun
// .pid     empty once it is begun; its process's number once that is known
// .status  its exit, once it has ended
// .out     what it writes to its standard output; .err: to its standard error
use std::alloc::{AllocError, Global};
use std::fs::Files;
use std::io::ErrorKind;
use std::{fs, io};

/// Where the system tells this boot from every other.
const BOOT: &str = "/proc/sys/kernel/random/boot_id";

/// The path of a program's file.
pub(crate) fn path_of(
    alloc: Global,
    dir: &str,
    id: u64,
    ending: &str,
) -> Result<String, AllocError> {
    format!(in alloc; "{dir}/{id}.{ending}")
}

// The text of a file; None where there is no such file.
fn read_text<R: AllocGlobal + Files>(rt: &R, path: &str) -> io::Result<Option<String>> {
    match fs::read_to_string(rt, path) {
        Ok(text) => Ok(Some(text)),
        Err(error) if error.kind() == ErrorKind::NotFound => Ok(None),
        Err(error) => Err(error),
    }
}

/// The number in a small file, a line of decimal digits. None where there is no such file or it has something else.
pub(crate) fn read_number<R: AllocGlobal + Files>(rt: &R, path: &str) -> io::Result<Option<u32>> {
    let Some(text) = read_text(rt, path)? else {
        return Ok(None);
    };
    Ok(text.as_str().trim_end().parse().ok())
}

/// Whether there is such a file.
pub(crate) fn is_there<R: Files>(files: &R, path: &str) -> io::Result<bool> {
    match fs::open(files, path) {
        Ok(_) => Ok(true),
        Err(error) if error.kind() == ErrorKind::NotFound => Ok(false),
        Err(error) => Err(error),
    }
}

// Removes a file, where it is there.
fn remove<R: Files>(files: &R, path: &str) -> io::Result<()> {
    match fs::remove_file(files, path) {
        Err(error) if error.kind() != ErrorKind::NotFound => Err(error),
        _ => Ok(()),
    }
}

// This boot; empty on a system that doesn't tell it.
fn this_boot<R: AllocGlobal + Files>(rt: &R) -> io::Result<String> {
    match read_text(rt, BOOT)? {
        Some(boot) => Ok(boot),
        None => Ok(String::new(rt.alloc())),
    }
}

/// Whether a program was begun in this boot. The number of a process that an earlier one began may be a stranger's by now.
pub(crate) fn is_of_this_boot<R: AllocGlobal + Files>(
    rt: &R,
    dir: &str,
    id: u64,
) -> io::Result<bool> {
    let Some(boot) = read_text(rt, path_of(rt.alloc(), dir, id, "boot")?.as_str())? else {
        return Ok(false);
    };
    let now = this_boot(rt)?;
    Ok(boot == now)
}

/// Removes what an earlier program of this number left, and notes that one is begun now, whose process isn't known yet. A stop
/// between any two of these leaves that none was begun.
pub(crate) fn note<R: AllocGlobal + Files>(rt: &R, dir: &str, id: u64) -> io::Result<()> {
    let alloc = rt.alloc();
    let pid = path_of(alloc, dir, id, "pid")?;
    remove(rt, pid.as_str())?;
    remove(rt, path_of(alloc, dir, id, "status")?.as_str())?;
    fs::write(rt, path_of(alloc, dir, id, "boot")?, this_boot(rt)?)?;
    fs::write(rt, pid, "")
}
