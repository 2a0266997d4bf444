// A file as a disk.
ghost use Rattle.std.specs.Prelude.{◌≡◌, ◌<◌, ◌≤◌, length, take, IfOk, OnOk};
ghost use Rattle.std.specs.Io.KnownBytes.{Appends, Consumes, IsAtEnd};
ghost use Rattle.ge_outside.specs.Faults.{Rose};

use crate::sinks::write_once;
use crate::sources::read_once;
use ge_outside::{Disk, Failed};
use std::fs::{File, Files};
use std::io::{ErrorKind, Read, Seek, SeekFrom, Write};
use std::os::unix::fs::OpenOptionsExt;
use std::{fs, io};

/// A length above this is none that a disk has.
const LONGEST: u64 = 1 << 63;

/// The mode of a file that is made: its owner alone may read and write it.
const OWNERS: u32 = 0o600;

/// A file as a disk. It is opened at the first call, and made where it is missing. From then on it is locked for this disk
/// alone, as long as the disk is held, and no longer than the process runs: where another has the lock the call fails, and
/// has read and written nothing. Each call that fails raises its count of faults by one.
#[derive(Drop)]
pub struct FileDisk<'a, R: Files<File = File>> {
    files: &'a R,
    path: String,
    file: Option<File>,
    faults: u64,
    syncs: u64,
}

impl<'a, R: Files<File = File>> FileDisk<'a, R> {
    /// The file at a path, which no call has touched yet.
    pub fn new(files: &'a R, path: String) -> Self
        ensures path { result.path ≡ path }
        ensures faults { result.faults ≡ 0 }
        ensures syncs { result.syncs ≡ 0 }
    {
        FileDisk {
            files,
            path,
            file: None,
            faults: 0,
            syncs: 0,
        }
    }
}

// Opens a file, and makes it where it is missing, and locks it. Its name outlasts a stop from then on, so the folder is
// synced too.
fn open_file<R: Files<File = File>>(files: &R, path: &str) -> io::Result<File> {
    let mut options = fs::OpenOptions::new();
    options.read(true).write(true).create(true).mode(OWNERS);
    let file = options.open(files, path)?;
    file.try_lock()?;
    let folder = fs::open(files, folder_of(path))?;
    folder.sync_all()?;
    Ok(file)
}

// The folder of a path, `.` where it names none.
fn folder_of(path: &str) -> &str {
    match path.rfind('/') {
        Some(0) => "/",
        Some(end) => &path[..end],
        None => ".",
    }
}

// Opens the file, unless an earlier call has.
fn open_once<R: Files<File = File>>(
    files: &R,
    path: &str,
    file: &mut Option<File>,
) -> io::Result<()> {
    if file.is_none() {
        *file = Some(open_file(files, path)?);
    }
    Ok(())
}

// The error where there is no file after all.
fn no_file() -> io::Error {
    io::Error::from(ErrorKind::NotFound)
}

fn measure<R: Files<File = File>>(
    files: &R,
    path: &str,
    file: &mut Option<File>,
) -> io::Result<u64> {
    open_once(files, path, file)?;
    let Some(file) = file else {
        return Err(no_file());
    };
    let metadata = file.metadata()?;
    Ok(metadata.len())
}

// Fills the buffer as far as there are bytes, and tells how many.
#[tactic(auto, using(crate::proofs::Parts::consumes_nothing, crate::proofs::Parts::consumes_more))]
fn fill<F: Read>(file: &mut F, buf: &mut [u8]) -> io::Result<usize>
    ensures bound { IfOk result (λ n. n ≤ length buf.old) }
    ensures bytes { IfOk result (λ n. Consumes (F.remaining file.old) (F.remaining file.new)
        (take n buf.new)) }
    ensures end { IfOk result (λ n. n < length buf.old → IsAtEnd (F.remaining file.new)) }
{
    let mut filled = 0;
    while filled < buf.len() {
        let (_, rest) = buf.split_at_mut(filled);
        let count = read_once(file, rest)?;
        if count == 0 {
            return Ok(filled);
        }
        filled += count;
    }
    Ok(filled)
}

fn read_from<R: Files<File = File>>(
    files: &R,
    path: &str,
    file: &mut Option<File>,
    at: u64,
    buf: &mut [u8],
) -> io::Result<usize>
    ensures { IfOk result (λ n. n ≤ length buf.old) }
{
    open_once(files, path, file)?;
    let Some(file) = file else {
        return Err(no_file());
    };
    file.seek(SeekFrom::Start(at))?;
    fill(file, buf)
}

// Writes the whole piece.
#[tactic(auto, using(crate::proofs::Parts::appends_nothing, crate::proofs::Parts::appends_more, crate::proofs::Parts::appends_whole))]
fn put<F: Write>(file: &mut F, piece: &[u8]) -> io::Result<()>
    ensures { OnOk result (Appends (F.contents file.old) (F.contents file.new) piece.now) }
{
    let mut done = 0;
    while done < piece.len() {
        let (_, rest) = piece.split_at(done);
        let count = write_once(file, rest)?;
        if count == 0 {
            return Err(io::Error::from(ErrorKind::WriteZero));
        }
        done += count;
    }
    Ok(())
}

fn write_to<R: Files<File = File>>(
    files: &R,
    path: &str,
    file: &mut Option<File>,
    at: u64,
    piece: &[u8],
) -> io::Result<()> {
    open_once(files, path, file)?;
    let Some(file) = file else {
        return Err(no_file());
    };
    file.seek(SeekFrom::Start(at))?;
    put(file, piece)
}

fn sync_file<R: Files<File = File>>(
    files: &R,
    path: &str,
    file: &mut Option<File>,
) -> io::Result<()> {
    open_once(files, path, file)?;
    let Some(file) = file else {
        return Err(no_file());
    };
    file.sync_all()
}

// A call failed: the count rises.
fn failed(faults: &mut u64) -> Failed
    ensures later { faults.old ≤ faults.new }
    ensures rose { Rose faults.old faults.new }
{
    *faults = faults.saturating_add(1);
    Failed
}

impl<R: Files<File = File>> Disk for FileDisk<'_, R> {
    ghost use Rattle.std.specs.Prelude.{[]};

    ghost told = { λ _. [] };

    ghost disk_faults = { λ d. d.faults };

    ghost syncs = { λ d. d.syncs };

    ghost reads_an_image = { λ _. tt };

    fn len(&mut self) -> Result<u64, Failed> {
        match measure(self.files, self.path.as_str(), &mut self.file) {
            Ok(size) if size <= LONGEST => Ok(size),
            _ => Err(failed(&mut self.faults)),
        }
    }

    fn read_at(&mut self, at: u64, buf: &mut [u8]) -> Result<usize, Failed> {
        match read_from(self.files, self.path.as_str(), &mut self.file, at, buf) {
            Ok(count) => Ok(count),
            Err(_) => Err(failed(&mut self.faults)),
        }
    }

    fn write_at(&mut self, at: u64, piece: &[u8]) -> Result<(), Failed> {
        match write_to(self.files, self.path.as_str(), &mut self.file, at, piece) {
            Ok(()) => Ok(()),
            Err(_) => Err(failed(&mut self.faults)),
        }
    }

    /// One sync of the file, which waits until its device has what was written. It counts where it succeeds.
    fn sync(&mut self) -> Result<(), Failed> {
        match sync_file(self.files, self.path.as_str(), &mut self.file) {
            Ok(()) => {
                self.syncs = self.syncs.saturating_add(1);
                Ok(())
            }
            Err(_) => Err(failed(&mut self.faults)),
        }
    }
}
