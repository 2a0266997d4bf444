// The standard streams of a program that was started without them.
ghost use Rattle.std.specs.Prelude.{◌≤ℤ◌, pos, IfOk};
ghost use Rattle.std.specs.Fd.{file_raw_fd};

use std::fs::{File, Files};
use std::io::ErrorKind;
use std::os::fd::AsRawFd;
use std::{fs, io};

/// A folder: it can be opened, and neither be read nor be written as a file.
const ROOT: &str = "/";

/// The number of the last standard stream.
const LAST: i32 = 2;

/// Three files on a folder, which have the numbers of the standard streams that were closed.
#[derive(Drop)]
pub struct StandingStreams {
    first: File,
    second: File,
    third: File,
}

/// Opens a folder three times, before any other file or connection. The system gives the lowest number that is free, so the
/// numbers of the three standard streams are taken from then on, for as long as the answer is held: no file that is opened
/// later gets one. A read or a write of a stream that was closed fails.
pub fn hold_streams<R: Files<File = File>>(files: &R) -> io::Result<StandingStreams>
    ensures { IfOk result (λ streams. pos 2 ≤ℤ file_raw_fd streams.third) }
{
    let first = fs::open(files, ROOT)?;
    let second = fs::open(files, ROOT)?;
    let third = fs::open(files, ROOT)?;
    if third.as_raw_fd() < LAST {
        return Err(io::Error::from(ErrorKind::Unsupported));
    }
    Ok(StandingStreams {
        first,
        second,
        third,
    })
}
