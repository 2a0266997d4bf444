// A connection over a stream that is read and written, as that of a socket.
ghost use Rattle.std.specs.Prelude.{◌≡◌, ◌<◌, ◌≤◌, length, None, IfOk, OnOk};
ghost use Rattle.std.specs.Io.KnownBytes.{ReadConsumes, WriteAppends};
ghost use Rattle.ge_outside.specs.Faults.{HasCause};

use crate::sinks::write_once;
use crate::sources::read_once;
use ge_outside::{Failed, Link, Sink, Source};
use std::io::{Read, Write};

/// A connection over a stream. Each error raises its count of read faults or of write faults by one, and so does a
/// write that takes nothing of a piece. It is closed where it is dropped.
#[derive(Drop)]
pub struct TcpLink<T: Read + Write + Drop> {
    stream: T,
    pub(crate) read_faults: u64,
    pub(crate) write_faults: u64,
}

impl<T: Read + Write + Drop> TcpLink<T> {
    // A connection over the stream; doors alone make one.
    pub(crate) fn new(stream: T) -> Self
        ensures stream { result.stream ≡ stream }
        ensures read_faults { result.read_faults ≡ 0 }
        ensures write_faults { result.write_faults ≡ 0 }
    {
        TcpLink {
            stream,
            read_faults: 0,
            write_faults: 0,
        }
    }
}

impl<T: Read + Write + Drop> Source for TcpLink<T> {
    ghost rest = { λ _. None };

    ghost read_faults = { λ l. l.read_faults };

    ghost write_side = { λ l. (None, l.write_faults) };

    /// One read of the stream, whose answer it hands on: an error as `Failed`, a number of bytes as that number.
    fn read(&mut self, buf: &mut [u8]) -> Result<usize, Failed>
        ensures bound { IfOk result (λ n. n ≤ length buf.old) }
        ensures cause { HasCause self.old.read_faults self.new.read_faults result }
        ensures no_fault { OnOk result (self.new.read_faults ≡ self.old.read_faults) }
        ensures write_faults { self.new.write_faults ≡ self.old.write_faults }
        ensures bytes { ReadConsumes (T.remaining self.old.stream) (T.remaining self.new.stream) result buf.new }
    {
        match read_once(&mut self.stream, buf) {
            Ok(count) => Ok(count),
            Err(_) => {
                self.read_faults = self.read_faults.saturating_add(1);
                Err(Failed)
            }
        }
    }
}

impl<T: Read + Write + Drop> Sink for TcpLink<T> {
    ghost written = { λ _. None };

    ghost write_faults = { λ l. l.write_faults };

    ghost read_side = { λ l. (None, l.read_faults) };

    /// One write of the stream, whose answer it hands on: an error as `Failed`, a number of bytes as that number.
    fn write(&mut self, piece: &[u8]) -> Result<usize, Failed>
        ensures bound { IfOk result (λ n. n ≤ length piece.now) }
        ensures some { IfOk result (λ n. 0 < length piece.now → 0 < n) }
        ensures cause { HasCause self.old.write_faults self.new.write_faults result }
        ensures no_fault { OnOk result (self.new.write_faults ≡ self.old.write_faults) }
        ensures read_faults { self.new.read_faults ≡ self.old.read_faults }
        ensures bytes { WriteAppends (T.contents self.old.stream) (T.contents self.new.stream) result piece.now }
    {
        if piece.is_empty() {
            return Ok(0);
        }
        match write_once(&mut self.stream, piece) {
            Ok(count) if count > 0 => Ok(count),
            _ => {
                self.write_faults = self.write_faults.saturating_add(1);
                Err(Failed)
            }
        }
    }
}

impl<T: Read + Write + Drop> Link for TcpLink<T> {
    ghost use Rattle.std.specs.Prelude.{refl};

    ghost reads_leave = { λ link. refl };

    ghost writes_leave = { λ link. refl };
}
