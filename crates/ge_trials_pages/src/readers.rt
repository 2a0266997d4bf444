//! Readers, a writer and a source that fail, are interrupted, or give and take little.

use ge_outside::{Failed, PlainSource, Source};
use std::io;
use std::io::{ErrorKind, Read, Write};

/// A reader that gives its bytes one at a time, and then an end or an error.
#[derive(Drop)]
pub(crate) struct Dripping<'a> {
    pub(crate) bytes: &'a [u8],
    pub(crate) error: Option<ErrorKind>,
}

impl Read for Dripping<'_> {
    fn read(&mut self, buf: &mut [u8]) -> io::Result<usize> {
        if buf.is_empty() {
            return Ok(0);
        }
        match self.bytes.split_first() {
            Some((byte, rest)) => {
                buf[0] = *byte;
                self.bytes = rest;
                Ok(1)
            }
            None => match self.error {
                Some(kind) => Err(io::Error::from(kind)),
                None => Ok(0),
            },
        }
    }
}

/// A reader of which a signal interrupts each second read.
#[derive(Drop)]
pub(crate) struct Interrupted<'a> {
    pub(crate) inner: Dripping<'a>,
    pub(crate) is_next: bool,
}

impl Read for Interrupted<'_> {
    fn read(&mut self, buf: &mut [u8]) -> io::Result<usize> {
        self.is_next = !self.is_next;
        if self.is_next {
            return Err(io::Error::from(ErrorKind::Interrupted));
        }
        self.inner.read(buf)
    }
}

/// A writer that takes one byte at a time into a list, and fails once that is full. A signal interrupts each second write.
#[derive(Drop)]
pub(crate) struct Narrow<'a> {
    pub(crate) taken: &'a mut Vec<u8>,
    pub(crate) most: usize,
    pub(crate) is_next: bool,
}

impl Write for Narrow<'_> {
    fn write(&mut self, buf: &[u8]) -> io::Result<usize> {
        self.is_next = !self.is_next;
        if self.is_next {
            return Err(io::Error::from(ErrorKind::Interrupted));
        }
        if self.taken.len() >= self.most {
            return Err(io::Error::from(ErrorKind::StorageFull));
        }
        match buf.first() {
            Some(byte) => {
                self.taken.push(*byte)?;
                Ok(1)
            }
            None => Ok(0),
        }
    }

    fn flush(&mut self) -> io::Result<()> {
        Ok(())
    }
}

/// A source that gives one byte at a time.
#[derive(Drop)]
pub(crate) struct Slow(pub(crate) PlainSource);

impl Source for Slow {
    ghost use Rattle.std.specs.Prelude.{Some};
    ghost use Rattle.ge_outside.specs.Memory.{plain_rest};

    ghost rest = { λ s. Some (plain_rest s.0) };

    ghost read_faults = { λ s. 0 };

    fn read(&mut self, buf: &mut [u8]) -> Result<usize, Failed> {
        let count = buf.len().min(1);
        let (first, _) = buf.split_at_mut(count);
        self.0.read(first)
    }
}
