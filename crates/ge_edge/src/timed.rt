// A stream that waits for the other side only so long.
ghost use Rattle.std.specs.Prelude.{◌≡◌, ◌≤◌};
ghost use Rattle.std.specs.Duration.{as_nanos};

use crate::waits::{Waits, shorter};
use std::io;
use std::io::{Read, Write};
use std::net::TcpStream;
use std::time::{Clock, Duration, Instant};

/// A stream of a socket of which each read and each write fails once it has waited so long, and every one once all of them
/// together have: so neither silence nor bytes that come one by one hold up whoever serves it.
#[derive(Drop)]
pub struct TimedStream<'a, C: Clock> {
    stream: TcpStream,
    clock: &'a C,
    waits: Waits,
    left: Duration,
}

impl<'a, C: Clock> TimedStream<'a, C> {
    // A stream that has not waited yet; doors alone make one.
    pub(crate) fn new(stream: TcpStream, clock: &'a C, waits: Waits) -> Self
        ensures waits { result.waits ≡ waits }
        ensures left { result.left ≡ waits.whole }
    {
        TimedStream {
            stream,
            clock,
            waits,
            left: waits.whole,
        }
    }
}

// What is left of a time after a wait that began then. A clock that can't be read leaves nothing.
fn left_after<C: Clock>(left: Duration, began: &Instant, clock: &C) -> Duration
    ensures { as_nanos result ≤ as_nanos left }
{
    match began.elapsed(clock) {
        Ok(spent) => left.saturating_sub(spent),
        Err(_) => Duration::ZERO,
    }
}

impl<C: Clock> Read for TimedStream<'_, C> {
    fn read(&mut self, buf: &mut [u8]) -> io::Result<usize> {
        let longest = shorter(self.waits.read, self.left);
        self.stream.set_read_timeout(Some(longest))?;
        let began = Instant::now(self.clock)?;
        let count = self.stream.read(buf);
        self.left = left_after(self.left, &began, self.clock);
        count
    }
}

impl<C: Clock> Write for TimedStream<'_, C> {
    fn write(&mut self, piece: &[u8]) -> io::Result<usize> {
        let longest = shorter(self.waits.write, self.left);
        self.stream.set_write_timeout(Some(longest))?;
        let began = Instant::now(self.clock)?;
        let count = self.stream.write(piece);
        self.left = left_after(self.left, &began, self.clock);
        count
    }

    fn flush(&mut self) -> io::Result<()> {
        self.stream.flush()
    }
}
