// A door that listens.
ghost use Rattle.std.specs.Prelude.{◌≡◌, None, IfOk, OnOk};
ghost use Rattle.ge_edge.specs.Times.{HasTimes};

use crate::links::TcpLink;
use crate::loopback::{counted, link_over, loopback};
use crate::timed::TimedStream;
use crate::waits::Waits;
use ge_outside::{Door, Failed};
use std::io;
use std::io::ErrorKind;
use std::net::{Net, OpenListener, TcpStream};
use std::time::Clock;

// Whether an error of `accept` is the end of one connection that came, or a signal, and not the listener's.
fn is_passing(kind: ErrorKind) -> bool {
    kind == ErrorKind::Interrupted || kind == ErrorKind::ConnectionAborted
}

// The stream of the next connection that comes and stands.
fn accept_one<L: OpenListener>(listener: &L) -> io::Result<L::Stream> {
    for _ in 0..u64::MAX {
        match listener.accept() {
            Ok((stream, _)) => return Ok(stream),
            Err(error) => {
                if !is_passing(error.kind()) {
                    return Err(error);
                }
            }
        }
    }
    Err(io::Error::from(ErrorKind::TimedOut))
}

/// A door that listens at a port of 127.0.0.1, from its first `accept` on. Each failing `accept` raises its count of
/// faults by one.
#[derive(Drop)]
pub struct TcpDoor<'a, R: Net<Stream = TcpStream>, C: Clock> {
    net: &'a R,
    clock: &'a C,
    port: u16,
    waits: Waits,
    listener: Option<R::Listener>,
    door_faults: u64,
    link_faults: u64,
}

impl<'a, R: Net<Stream = TcpStream>, C: Clock> TcpDoor<'a, R, C> {
    /// A door at this port, whose connections wait this long.
    pub fn new(net: &'a R, clock: &'a C, port: u16, waits: Waits) -> Self
        ensures port { result.port ≡ port }
        ensures waits { result.waits ≡ waits }
        ensures door_faults { result.door_faults ≡ 0 }
        ensures link_faults { result.link_faults ≡ 0 }
    {
        TcpDoor {
            net,
            clock,
            port,
            waits,
            listener: None,
            door_faults: 0,
            link_faults: 0,
        }
    }
}

// The next connection at a port, at which listening begins with the first call.
fn next_link<'a, R: Net<Stream = TcpStream>, C: Clock>(
    net: &R,
    clock: &'a C,
    port: u16,
    waits: Waits,
    listener: &mut Option<R::Listener>,
) -> io::Result<TcpLink<TimedStream<'a, C>>>
    ensures times { OnOk result (HasTimes waits) }
    ensures read_faults { IfOk result (λ link. link.read_faults ≡ 0) }
    ensures write_faults { IfOk result (λ link. link.write_faults ≡ 0) }
{
    if listener.is_none() {
        *listener = Some(net.bind(loopback(port))?);
    }
    match listener {
        Some(listener) => link_over(accept_one(listener)?, clock, waits),
        None => Err(io::Error::from(ErrorKind::NotConnected)),
    }
}

impl<'a, R: Net<Stream = TcpStream>, C: Clock> Door for TcpDoor<'a, R, C> {
    type Link = TcpLink<TimedStream<'a, C>>;

    ghost coming = { λ _. None };

    ghost closed = { λ _. None };

    ghost door_faults = { λ d. d.door_faults };

    ghost link_faults = { λ d. d.link_faults };

    /// The next connection. It waits for one, and passes by one that was given up before it was accepted.
    fn accept(&mut self) -> Result<TcpLink<TimedStream<'a, C>>, Failed> {
        match next_link(
            self.net,
            self.clock,
            self.port,
            self.waits,
            &mut self.listener,
        ) {
            Ok(link) => Ok(link),
            Err(_) => {
                self.door_faults = self.door_faults.saturating_add(1);
                Err(Failed)
            }
        }
    }

    /// Closes the connection. It doesn't fail.
    fn close(&mut self, link: TcpLink<TimedStream<'a, C>>) -> Result<(), Failed> {
        self.link_faults = counted(self.link_faults, &link);
        Ok(())
    }
}
