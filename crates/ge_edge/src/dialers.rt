// A door that dials.
ghost use Rattle.std.specs.Prelude.{◌≡◌, None, IfOk, OnOk};
ghost use Rattle.ge_edge.specs.Times.{HasTimes};

use crate::links::TcpLink;
use crate::loopback::{counted, link_over, loopback};
use crate::timed::TimedStream;
use crate::waits::Waits;
use ge_outside::{Door, Failed};
use std::io;
use std::net::{Net, TcpStream};
use std::time::Clock;

/// A door that makes connections to a port of 127.0.0.1: each `accept` dials it. Each failing one raises its count of
/// faults by one.
#[derive(Drop)]
pub struct TcpDialer<'a, R: Net<Stream = TcpStream>, C: Clock> {
    net: &'a R,
    clock: &'a C,
    port: u16,
    waits: Waits,
    door_faults: u64,
    link_faults: u64,
}

impl<'a, R: Net<Stream = TcpStream>, C: Clock> TcpDialer<'a, R, C> {
    /// A door that dials this port, and whose connections wait this long.
    pub fn new(net: &'a R, clock: &'a C, port: u16, waits: Waits) -> Self
        ensures port { result.port ≡ port }
        ensures waits { result.waits ≡ waits }
        ensures door_faults { result.door_faults ≡ 0 }
        ensures link_faults { result.link_faults ≡ 0 }
    {
        TcpDialer {
            net,
            clock,
            port,
            waits,
            door_faults: 0,
            link_faults: 0,
        }
    }
}

// A new connection to a port.
fn new_link<'a, R: Net<Stream = TcpStream>, C: Clock>(
    net: &R,
    clock: &'a C,
    port: u16,
    waits: Waits,
) -> io::Result<TcpLink<TimedStream<'a, C>>>
    ensures times { OnOk result (HasTimes waits) }
    ensures read_faults { IfOk result (λ link. link.read_faults ≡ 0) }
    ensures write_faults { IfOk result (λ link. link.write_faults ≡ 0) }
{
    link_over(net.connect(loopback(port))?, clock, waits)
}

impl<'a, R: Net<Stream = TcpStream>, C: Clock> Door for TcpDialer<'a, R, C> {
    type Link = TcpLink<TimedStream<'a, C>>;

    ghost coming = { λ _. None };

    ghost closed = { λ _. None };

    ghost door_faults = { λ d. d.door_faults };

    ghost link_faults = { λ d. d.link_faults };

    /// A new connection to the port.
    fn accept(&mut self) -> Result<TcpLink<TimedStream<'a, C>>, Failed> {
        match new_link(self.net, self.clock, self.port, self.waits) {
            Ok(link) => Ok(link),
            Err(_) => {
                self.door_faults = self.door_faults.saturating_add(1);
                Err(Failed)
            }
        }
    }

    /// Closes the connection. It doesn't fail.
    fn close(&mut self, link: TcpLink<TimedStream<'a, C>>) -> Result<(), Failed> {
        self.link_faults = counted(self.link_faults, &link);
        Ok(())
    }
}
