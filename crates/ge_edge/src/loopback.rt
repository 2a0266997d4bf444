// What both doors of the loopback share.
ghost use Rattle.std.specs.Prelude.{◌≡◌, ◌+◌, IfOk, OnOk};
ghost use Rattle.ge_outside.specs.Doors.{CountsLink};
ghost use Rattle.ge_edge.specs.Loopback.{IsPortHere};
ghost use Rattle.ge_edge.specs.Times.{HasTimes};

use crate::links::TcpLink;
use crate::timed::TimedStream;
use crate::waits::{Waits, shorter};
use std::io;
use std::io::{Read, Write};
use std::net::{IpAddr, Ipv4Addr, SocketAddr, TcpStream};
use std::time::Clock;

/// A port of the loopback, which other machines don't reach.
pub(crate) fn loopback(port: u16) -> SocketAddr
    ensures { IsPortHere result port }
{
    SocketAddr::new(IpAddr::V4(Ipv4Addr::LOCALHOST), port)
}

/// A connection over a stream, on which a piece goes out at once, and which waits no longer than said. A stream on which a
/// piece may wait is used as it is, and one that can't be given these times is let go.
pub(crate) fn link_over<'a, C: Clock>(
    stream: TcpStream,
    clock: &'a C,
    waits: Waits,
) -> io::Result<TcpLink<TimedStream<'a, C>>>
    ensures times { OnOk result (HasTimes waits) }
    ensures read_faults { IfOk result (λ link. link.read_faults ≡ 0) }
    ensures write_faults { IfOk result (λ link. link.write_faults ≡ 0) }
{
    let _ = stream.set_nodelay(true);
    stream.set_read_timeout(Some(shorter(waits.read, waits.whole)))?;
    stream.set_write_timeout(Some(shorter(waits.write, waits.whole)))?;
    Ok(TcpLink::new(TimedStream::new(stream, clock, waits)))
}

/// The count of connections with faults, once this one is given back.
pub(crate) fn counted<T: Read + Write + Drop>(count: u64, link: &TcpLink<T>) -> u64
    ensures { CountsLink count result (link.now.read_faults + link.now.write_faults) }
{
    if link.read_faults > 0 || link.write_faults > 0 {
        count.saturating_add(1)
    } else {
        count
    }
}
