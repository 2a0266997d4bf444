//! The ports that a driver may take.
ghost use Rattle.std.specs.Prelude.{◌≤◌, ◌<◌};

use std::net::{IpAddr, Ipv4Addr, Net, SocketAddr};

/// The first port.
const FIRST: u64 = 10_000;

/// How many ports there are. They end below those that systems give to clients.
const COUNT: u64 = 22_000;

/// How far it is to the port of the next turn: drivers side by side, whose processes have near numbers, don't meet.
const STEP: u64 = 1_009;

/// The port that a process takes at a turn.
pub(crate) fn port_at(process: u32, turn: u32) -> u16
    ensures first { 10_000 ≤ result }
    ensures last { result < 32_000 }
{
    let place = u64::from(process) + u64::from(turn) * STEP;
    (FIRST + place % COUNT) as u16
}

/// Whether nobody listens at a port.
pub(crate) fn is_free(rt: &HostRuntime, port: u16) -> bool {
    let here = SocketAddr::new(IpAddr::V4(Ipv4Addr::LOCALHOST), port);
    rt.bind(here).is_ok()
}
