//! The client.
use ge_edge::{StdinSource, StdoutSink, TcpDialer, Waits};
use ge_wire::{ask, port_of};
use std::io;
use std::time::Duration;

/// How long the server may be waited for.
const SECONDS: u64 = 60;

/// Does what `gq` does with these words, and gives the status to end with.
pub(crate) fn status_of(rt: &HostRuntime, words: &Vec<String>) -> u8 {
    let mut input = StdinSource::new(rt.reader());
    let mut output = StdoutSink::new(io::writer(rt));
    let waits = Waits::new(Duration::from_secs(SECONDS), Duration::from_secs(SECONDS));
    let mut door = TcpDialer::new(rt, rt, port_of(words), waits);
    ask(rt.alloc(), words, &mut input, &mut output, &mut door)
}
