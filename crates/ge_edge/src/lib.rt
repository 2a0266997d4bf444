//! The edge: what the system has, as the outside that [`ge_outside`] speaks of. The adapters tell nothing of their
//! content to it; of a reader, a writer or a stream whose bytes are known, as one in memory, a clause says that no byte is
//! lost, added or changed, and that nothing but the end is told as the end. Of a file it is tested.
//!
//! - Streams: [`StdinSource`] over a reader, [`StdoutSink`] over a writer.
//! - [`hold_streams`]: before all else, so that no file takes the place of a standard stream that is closed.
//! - [`FileDisk`]: a file as an area of a disk.
//! - Connections of the loopback: [`TcpDoor`] listens, [`TcpDialer`] dials, and both give a [`TcpLink`], over a
//!   [`TimedStream`], which waits no longer than its [`Waits`].
//! - [`SystemClock`]: the system's clock. [`read_words`]: the words of the command line. [`About`]: what `--help` and `--version`
//!   are answered with.
#![tactic(auto)]

mod about;
mod clocks;
mod dialers;
mod disks;
mod doors;
mod links;
mod loopback;
mod sinks;
mod sources;
mod standing;
mod timed;
mod waits;
mod words;

pub use about::{About, is_said};
pub use clocks::SystemClock;
pub use dialers::TcpDialer;
pub use disks::FileDisk;
pub use doors::TcpDoor;
pub use links::TcpLink;
pub use sinks::StdoutSink;
pub use sources::StdinSource;
pub use standing::{StandingStreams, hold_streams};
pub use timed::TimedStream;
pub use waits::Waits;
pub use words::read_words;
