//! The outside, as the batch system sees it: streams, connections, disks, doors and clocks, each a
//! trait with a count of its faults, so that a failure always has a cause, and with the content that
//! an object tells, so that clauses above speak of the bytes that came in and went out. Forms in
//! memory tell their content; the adapters of real devices tell none.
#![tactic(auto)]

mod clocks;
mod disks;
mod doors;
mod draws;
mod failure;
mod histories;
mod memory_clocks;
mod memory_disks;
mod memory_doors;
mod memory_links;
mod memory_steps;
mod memory_streams;
mod overwriting;
mod replays;
mod schedules;
mod showing;
mod streams;

pub use clocks::Clock;
pub use disks::Disk;
pub use doors::Door;
pub use failure::Failed;
pub use memory_clocks::MemClock;
pub use memory_disks::MemDisk;
pub use memory_doors::MemDoor;
pub use memory_links::MemLink;
pub use memory_streams::{MemSink, MemSource, PlainSource};
pub use schedules::Schedule;
pub use streams::{Link, Sink, Source, write_all};
