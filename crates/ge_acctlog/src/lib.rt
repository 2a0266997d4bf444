//! The accounting log: lines in records on a disk of its own, which other tools read. A stop before, between or within any call of
//! the disk leaves the lines that stood before the log's call or those that stand after it: a record counts by its gate, a byte that
//! is written alone, after a sync of everything behind it.
//!
//! - [`Log`]: the log; it is opened, counted, read and appended to.
//! - [`LogFault`], [`LogStop`]: why a call fails.
#![tactic(auto)]

mod appending;
mod areas;
mod bodies;
mod codes;
mod copying;
mod counting;
mod faults;
mod gathering;
mod log;
mod opening;
mod reading;

pub use faults::{LogFault, LogStop};
pub use log::Log;
