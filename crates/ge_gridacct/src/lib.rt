//! The accounting log's program: the lines that the spool's cluster has are appended to the log, and what the log holds is shown and
//! summed, without a master that runs.
//!
//! - [`gridacct`]: the words of a command line, the output, the two areas of the spool and the disk of the log. It answers the
//!   status that the program ends with.
#![tactic(auto)]

mod comparing;
mod faults;
mod flushing;
mod holding;
mod records;
mod showing;
mod texts;
mod top;
mod totals;
mod words;

pub use top::gridacct;
