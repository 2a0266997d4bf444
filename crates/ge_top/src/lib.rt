//! The top call of gridmaster, and the runs that it can make.
//!
//! - [`simulate`]: a script from a source, its replies to a sink, with the cluster in memory alone.
//! - [`replay`]: the same over a master, whose cluster stands in two areas.
//! - [`generate`]: the script that is made up from a number, to a sink.
//! - [`trial`]: that script simulated, and a line to a sink that counts what became of its requests.
//! - [`port_of`]: the port that the words name where connections are served.
//! - [`gridmaster`]: the words of a command line, and everything that a run may use of the outside.
//! - [`status_of`]: the same where the words may not have been read.
//! - [`run`]: the program. It makes the devices of the system and the call over them, and answers `--help` and `--version`, so
//!   that `main` has nothing to do but to end with the status.
//!
//! A run answers with the status that the program ends with.
#![tactic(auto)]

mod answering;
mod batches;
mod changing;
mod command_line;
mod generating;
mod help;
mod holding;
mod opening;
mod replaying;
mod replies;
mod running;
mod showing;
mod simulating;
mod statuses;
mod tallying;
mod top;
mod trying;
mod words;
mod writing;

pub use command_line::status_of;
pub use generating::generate;
pub use replaying::replay;
pub use running::run;
pub use simulating::simulate;
pub use top::gridmaster;
pub use trying::trial;
pub use words::port_of;
