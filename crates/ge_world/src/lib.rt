//! The world of gridmaster and its execution daemons as code: a master's cluster, a daemon for each host, and all messages that were ever
//! sent, over each list of steps in which messages are lost, come late, again and to the wrong daemon, the master stops inside events,
//! and daemons inside what they do.
//!
//! - [`take_step`]: a world after one more step. [`run_world`]: the world after all steps, in which each dispatch is started at most
//!   once and accounted at most once.
//! - [`new_world`]: a world before its first step.
//! - [`arriving_event`], [`handle_arrival`], [`stop_in_arrival`]: the event of what comes to the master, and a world after it was handled, or after
//!   the master stopped in it.
//!
//! The rows are those of `ge_model_world`, whose `specs/Worlds` says what a step does; the cluster is that of `ge_world_laws`.
#![tactic(auto)]

mod acting;
mod arriving;
mod entering;
mod running;
mod stepping;

pub use arriving::arriving_event;
pub use running::{new_world, run_world};
pub use stepping::{handle_arrival, stop_in_arrival, take_step};
