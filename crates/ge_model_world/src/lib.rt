//! The world of a master and its execution daemons: one master, a daemon for each host, and all messages that were ever sent
//! between them. A message may be lost, come late, again and to the wrong daemon, the master may stop inside an event, and a daemon
//! inside an act.
//!
//! Definitions and laws alone. The types are those that code keeps too.
//!
//! - `specs/Masters`: what is asked of a master, as a record of functions; `specs/Worlds`: what each [`Step`] does to a [`World`].
//! - `specs/Laws`: what a master must be like, and `KeepsOnce`: each dispatch is started at most once and accounted at most
//!   once, and what is accounted tells what its daemon kept.
//! - `proofs/Once`: over each master that keeps the laws, `keeps_once` holds after each list of steps. `proofs/Kept` has what holds
//!   of a world after each step.
#![tactic(auto)]

mod rows;

pub use rows::{Act, Arrival, Finished, Message, Report, Step, World};
