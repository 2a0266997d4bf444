//! A master over its journal with the world beside it: the steps of a world are what a master does that keeps its cluster in two areas,
//! and stops and opens again.
//!
//! - [`handle_in`]: a master handles what comes to it, and the world takes that step where the master answered.
//! - [`reopen_in`]: a master is opened again after a stop inside an event, and the world takes the event's change where it was kept.
//! - [`is_same_cluster`]: whether two clusters are one.
//!
//! `specs/Moving` says what these come to.
#![tactic(auto)]

mod clusters;
mod handling;
mod reopening;
mod worlds;

pub use clusters::is_same_cluster;
pub use handling::handle_in;
pub use reopening::reopen_in;
