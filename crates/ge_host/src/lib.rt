//! An execution daemon that survives its own stops: what it keeps stands in a journal of two areas, and each change is written
//! before it counts. A stop at any moment leaves two areas that stand for the daemon before the change or after it, and opening
//! reads it back from them.
//!
//! - [`Host`]: it is opened on two areas of its host, obeys replies to `orders`, keeps ends, and forgets what was answered.
//! - [`HostStop`]: why a call was not done.
//!
//! `specs/Standing` has a daemon's bytes and what two areas stand for as the daemon of a host, `specs/Hosts` what calls promise.
#![tactic(auto)]

mod faults;
mod hosts;
mod opening;
mod reading;
mod storing;

pub use faults::HostStop;
pub use hosts::Host;
