//! A running master answers connections: each frame that comes is a request, handled as one batch with the scheduling run that may
//! be due before it, and its reply is written once what was changed stands in the areas.
//!
//! - [`serve_link`]: one connection, up to its end.
//! - [`serve`]: connections of a door, one after the other.
//! - [`Master`], [`Stop`], [`plan`], [`apply`], [`render`]: the master's and the core's own, for crates above.
#![tactic(auto)]

mod answering;
mod linking;
mod moments;
mod serving;
mod statuses;

pub use ge_master::{Master, Stop, apply, plan, render};
pub use ge_model_program::LinkEnd;
pub use linking::serve_link;
pub use serving::serve;
