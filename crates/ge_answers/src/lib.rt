//! Plans of commands: refused, accepted with a change, or shown.
//!
//! Contracts say by `ge_model_core` what each call gives.
//!
//! - [`refuse`]: the plan of an event that is refused. [`accept`], [`done`]: one that changes something, with its line, or with
//!   the line `done`. [`show`]: one that shows lines and changes nothing.
//!
#![tactic(auto)]

mod accepting;
mod refusing;

pub use accepting::{accept, done, show};
pub use refusing::{one_line, refuse};
