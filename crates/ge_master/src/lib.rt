//! The master: the core over the journal. It answers events in batches, and what a batch changes stands in the journal
//! before its replies are given out. A stop at any moment leaves two areas that stand for the cluster before the batch or
//! after it, and opening reads it back from them; nothing is planned or scheduled again.
//!
//! - [`Master`]: it is opened on two areas, and handles events.
//! - [`Stop`]: why it stopped.
//! - [`masters_at_home_stand_for_their_cluster`]: what the contracts mean by at home.
//! - [`plan`], [`apply`], [`render`]: the core's own calls, for crates above.
#![tactic(auto)]

mod faults;
mod handling;
mod laws;
mod master;
mod opening;
mod reading;
mod staging;
mod storing;

pub use faults::Stop;
pub use ge_core::{apply, plan, render};
pub use laws::masters_at_home_stand_for_their_cluster;
pub use master::Master;
