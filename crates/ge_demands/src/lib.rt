//! What grants of a job ask of each limit (complex, `consumable`).
//!
//! Contracts say by `ge_model_place` what is asked. The groups are those of the cluster, spelled out.
//!
//! - [`demands`]: what grants ask of each limit, slot by slot or once.
//! - [`capacity`], [`counted_limits`], [`Counted`]: the limits themselves, from `ge_capacities`.
#![tactic(auto)]

mod demanding;
mod indexing;

pub use demanding::demands;
pub use ge_capacities::{Counted, capacity, counted_limits};
