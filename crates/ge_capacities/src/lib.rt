//! Limits: how much there is of each, and which ones a grant counts for (queue_conf, host_conf, sge_pe, sge_resource_quota, complex).
//!
//! Contracts say by `ge_model_place` what each call gives. The groups are those of the cluster, spelled out.
//!
//! - [`capacity`]: how much of a limit there is.
//! - [`counted_limits`]: the limits that a grant at an instance counts for, each with its capacity and what a slot asks of it, as a
//!   [`Counted`].
#![tactic(auto)]

mod asking;
mod capacities;
mod counting;
mod quotas;

pub use capacities::capacity;
pub use counting::{Counted, counted_limits};
