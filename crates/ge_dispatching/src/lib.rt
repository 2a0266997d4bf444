//! The plan of a scheduling run, and the priorities of all candidates (sched_conf, sge_priority).
//!
//! Contracts say by `ge_model_order` and `ge_model_core` what each call gives.
//!
//! - [`plan_run`]: the plan of `sched`: its starts and reservations, over the eligible tasks in the order of a run.
//! - [`priorities`]: the priorities of all candidates at a moment, with all their tickets.
#![tactic(auto)]

mod deciding;
mod dispatching;
mod prioritizing;

pub use dispatching::plan_run;
pub use prioritizing::priorities;
