//! Which instances are open to a job, and in which order a run tries them (queue_conf, host_conf, complex, sched_conf).
//!
//! Contracts say by `ge_model_place` what each call gives. The groups are those of the cluster, spelled out. Only
//! [`is_open`] and [`instance_order`] take memory.
//!
//! - [`is_open`]: whether an instance is open to the tasks of a job; [`is_open_beside`] is the same for many calls, with the
//!   row of the host `global` handed in, and [`is_open_knowing`] with [`any_forced`] too.
//! - [`reaches_threshold`], [`threshold_reached`]: whether a load threshold of an instance is reached.
//! - [`instance_order`]: all instances in the order of a run; [`load_at`]: the load of a host, by which it goes.
#![tactic(auto)]

mod admitting;
mod asking;
mod looking;
mod matching;
mod offering;
mod opening;
mod ordering;
mod thresholds;

pub use offering::any_forced;
pub use opening::{is_open, is_open_beside, is_open_knowing};
pub use ordering::{instance_order, load_at};
pub use thresholds::{reaches_threshold, threshold_reached};
