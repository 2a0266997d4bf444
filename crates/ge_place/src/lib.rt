//! Where a task is placed (sge_pe `allocation_rule`; qsub `-pe`).
//!
//! Contracts say by `ge_model_place` what each call gives, and see a timeline as the list of its bookings.
//!
//! - [`place_job`]: the grants of a task of a job from a moment on, over what is booked; the job may be one that isn't in the table.
//! - [`place_job_knowing`]: the same, with what a run finds out once.
//! - [`place`]: the same for a task of the table's jobs.
//!
//! A job without a parallel environment gets the first instance that takes a slot, and no other is looked at behind it. For one
//! with an environment slots are given by the rule, and what those given so far ask of each limit is kept beside them. Each
//! instance is looked at once, where a slot may be given there, and not where all slots are given before. Where slots are given
//! host by host, only the instances on a host are gone through for it.
#![tactic(auto)]

mod asking;
mod filling;
mod giving;
mod granting;
mod hosts;
mod placing;
mod searching;
mod seeing;
mod single;
mod spots;
mod spreading;
mod sums;

pub use placing::{place, place_job, place_job_knowing};
