//! How long tasks are booked, and what running tasks and advance reservations book (queue_conf `h_rt`, `s_rt`; sched_conf
//! `default_duration`; qrsub).
//!
//! Contracts say by `ge_model_place` what each call gives. The groups are those of the cluster, spelled out.
//!
//! - [`window_end_from`]: where the window of a job's task ends that starts at a moment; [`is_in_time`]: whether it may start then.
//! - [`booking`]: what a task books with its grants; [`base_bookings`]: what running tasks and reservations book.
//! - [`stand_in`]: the job that stands for an advance reservation.
#![tactic(auto)]

mod bookings;
mod repeating;
mod standing;
mod windows;

pub use bookings::{base_bookings, booking};
pub use standing::stand_in;
pub use windows::{is_in_time, window_end_from};
