//! Bookings: which of them a limit counts, what they take of it at a moment, and at most in a window.
//!
//! A booking is what a task takes in a span of time: from its first moment until before its end, in seconds. It has a
//! demand on each limit that counts for it. Nothing here takes memory. Sums are cut at 2^128 - 1.
//!
//! - [`sum_at`]: the sum of a limit at a moment.
//! - [`peak`]: its greatest sum in a window.
#![tactic(auto)]

mod limits;
mod sums;
mod windows;

pub use limits::{is_same_instance, is_same_limit, is_same_name};
pub use sums::sum_at;
pub use windows::{FOREVER, end_of_window, peak};
