//! What is booked of each limit over time, indexed: bookings are added and taken out, and the greatest sum of a window is found by a search among
//! the points at which the sum of a limit changes.
//!
//! - [`Timeline`]: the bookings; contracts see their list.
//!
//! The points of a limit are a step function, a number at each moment kept as the points at which it changes, in a slab under the limit's number.
//! Sums are cut at 2^128 - 1, and moments are seconds.
#![tactic(auto)]

mod adding;
mod counted;
mod counting;
mod ends;
mod finding;
mod functions;
mod index;
mod looking;
mod matching;
mod points;
mod renewing;
mod scattering;
mod timeline;

pub use timeline::Timeline;
