//! What an entry does to the cluster.
//!
//! - [`apply`]: the cluster after an entry, as `ge_model_jobs` has it. It never schedules, and a change of what isn't there
//!   changes nothing.
//!
//! By kind of change:
//!
//! - `jobs`: submissions, alterations, holds, releases, and error states that are cleared.
//! - `ends`, `deletions`: running tasks that end, with `accounts`, their accounting lines, and `usages`, usage and its decay.
//! - `configuring`, `hosts`: objects that are put and dropped, and load reports.
//! - `runs`, `bookings`: starts, and advance reservations that are booked, given up and over.
//!
//! Nothing here walks all jobs: the table of jobs finds a serial and the jobs of a reservation by what it keeps of them.
#![tactic(auto)]

mod accounts;
mod applying;
mod bookings;
mod configuring;
mod deletions;
mod ends;
mod hosts;
mod jobs;
mod runs;
mod usages;

pub use applying::apply;
