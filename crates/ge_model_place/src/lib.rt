//! Bookings, quotas, limits, demands, open instances, placement, advance reservations and the run.
//!
//! Definitions alone, without code.
//!
//! - `Bookings`: when two limits are one, a booking, the plain sum of a limit at a moment, its greatest sum in a window.
//! - `Quotas`: the first rule that matches, its key and its limits. `Opening`: the ten conditions of an open instance.
//! - `Limits`, `Demands`: which limits a grant counts for, capacities, demands, and what they come to in the rule's own words. What a job consumes
//!   once counts once for all its grants; a job that is sent into a reservation has the limits of that reservation alone.
//! - `Windows`, `StandIns`: durations and windows, what running tasks and reservations book, the job that stands for a reservation.
//! - `InstanceOrder`: the order in which instances are tried.
//! - `Placement`: where a task is placed, slot by slot; `Choosing`: the same in the words of the allocation rules. `Advances`: what a reservation is granted.
//! - `Running`: the run as a function; `Runs`: the run as a relation, and what is proved of every run.
//!
//! Among the proofs: the greatest sum of a window bounds the sum at each of its moments (`Peaks`); the function gives a run, with one decision for
//! each task in order (`Decided`, `Laws`); no run takes a limit over the greater of its capacity and what was booked before (`Sums`), nor does a
//! reservation that is granted (`Granted`); what grants ask of each limit is what the rule says (`Whole`); a placement is that of the rule's own
//! words (`Placed`); a reservation of a task without a PE is the earliest (`Sooner`).
#![tactic(auto)]
