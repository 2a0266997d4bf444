//! What a scheduling run tries with one task: what is left at each instance, whether one may take a slot, a task's placement now
//! and later, slots that are kept for it (sched_conf).
//!
//! What is told here is beside the rules what a fast run goes by: what no job asks less of, where too little is left for any job.
//! Contracts say by `ge_model_place` what is found, and by the definitions of
//! this crate what the rest holds.
//!
//! - [`Setting`]: what stays the same during a run. [`Tally`], [`first_tally`], [`count`]: what is counted of the decisions so far;
//!   [`is_full`], [`may_reserve`]: what that leaves to a job. [`Kinds`], [`kinds_of`]: what tells the kinds of
//!   jobs. [`vacant_instances`], [`no_slot_is_left`], [`goes_on`]: the instances that have a slot left.
//! - [`Room`], [`room_at`]: what is left at each instance, and where too little is for any job; [`renew`]: that as slots are given
//!   and kept. `amounts`: what any job asks of values of hosts, at least. `closing`: instances that are closed to each job.
//!   [`Holders`], [`holders_of`]: where each value of hosts is.
//! - `looking`: what a task finds at an instance in its window. [`asked_limits`]: what one slot of a job asks of limits, and which
//!   of them count at whatever instance. `finding`: whether an instance may take a slot now. `single`: the start of a task that
//!   takes one slot. `thinning`: a placement over hosts alone at which something may be placed.
//! - [`place_at_once`], [`place_now`]: the placement of a task now. [`reserve`]: the first moment at which it can be placed.
#![tactic(auto)]

mod amounts;
mod asking;
mod closing;
mod counting;
mod finding;
mod holding;
mod kinds;
mod looking;
mod placing;
mod renewing;
mod reserving;
mod rests;
mod setting;
mod single;
mod thinning;
mod vacancy;

pub use asking::asked_limits;
pub use counting::{Tally, count, first_tally, is_full, may_reserve};
pub use holding::{Holders, holders_of};
pub use kinds::{Kinds, kinds_of};
pub use placing::{place_at_once, place_now};
pub use renewing::renew;
pub use reserving::reserve;
pub use rests::{Room, is_before, room_at};
pub use setting::Setting;
pub use vacancy::{goes_on, no_slot_is_left, vacant_instances};
