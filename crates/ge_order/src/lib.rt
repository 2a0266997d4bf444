//! The candidates of a run, the urgency and the priority of jobs, and the order in which a run takes their tasks (sge_priority,
//! sched_conf).
//!
//! Contracts see the rows of `ge_rows`, and say by the definitions of `ge_model_order` what each call gives. Each call is total:
//! a job that isn't there has no tasks, and the priority 0. Only want of memory fails.
//!
//! - [`candidates`]: the jobs with a task that a run may start.
//! - [`urgency`]: the urgency of a job, which takes no memory. [`prios`]: the priorities of jobs with their tickets;
//!   [`own_prios`]: those of all candidates, where jobs have no tickets but those that each was given.
//! - [`Prios`]: priorities as a run stands on, of which those of jobs that are alike take a few bytes each.
//! - [`order`]: the tasks by the priorities of their jobs. [`bound_for`], [`first_part`] and [`second_part`] part priorities, so that
//!   the order of all is that of the first part and then that of the second.
#![tactic(auto)]

mod alike;
mod asked;
mod choosing;
mod gathering;
mod kinds;
mod lots;
mod ordering;
mod parting;
mod parts;
mod priority;
mod repeating;
mod standing;
mod tasks;
mod telling;
mod urging;
mod weighing;

pub use choosing::candidates;
pub use lots::Prios;
pub use ordering::order;
pub use parting::{Bound, bound_for, first_part, second_part};
pub use priority::{own_prios, prios};
pub use urging::urgency;
