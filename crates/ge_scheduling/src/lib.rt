//! A scheduling run over the whole model: one decision for each task, in the order of the tasks (sched_conf).
//!
//! A task starts where it can be placed now beside all that is booked by then; else slots are kept for it, where its job asks
//! for that and may have it; else it waits. What a decision books counts for all that come after it. Contracts say by
//! `ge_model_place` what a run is, and what holds of it. How a task is placed stands below, in `ge_attempts`.
//!
//! - `deciding`: the decision of one task. `bookings`: what a decision books. `advancing`: one task after the other. `noting`:
//!   the kinds of jobs of which no task can start any more.
//! - [`basis_of`]: what a run stands on, as a [`Basis`]; [`all_wait`]: whether each task waits on it, in whatever order.
//! - [`begin_run`]: a [`Run`] on its basis; [`decide_tasks`]: the run with more tasks decided; [`others_wait`]: whether each that
//!   isn't decided yet waits; [`decisions_of`]: what was decided.
//! - [`run`]: the decisions of a whole run.
#![tactic(auto)]

mod advancing;
mod basis;
mod bookings;
mod deciding;
mod noting;
mod running;
mod underway;

pub use basis::{Basis, all_wait, basis_of};
pub use running::run;
pub use underway::{Run, begin_run, decide_tasks, decisions_of, others_wait};
