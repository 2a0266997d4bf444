//! The table of jobs: what is asked of it, and how a job comes, changes and goes.
//!
//! The table is a row of `ge_rows`, which contracts see as the list of its pairs; what each call gives or makes of it is defined
//! in `ge_model_jobs`. A change is an edit of the named job alone, where it stands: it tells the table which marks the job loses
//! and gains, so that nothing is counted again. Each call is total: a job or a task that isn't there stays so.
//!
//! - [`get`], [`holds_of`], [`is_live`]: one job. [`find_running`], [`is_running`]: the running task of a serial.
//!   These take no memory.
//! - [`eligible`]: the tasks that a run may start; [`held_tasks`], [`free_tasks`]: which waiting tasks array predecessors hold.
//! - [`submit`], [`alter`], [`set_hold`], [`hold`], [`release`]: qsub, qalter, qhold, qrls.
//! - [`start`], [`end`], [`remove`]: a task starts and ends; a job goes.
//! - [`joined`], [`NamedTasks`], [`narrowed`]: the tasks that targets name, job by job; [`delete_named`], [`clear_named`], and
//!   [`delete`], [`clear`] of a set: these are deleted, or wait again (qdel, qmod -cj).
#![tactic(auto)]

mod altering;
mod asking;
mod clearing;
mod deleting;
mod ending;
mod finding;
mod gathered;
mod holding;
mod holds;
mod narrowing;
mod picking;
mod starting;

pub use altering::{alter, submit};
pub use asking::{get, holds_of, is_live};
pub use clearing::{clear, clear_named};
pub use deleting::{delete, delete_named};
pub use ending::{end, remove};
pub use finding::{find_running, is_running};
pub use ge_model_jobs::After;
pub use holding::{eligible, free_tasks, held_tasks};
pub use holds::{hold, release, set_hold};
pub use narrowing::narrowed;
pub use picking::{NamedTasks, joined};
pub use starting::start;
