//! Plans of the commands that delete tasks, clear their errors, and hold and release jobs (qdel, qmod -cj, qhold, qrls).
//!
//! Contracts say by the definitions of `ge_model_core` what is planned: of the refusals whose conditions hold the first by its
//! code, or else what changes and the line of the reply. The one fault is want of memory. The targets of a command cost what
//! they and the jobs that they name have in size: the live tasks of a job are worked out once, however often it is named.
//!
//! - [`plan_deletion`], [`plan_clearing`]: tasks are deleted, and wait again after an error.
//! - [`plan_hold`], [`plan_release`]: hold bits are set and taken away.
//! - [`each_once`]: numbers, each once.
#![tactic(auto)]

mod asker;
mod counting;
mod deleting;
mod holding;
mod living;
mod meeting;
mod targets;

pub use deleting::{plan_clearing, plan_deletion};
pub use holding::{plan_hold, plan_release};
pub use meeting::each_once;
