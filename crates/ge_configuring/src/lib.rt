//! Plans of qconf: configured objects added, modified, deleted and shown.
//!
//! Contracts say by `ge_model_config` and `ge_model_core` what each call gives: of the refusals whose conditions hold the first by its code, or else
//! what changes and the line of the reply. The one fault is want of memory. Nothing here copies more of the cluster than the one object that a
//! command shows, or the list of managers or operators that a name joins.
//!
//! - [`plan_addition`], [`plan_modification`]: an object is put, made of the body of the command.
//! - [`plan_removal`]: one is deleted. [`plan_print`]: one is shown.
//! - Inside: whether an object is there, and whether one is used, so that it can't be deleted: by other objects, by live jobs, by tasks that run
//!   or by advance reservations. Only the mark that live jobs are asked by takes memory.
#![tactic(auto)]

mod attributes;
mod deciding;
mod enlisting;
mod finding;
mod granted;
mod jobs;
mod marked;
mod opening;
mod printing;
mod putting;
mod queues;
mod removing;
mod rules;
mod sites;
mod there;
mod using;

pub use printing::plan_print;
pub use putting::{plan_addition, plan_modification};
pub use removing::plan_removal;
