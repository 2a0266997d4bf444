//! The lists of jobs, of queue instances, of what hosts are to run, of advance reservations and of accounting lines: see the manual pages
//! qstat, qrstat, accounting and qacct.
//!
//! - [`list`]: the lines of a form of `qstat`: the jobs of owners, one job, priorities, queue instances. What running tasks and advance reservations take is
//!   summed once, and not once for each instance.
//! - [`orders`]: what a host is to run and to kill. [`task_lines`]: what a task is to run. [`booked_lines`]: advance reservations, `qrstat`.
//! - [`grants_text`], [`append_grants`]: where a task runs.
//! - [`line_text`]: an accounting line, with its 21 fields. [`account`]: what `qacct` answers. [`Sums`]: the sums of lines that come one by one.
//!
//! Lines come without line feeds. Nothing here changes the cluster, and the only fault is want of memory. A list goes once over what it lists.
//! Held tasks and free ones come from sets of spans, so a job of many tasks costs no more than one of few; a task is found by its serial, without
//! a walk over all jobs. Sums are cut at 2^128 - 1.
#![tactic(auto)]

mod booked;
mod fields;
mod forms;
mod grants;
mod hosts;
mod job_lines;
mod jobs;
mod line_fields;
mod lines;
mod priorities;
mod queries;
mod queues;
mod summing;
mod taking;
mod tasks;

pub use booked::booked_lines;
pub use forms::list;
pub use grants::{append_grants, grants_text};
pub use hosts::orders;
pub use line_fields::line_text;
pub use queries::account;
pub use summing::{Sums, no_sums, sums_text, with_line};
pub use tasks::task_lines;
