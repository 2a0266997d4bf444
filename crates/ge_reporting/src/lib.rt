//! Plans of what daemons send and ask, of accounting, and of advance reservations that are given up and shown (load, end,
//! orders, job; qconf -km; qacct; qrdel, qrstat).
//!
//! Contracts say by the definitions of `ge_model_core` what is planned: of the refusals whose conditions hold the first by its
//! code, or else what changes and the lines of the reply. The one fault is want of memory.
//!
//! - [`plan_load`], [`plan_end`]: a host reports its load, and the end of a task.
//! - [`plan_orders`], [`plan_task`]: what a host is to run and to kill, and what a task is to do. [`plan_stop`]: the master stops.
//! - [`plan_account`]: accounting lines and their sums.
//! - [`plan_unbooking`], [`plan_show_booked`]: advance reservations.
#![tactic(auto)]

mod asking;
mod booked;
mod ending;
mod joining;
mod loading;
mod stopping;

pub use asking::{plan_account, plan_orders, plan_show_booked, plan_task};
pub use booked::plan_unbooking;
pub use ending::plan_end;
pub use loading::plan_load;
pub use stopping::plan_stop;
