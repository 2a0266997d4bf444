//! An execution daemon without a machine and without a network: what it is to do after the master's reply to `orders`, which
//! ends of tasks it keeps, and what it reports of them.
//!
//! - [`Daemon`]: its host, the greatest serial that was named to it, and what it keeps of serials.
//! - [`Daemon::orders`]: a reply to `orders` is obeyed: [`Work`] is to be done, or a [`WorkFault`] says why not.
//! - [`Order`], [`OrderLine`]: a task that is to run, and a line of orders.
//! - [`Daemon::ended`], [`Daemon::report`], [`Daemon::answered`]: the task of a serial ends, the end is reported until the
//!   master has answered, and then it is forgotten. [`can_end`]: the numbers that an end can have; [`end_line`]: its report.
//!
//! A serial is the number of a dispatch: a task that is started again has a new one. `specs/Orders` has the lines of orders,
//! `specs/Daemons` what a daemon does, `specs/Shows` the forms of results that calls promise, `specs/Bytes` a daemon's
//! bytes.
#![tactic(auto)]

mod canonical;
mod daemon;
mod obeying;
mod reading;
mod rows;

pub use daemon::{Daemon, can_end, end_line};
pub use rows::{Order, OrderLine, Stage, Work, WorkFault};
