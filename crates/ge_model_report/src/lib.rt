//! What is listed: the lines of qstat, qrstat, qacct, orders and job.
//!
//! Definitions alone, without code.
//!
//! - `Listing` leads to the forms of qstat: `JobLines`, `JobFields` (-j), `QueueLines` (-f). `Grants`: instances and grants as text.
//! - `Booked`: the lines of qrstat.
//! - `Accounting`: accounting lines and their sums. `Orders`: what a daemon asks for.
//!
//! Among the proofs: the orders of a host are those that a table gathers one by one (`OrderTexts`).
#![tactic(auto)]
