//! The rows: everything that the cluster keeps, that a command says, that a run decides and that the spool holds,
//! as plain records and enums over [`Text`], [`List`], [`Table`] and [`Index`].
//!
//! - `values`: values, their kinds, the rows of the complex table.
//! - `hosts`, `queues`, `quotas`, `people`, `settings`: what `qconf` configures.
//! - `tasks`, `jobs`, `accounts`: jobs, their tasks and sets of tasks, accounting lines.
//! - `job_row`: a job as the table of jobs keeps it, and that table.
//! - `marks`, `labels`, `asked`, `job_rows`: what the table of jobs keeps of them beside them.
//! - `cluster`: all of these together.
//! - `scheduling`: limits, bookings and the decisions of a run.
//! - `entries`: what an accepted command changes; `own`: a value in memory of its own.
//! - `events`, `commands`: what comes in, as it is read, and the replies.
//!
//! All fields are public but those of [`TaskSet`], whose spans keep one form, and of [`JobRow`] and [`Own`]. An empty text in place of a
//! project or of a parallel environment means none. Amounts are whole numbers: seconds, bytes, or millionths of
//! a DOUBLE. Rows with many parts have a `Drop` of their own, so their parts are given by `into_parts`.
#![tactic(auto)]

mod accounts;
mod asked;
mod cluster;
mod commands;
mod entries;
mod events;
mod hosts;
mod job_row;
mod job_rows;
mod jobs;
mod labels;
mod marks;
mod own;
mod people;
mod planned;
mod queues;
mod quotas;
mod scheduling;
mod settings;
mod tasks;
mod values;

pub use accounts::Line;
pub use asked::{amount_in, is_time, is_time_of};
pub use cluster::Cluster;
pub use commands::{Command, Listing, Options, Query};
pub use entries::{Change, Entry, Item, Key, ObjectKind, Patch, Pick};
pub use events::{Event, Form, Reply};
pub use ge_collections::{List, Table, Text, Twin, twins2, twins3, twins4};
pub use ge_job_index::{Edit, Index, Row, ShortRow, Shorts, TryEdit};
pub use hosts::{Groups, HostRow, InstanceId};
pub use job_row::{InRow, JobRow, JobTable, job_at};
pub use job_rows::task_marks;
pub use jobs::{Advance, Grant, Job, PeRequest, Request, Running};
pub use labels::{JobFacts, JobKind, JobLabel};
pub use marks::{JobMark, MarkSort};
pub use own::Own;
pub use people::{ProjectRow, ShareNode, UserRow};
pub use planned::Planned;
pub use queues::{Allocation, Attr, PeRow, QueueRow, UrgencySlots};
pub use quotas::{Filter, QuotaRow, Rule};
pub use scheduling::{Booking, Decision, Demand, LimitId, Prio, QuotaKey, Reservation, Start};
pub use settings::{Sched, SortMethod};
pub use tasks::{TaskId, TaskSet, TaskSpan};
pub use values::{ComplexDef, Consumable, INFINITY, Kind, Relop, Requestable, Value};
