//! The rows by subject and what their values are: values and their texts, sets of task numbers, what is configured as it is looked up.
//!
//! Definitions alone, without code, and the types of two faults that code answers too.
//!
//! Names of the rows, each declared in `ge_rows` with its doc. A definition takes those that it speaks of from here, in a line for
//! each subject:
//!
//! - `ValueRows`: values, their kinds, relational operators, complexes.
//! - `HostRows`, `QueueRows`, `PeRows`, `QuotaRows`, `PeopleRows`, `SettingRows`: what `qconf` configures.
//! - `JobRows`, `TaskRows`, `AccountRows`: jobs, their tasks and sets of tasks, accounting lines.
//! - `ClusterRows`: all of these together, and the cluster before the first command.
//! - `ScheduleRows`, `DecisionRows`: limits, what tasks book of them, what a run decides.
//! - `EntryRows`: what an accepted request changes. `EventRows`, `CommandRows`: requests, what becomes of them, commands.
//!
//! A variant is written bare where it is taken from here, and else behind its enum, as `ObjectKind.Queue`. The variants
//! of `Requestable`, `Consumable` and `ObjectKind`, `Kind.Bool` and `UrgencySlots.Fixed` are always written so, since
//! their names mean something else beside them.
//!
//! Values: the kinds of a complex, their texts and the relational operators; the opening complexes.
//!
//! - `Faults`: refusals whose conditions hold, and the one of them that answers; `proofs/FaultLaws` says that what answers
//!   to a whole is the sooner of what answers to its parts.
//! - `Pieces`: texts cut into pieces and put together, and lists as bodies have them.
//! - `Values`: the values of texts, and the texts of values.
//! - `Relops`: whether one value stands in a relation to another.
//! - `Complexes`: the complexes of the opening cluster, and how a complex is found.
//!
//! Sets of task numbers: their spans, their texts, ranges.
//!
//! - `Spans`, `Sets`: a set as its spans in their one form, and what is asked of it and made of it, never number by number.
//! - `Ranges`: ranges as they are written, and sets of several.
//! - `SetText`: a set as text.
//!
//! Among the proofs: a set with the same numbers is the same list of spans (`Unique`); what putting in, taking out, joining, meeting and
//! differing do to the numbers (`Sets`, `Together`, `Merged`); a set's text reads back to it, and its count is that of its numbers (`Limits`).
//!
//! What is configured, as it is looked up: members of groups, queue instances, attributes, levels, access.
//!
//! - `Groups`: the hosts of a group, in first-seen order, or why it has none.
//! - `Queues`: an attribute of a queue at a host, the queue instances, and the value of a name by level.
//! - `Access`: managers, operators, and whom lists of user sets admit.
#![tactic(auto)]

use ge_collections::Text;

/// Why a text is no set of tasks.
#[derive(Clone, Copy, PartialEq, Eq)]
pub enum RangeFault {
    /// It isn't in the grammar.
    Syntax,
    /// It has more than 75,000 numbers or one above 2^31 - 1.
    Limit,
    /// Memory ran out.
    NoMemory,
}

/// Why a group has no members (hostgroup).
#[derive(Drop, PartialEq, Eq)]
pub enum GroupFault {
    /// A group that it reaches isn't there: the first of this name, depth first.
    NoSuch(Text),
    /// A group that it reaches reaches itself, and none is missing: the first that is met again, depth first.
    Cycle(Text),
}
