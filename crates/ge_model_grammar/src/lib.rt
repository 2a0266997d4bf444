//! The grammar of scripts, commands and bodies, and the script that is made up from a number.
//!
//! Definitions, and the types that they share with code: forms of words, and the lines of bodies as they are read.
//!
//! - `Names`, `Header`, `ScriptLines`, `Sources`, `Events`: what a recorded script stands for: its lines, its requests and their events.
//! - `Lines`, `Forms`, `Shapes`, `Options`: lines and their words, what a word of an option must be, the table of options, what they give.
//! - `Targets`, `Configuring`, `Commands`, `Parsing`: jobs and tasks that are named, the forms of qconf, the command that a text is,
//!   and what it is answered with.
//! - `Attributes`, `Rules`, `Bodies`: the attributes of each body, the lines of a rule set, and the body that a text is.
//! - `Generated`: the script that is made up from a number, to try the whole system on large inputs.
#![tactic(auto)]

use ge_rows::{Filter, List, Text};

/// What a word of an option must be.
#[derive(Clone, Copy, PartialEq, Eq)]
pub enum WordForm {
    /// A job name.
    JobName,
    /// Attributes asked for, `name=value` or `name`, joined by commas.
    Asked,
    /// Patterns of queues, of hosts or of both, joined by commas.
    Queues,
    /// A name.
    Name,
    /// `n`, `n-m`, `-m` or `n-`.
    Slots,
    /// `n`, `n-m` or `n-m:s`.
    Tasks,
    /// Job numbers or patterns of job names, joined by commas.
    Jobs,
    /// Digits, perhaps behind a `-`.
    Signed,
    /// Digits.
    Digits,
    /// `y`, `yes`, `n` or `no`.
    Answer,
    /// The bytes of a job name.
    Account,
    /// Any word.
    Any,
}

/// What an option counts for.
#[derive(Clone, Copy, PartialEq, Eq)]
pub enum Effect {
    /// The last one given counts.
    Replaces,
    /// The words of all that are given count, in their order.
    Adds,
    /// It is read without effect.
    Idle,
}

/// A line of a rule set, as it is written (sge_resource_quota).
#[derive(Drop)]
pub struct RuleLine {
    /// The rule's name, or empty.
    pub name: Text,
    /// By user.
    pub users: Option<Filter>,
    /// By project.
    pub projects: Option<Filter>,
    /// By parallel environment.
    pub pes: Option<Filter>,
    /// By queue.
    pub queues: Option<Filter>,
    /// By host.
    pub hosts: Option<Filter>,
    /// Each resource and its limit.
    pub limits: List<(Text, Text)>,
}

/// A node of the share tree, its five values as they are written (share_tree).
#[derive(Drop)]
pub struct NodeLines {
    /// What stands behind `id=`.
    pub id: Text,
    /// What stands behind `name=`.
    pub name: Text,
    /// What stands behind `type=`.
    pub sort: Text,
    /// What stands behind `shares=`.
    pub shares: Text,
    /// What stands behind `childnodes=`.
    pub children: Text,
}

/// The eight words of a complex, as they are written (complex).
#[derive(Drop)]
pub struct ComplexLine {
    /// Its name.
    pub name: Text,
    /// Its shortcut.
    pub shortcut: Text,
    /// The column type.
    pub kind: Text,
    /// The column relop.
    pub relop: Text,
    /// The column requestable.
    pub requestable: Text,
    /// The column consumable.
    pub consumable: Text,
    /// The column default.
    pub fallback: Text,
    /// The column urgency.
    pub urgency: Text,
}

/// The body of a qconf command, cut into its lines and read without a look at the cluster.
#[derive(Drop)]
pub enum Body {
    /// Attributes, each with its value.
    Attributes(List<(Text, Text)>),
    /// A rule set: its attributes, and its rules.
    RuleSet(List<(Text, Text)>, List<RuleLine>),
    /// The nodes of the share tree.
    Nodes(List<NodeLines>),
    /// Rows of the table of complexes.
    ComplexRows(List<ComplexLine>),
}
