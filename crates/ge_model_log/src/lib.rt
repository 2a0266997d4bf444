//! What the bytes of the accounting log stand for, as lines: definitions, and the small type of what can be wrong.
#![tactic(auto)]

/// What is wrong with a log first, and where.
#[derive(Clone, Copy)]
pub enum Wrong {
    /// The length at this place is 0, or passes the end.
    Frame(u64),
    /// The body that begins at this place isn't whole lines.
    Bad(u64),
}
