//! Whose job it is.

use ge_commands::WideRange;
use ge_rows::{Request, Text};

/// Whose job it is: its owner and the owner's group, its range of tasks and what it asked for so far. `specs/Held` says what
/// contracts see.
#[derive(Clone, Copy)]
pub struct Holder<'a> {
    /// The owner.
    pub who: &'a Text,
    /// The owner's group.
    pub team: &'a Text,
    /// The range of tasks.
    pub tasks: WideRange,
    /// What it asked for so far.
    pub older: &'a Request,
}
