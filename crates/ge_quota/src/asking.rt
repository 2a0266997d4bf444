//! Who asks, and where.

use ge_rows::Text;

/// Who asks, and where: what a rule's filters look at. Contracts see the model's `Who`.
#[derive(Clone, Copy)]
pub struct Who<'a> {
    /// The user.
    pub user: &'a Text,
    /// The user's group.
    pub group: &'a Text,
    /// The project; empty is none.
    pub project: &'a Text,
    /// The parallel environment; empty is none.
    pub pe: &'a Text,
    /// The cluster queue.
    pub queue: &'a Text,
    /// The host.
    pub host: &'a Text,
}
