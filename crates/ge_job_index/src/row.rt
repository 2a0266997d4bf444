// What an index keeps of its rows.
ghost use Rattle.std.specs.Prelude.{◌≡◌, ℕ, List, [], IfOk};
ghost use Rattle.ge_job_index.specs.Marked.{is_among};

use ge_collections::Twin;
use std::alloc::{AllocError, Global};

/// A row of an index. Beside its rows an index keeps the sums of their weights and a ledger of their marks, so that no
/// question about either walks the rows.
///
/// Where `keeps_short` is true it also keeps a short row of each row: its facts, and in place of its three labels a number
/// each, so that a walk over all rows reads neither the rows nor a text.
///
/// A type of which nothing is asked weighs nothing and has no mark, no fact and no label: these are of the type `()`.
pub trait Row: Sized {
    /// What a row can be found by, as its owner's name or the number of a task that it runs.
    type Mark: Ord + Twin + Drop;

    /// What is read of many rows at once, in a few words that are copied.
    type Facts: Copy;

    /// What rows have in common, as their owner's name. An index gives each label a number of its own.
    type Label: Ord + Twin + Drop;

    /// What the row adds to each of the index's two sums.
    ghost weights: { Self → ℕ × ℕ } = { λ _. (0, 0) };

    /// The marks that the row bears. One that stands here twice is borne twice.
    ghost marks: { Self → List Self.Mark } = { λ _. [] };

    /// The facts of the row.
    ghost short: { Self → Self.Facts };

    /// The three labels of the row.
    ghost labels: { Self → Self.Label × Self.Label × Self.Label };

    /// What holds of each row by the invariants of its own type.
    ghost IsOrderly: { Self → Type 0 } = { λ _. Unit {0} };

    /// What the row adds to each of the index's two sums. It is asked before and after each edit, so it takes constant time.
    fn weights(&self) -> (u128, u128)
        ensures { result ≡ weights self.now };

    /// Whether the row bears a mark.
    fn bears(&self, mark: &Self::Mark) -> bool
        ensures { result ≡ is_among Self.Mark.cmp mark.now (marks self.now) };

    /// The marks that the row bears. They are asked where the row comes into an index and where it goes.
    fn marks(&self, alloc: Global) -> Result<Vec<Self::Mark>, AllocError>
        ensures { IfOk result (λ list. list.items ≡ marks self.now) };

    /// Whether an index of such rows keeps short rows. Where it is false, the index pays nothing for them.
    fn keeps_short() -> bool;

    /// The facts of the row. They are asked after each edit, so they take constant time.
    fn short(&self) -> Self::Facts
        ensures { result ≡ short self.now };

    /// The labels of the row. They are asked where the row comes into an index, and after an edit that may change them.
    fn labels(&self, alloc: Global) -> Result<(Self::Label, Self::Label, Self::Label), AllocError>
        ensures { IfOk result (λ three. three ≡ labels self.now) };

    /// Does nothing. Its clause tells what the row's own types keep, which an index then tells of all its rows.
    fn orderly(&self)
        ensures { IsOrderly self.now };
}
