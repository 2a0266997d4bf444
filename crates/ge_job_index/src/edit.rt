// Edits of a row in place.
ghost use Rattle.std.specs.Prelude.{◌≡◌, ◌+◌, ℕ, false, List, [], IfOk, OnOk, OnErr};
ghost use Rattle.ge_job_index.specs.Marked.{times};

use crate::row::Row;
use std::alloc::{AllocError, Global};

/// An edit of one row, made where the row lies. It tells which marks the row loses and gains by it, so that an index
/// notes the difference and never reads the whole row. An edit that changes no mark gives two vectors of none, which
/// take no memory.
pub trait Edit<V: Row> {
    /// The row after the edit.
    ghost edited: { Self → V → V };

    /// The marks that the row loses. One that it bore twice and bears once is lost once.
    ghost lost: { Self → V → List V.Mark } = { λ _ _. [] };

    /// The marks that the row gains.
    ghost gained: { Self → V → List V.Mark } = { λ _ _. [] };

    /// The marks that the row loses.
    fn lost(&self, alloc: Global, row: &V) -> Result<Vec<V::Mark>, AllocError>
        ensures { IfOk result (λ list. list.items ≡ lost self.now row.now) };

    /// The marks that the row gains.
    fn gained(&self, alloc: Global, row: &V) -> Result<Vec<V::Mark>, AllocError>
        ensures { IfOk result (λ list. list.items ≡ gained self.now row.now) };

    /// Whether the row's labels may be others after the edit. Where it is false the index never asks for them.
    fn relabels(&self, _row: &V) -> bool
        ensures { result ≡ false → V.labels (edited self.now _row.now) ≡ V.labels _row.now }
    {
        true
    }

    /// Makes the edit. What the row bears afterwards and what it lost is what it bore and what it gained.
    fn edit(&self, row: &mut V)
        ensures edited { row.new ≡ edited self.now row.old }
        ensures moves { (mark : V.Mark) → times V.Mark.cmp mark (V.marks row.new)
            + times V.Mark.cmp mark (lost self.now row.old)
            ≡ times V.Mark.cmp mark (V.marks row.old)
            + times V.Mark.cmp mark (gained self.now row.old) };
}

/// An edit of one row, made where the row lies, which may want memory and then leaves the row as it was. It tells which
/// marks the row loses and gains, as an [`Edit`] does.
pub trait TryEdit<V: Row> {
    /// The row after the edit.
    ghost edited: { Self → V → V };

    /// The marks that the row loses.
    ghost lost: { Self → V → List V.Mark } = { λ _ _. [] };

    /// The marks that the row gains.
    ghost gained: { Self → V → List V.Mark } = { λ _ _. [] };

    /// The marks that the row loses.
    fn lost(&self, alloc: Global, row: &V) -> Result<Vec<V::Mark>, AllocError>
        ensures { IfOk result (λ list. list.items ≡ lost self.now row.now) };

    /// The marks that the row gains.
    fn gained(&self, alloc: Global, row: &V) -> Result<Vec<V::Mark>, AllocError>
        ensures { IfOk result (λ list. list.items ≡ gained self.now row.now) };

    /// Whether the row's labels may be others after the edit. Where it is false the index never asks for them.
    fn relabels(&self, _row: &V) -> bool
        ensures { result ≡ false → V.labels (edited self.now _row.now) ≡ V.labels _row.now }
    {
        true
    }

    /// Makes the edit, or none.
    fn try_edit(&self, alloc: Global, row: &mut V) -> Result<(), AllocError>
        ensures ok { OnOk result (row.new ≡ edited self.now row.old) }
        ensures moves { OnOk result ((mark : V.Mark) → times V.Mark.cmp mark (V.marks row.new)
            + times V.Mark.cmp mark (lost self.now row.old)
            ≡ times V.Mark.cmp mark (V.marks row.old)
            + times V.Mark.cmp mark (gained self.now row.old)) }
        ensures err { OnErr result (row.new ≡ row.old) };
}
