// What an edit changes of a row, as an index notes it.
ghost use Rattle.std.specs.Prelude.{◌≡◌, ◌+◌, ℕ, false, IfSome, IfOk, OnOk, OnErr};
ghost use Rattle.ge_job_index.specs.Marked.{times};

use crate::edit::{Edit, TryEdit};
use crate::row::Row;
use std::alloc::{AllocError, Global};

/// The marks that a row loses and gains.
#[derive(Drop)]
pub(crate) struct Marks<M> {
    pub(crate) lost: Vec<M>,
    pub(crate) gained: Vec<M>,
}

/// The weights before and after an edit, the marks that move, where there was memory for them, and whether the row's
/// labels may have changed.
#[derive(Drop)]
pub(crate) struct Moved<M> {
    pub(crate) before: (u128, u128),
    pub(crate) after: (u128, u128),
    pub(crate) marks: Option<Marks<M>>,
    pub(crate) relabels: bool,
}

// The marks that an edit moves.
fn marks_of<V: Row, E: Edit<V>>(alloc: Global, edit: &E, row: &V) -> Option<Marks<V::Mark>>
    ensures lost { IfSome result (λ marks. marks.lost.items ≡ E.lost edit.now row.now) }
    ensures gained { IfSome result (λ marks. marks.gained.items ≡ E.gained edit.now row.now) }
{
    let Ok(lost) = edit.lost(alloc, row) else {
        return None;
    };
    let Ok(gained) = edit.gained(alloc, row) else {
        return None;
    };
    Some(Marks { lost, gained })
}

/// Makes an edit, and tells what it changes.
pub(crate) fn make<V: Row, E: Edit<V>>(alloc: Global, edit: &E, row: &mut V) -> Moved<V::Mark>
    ensures edited { row.new ≡ E.edited edit.now row.old }
    ensures before { result.before ≡ V.weights row.old }
    ensures after { result.after ≡ V.weights row.new }
    ensures marks { IfSome result.marks (λ marks. (mark : V.Mark)
        → times V.Mark.cmp mark (V.marks row.new) + times V.Mark.cmp mark marks.lost.items
        ≡ times V.Mark.cmp mark (V.marks row.old) + times V.Mark.cmp mark marks.gained.items) }
    ensures labels { result.relabels ≡ false → V.labels row.new ≡ V.labels row.old }
    ensures orderly { V.IsOrderly row.new }
{
    let before = row.weights();
    let relabels = edit.relabels(row);
    let marks = marks_of(alloc, edit, row);
    edit.edit(row);
    row.orderly();
    Moved {
        before,
        after: row.weights(),
        marks,
        relabels,
    }
}

// The marks that an edit that may want memory moves.
fn try_marks_of<V: Row, E: TryEdit<V>>(alloc: Global, edit: &E, row: &V) -> Option<Marks<V::Mark>>
    ensures lost { IfSome result (λ marks. marks.lost.items ≡ E.lost edit.now row.now) }
    ensures gained { IfSome result (λ marks. marks.gained.items ≡ E.gained edit.now row.now) }
{
    let Ok(lost) = edit.lost(alloc, row) else {
        return None;
    };
    let Ok(gained) = edit.gained(alloc, row) else {
        return None;
    };
    Some(Marks { lost, gained })
}

/// Makes an edit that may want memory, and tells what it changes.
pub(crate) fn try_make<V: Row, E: TryEdit<V>>(
    alloc: Global,
    edit: &E,
    row: &mut V,
) -> Result<Moved<V::Mark>, AllocError>
    ensures edited { OnOk result (row.new ≡ E.edited edit.now row.old) }
    ensures before { IfOk result (λ moved. moved.before ≡ V.weights row.old) }
    ensures after { IfOk result (λ moved. moved.after ≡ V.weights row.new) }
    ensures marks { IfOk result (λ moved. IfSome moved.marks (λ marks. (mark : V.Mark)
        → times V.Mark.cmp mark (V.marks row.new) + times V.Mark.cmp mark marks.lost.items
        ≡ times V.Mark.cmp mark (V.marks row.old) + times V.Mark.cmp mark marks.gained.items)) }
    ensures labels { IfOk result (λ moved. moved.relabels ≡ false → V.labels row.new ≡ V.labels row.old) }
    ensures orderly { OnOk result (V.IsOrderly row.new) }
    ensures err { OnErr result (row.new ≡ row.old) }
{
    let before = row.weights();
    let relabels = edit.relabels(row);
    let marks = try_marks_of(alloc, edit, row);
    match edit.try_edit(alloc, row) {
        Ok(()) => {
            row.orderly();
            Ok(Moved {
                before,
                after: row.weights(),
                marks,
                relabels,
            })
        }
        Err(want) => Err(want),
    }
}
