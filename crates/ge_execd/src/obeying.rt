// What follows from orders: what was seen, what is kept, what is to be started and killed.
ghost use Rattle.std.specs.Prelude.{◌≡◌, IfOk, OnOk, fold, option_copied};
ghost use Rattle.std.specs.List.{filter_map};
ghost use Rattle.ge_collections.specs.Keyed.{at_number};
ghost use Rattle.ge_execd.specs.Daemons.{seen_with, obeyed, is_claimed as is_claimed_stage, started, killed};

use crate::reading::serial_of;
use crate::rows::{Order, OrderLine, Stage};
use ge_rows::{List, Table, Twin};
use std::alloc::{AllocError, Global};

/// The greatest serial after orders.
pub(crate) fn seen_after(seen: u64, lines: &[OrderLine]) -> u64
    ensures { result ≡ fold seen_with seen lines.now }
{
    let mut most = seen;
    for line in lines {
        most = most.max(serial_of(*line));
    }
    most
}

// A serial above what was seen is claimed, or ends before it begins: with 128 and the number of the signal that would have
// killed it, as a shell tells such an end.
fn obey(seen: u64, tasks: &mut Table<u64, Stage>, line: OrderLine) -> Result<(), AllocError>
    ensures { OnOk result (tasks.new ≡ obeyed seen tasks.old line) }
{
    match line {
        OrderLine::Run(order) => {
            if seen < order.serial {
                tasks.insert(order.serial, Stage::Claimed)?;
            }
        }
        OrderLine::Kill(serial) => {
            if seen < serial {
                tasks.insert(serial, Stage::Ended(137, 0, 0, 0))?;
            }
        }
    }
    Ok(())
}

/// What is kept after orders, beside what is kept.
pub(crate) fn tasks_after(
    alloc: Global,
    seen: u64,
    tasks: &Table<u64, Stage>,
    lines: &[OrderLine],
) -> Result<Table<u64, Stage>, AllocError>
    ensures { IfOk result (λ after. after ≡ fold (obeyed seen) tasks.now lines.now) }
{
    let mut after = tasks.twin(alloc)?;
    for line in lines {
        obey(seen, &mut after, *line)?;
    }
    Ok(after)
}

// The task that an order starts.
fn start_in(seen: u64, line: OrderLine) -> Option<Order>
    ensures { result ≡ started seen line }
{
    match line {
        OrderLine::Run(order) => {
            if order.serial > seen {
                Some(order)
            } else {
                None
            }
        }
        OrderLine::Kill(_) => None,
    }
}

/// The tasks that orders start.
pub(crate) fn all_starts(
    alloc: Global,
    seen: u64,
    lines: &[OrderLine],
) -> Result<List<Order>, AllocError>
    ensures { IfOk result (λ starts. starts ≡ filter_map (started seen) lines.now) }
{
    let mut starts = List::new(alloc);
    for line in lines {
        if let Some(order) = start_in(seen, *line) {
            starts.push(order)?;
        }
    }
    Ok(starts)
}

/// Whether a stage that may not be there is claimed.
pub(crate) fn is_claimed(stage: Option<&Stage>) -> bool
    ensures { result ≡ is_claimed_stage (option_copied stage.entry) }
{
    match stage {
        Some(Stage::Claimed) => true,
        Some(Stage::Ended(_, _, _, _)) => false,
        None => false,
    }
}

// The serial that an order kills.
fn kill_in(seen: u64, tasks: &Table<u64, Stage>, line: OrderLine) -> Option<u64>
    ensures { result ≡ killed seen tasks.now line }
{
    match line {
        OrderLine::Run(_) => None,
        OrderLine::Kill(serial) => {
            if serial <= seen && is_claimed(tasks.get(&serial)) {
                Some(serial)
            } else {
                None
            }
        }
    }
}

/// The serials that orders kill.
pub(crate) fn all_kills(
    alloc: Global,
    seen: u64,
    tasks: &Table<u64, Stage>,
    lines: &[OrderLine],
) -> Result<List<u64>, AllocError>
    ensures { IfOk result (λ kills. kills ≡ filter_map (killed seen tasks.now) lines.now) }
{
    let mut kills = List::new(alloc);
    for line in lines {
        if let Some(serial) = kill_in(seen, tasks, *line) {
            kills.push(serial)?;
        }
    }
    Ok(kills)
}
