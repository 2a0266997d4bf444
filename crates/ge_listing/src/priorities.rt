//! Priorities.

ghost use Rattle.std.specs.Prelude.{◌≡◌, ◌++◌, ◌∷◌, ◌/◌, [], IfOk, OnOk, fold, map};
ghost use Rattle.std.specs.Map.{values_of};
ghost use Rattle.ge_model_order.specs.Priority.{rank_of, sorted_prios, with_rank};
ghost use Rattle.ge_model_report.specs.Listing.{prio_line, prios_listing};

use ge_printing::{Column, join_columns};
use ge_rows::{List, Prio, Text};
use std::alloc::{AllocError, Global};
use std::cmp::Reverse;
use std::collections::BTreeMap;

/// The units of a priority's sum, 10^-12, in a millionth.
const UNITS: u128 = 1_000_000;

/// Where a priority stands: by its sum falling, then by the job's number.
type Rank = (Reverse<u128>, u32);

fn rank(prio: &Prio) -> Rank
    ensures { result ≡ rank_of prio.now }
{
    (Reverse(prio.total), prio.job)
}

fn put(rows: &mut BTreeMap<Rank, Prio>, prio: &Prio) -> Result<(), AllocError>
    ensures { OnOk result (rows.new.entries ≡ with_rank rows.old.entries prio.now) }
{
    rows.insert(rank(prio), *prio)?;
    Ok(())
}

fn ranked(alloc: Global, prios: &[Prio]) -> Result<BTreeMap<Rank, Prio>, AllocError>
    ensures { IfOk result (λ rows. rows.entries ≡ fold with_rank [] prios.now) }
{
    let mut rows = BTreeMap::new(alloc);
    for prio in prios {
        put(&mut rows, prio)?;
    }
    Ok(rows)
}

fn line_of(alloc: Global, prio: &Prio) -> Result<Text, AllocError>
    ensures { IfOk result (λ line. line ≡ prio_line prio.now) }
{
    let columns = [
        Column::Number(u128::from(prio.job)),
        Column::Fixed(u128::from(prio.np)),
        Column::Fixed(u128::from(prio.nu)),
        Column::Fixed(u128::from(prio.nt)),
        Column::Fixed(prio.total / UNITS),
    ];
    join_columns(alloc, &columns)
}

/// The priorities of jobs in the order of a run, `qstat -pri`: see the manual pages qstat and sge_priority.
///
/// The greatest comes first, and of equal ones the least job. The columns are the job's number, the three parts from
/// `-p`, from urgency and from tickets, and their weighted sum, each with six decimals, the sum rounded down.
pub fn list_priorities(alloc: Global, prios: &[Prio]) -> Result<List<Text>, AllocError>
    ensures { IfOk result (λ lines. lines ≡ prios_listing prios.now) }
{
    let rows = ranked(alloc, prios)?;
    let mut lines = List::new(alloc);
    for prio in rows.values() {
        lines.push(line_of(alloc, prio)?)?;
    }
    Ok(lines)
}
