// Priorities in their order. Of a job whose priority is that of the one before, its number alone is kept.
ghost use Rattle.std.specs.Prelude.{◌≡◌, ◌≤◌, ◌++◌, length, IfOk, OnOk};
ghost use Rattle.ge_order.specs.Alike as alike;
ghost use Rattle.ge_order.specs.Alike.{prios_in, prios_of_lot};

use ge_rows::{List, Prio};
use std::alloc::{AllocError, Global};
use std::marker::Model;

/// The priority of a job, and the numbers of those behind it that have the same.
#[derive(Drop)]
pub(crate) struct Lot {
    /// The first priority.
    pub first: Prio,
    /// The numbers of the other jobs.
    pub others: Vec<u32>,
}

impl Lot {
    /// How many jobs there are, as far as they can be counted.
    pub(crate) fn len(&self) -> usize
        ensures { result ≤ length (prios_of_lot self.now) }
    {
        self.others.len().saturating_add(1)
    }
}

/// Priorities of jobs in their order, as a run stands on. Jobs that are alike take a few bytes each. Contracts see the list of
/// the priorities.
#[derive(Drop)]
pub struct Prios {
    lots: Vec<Lot>,
}

impl Model for Prios {
    ghost use Rattle.std.specs.Prelude.{List};
    ghost use Rattle.ge_model_rows.specs.ScheduleRows.{Prio};
    ghost use Rattle.ge_order.specs.Alike.{prios_in};

    ghost Value = { List Prio };

    ghost view = { λ p. prios_in p.lots.items };
}

/// The same priority of another job.
pub(crate) fn prio_at(first: &Prio, number: u32) -> Prio
    ensures { result ≡ alike.prio_at first.now number }
{
    Prio {
        job: number,
        np: first.np,
        nu: first.nu,
        nt: first.nt,
        total: first.total,
    }
}

// The priorities of a lot, at the end of a list.
fn append_lot(list: &mut Vec<Prio>, lot: &Lot) -> Result<(), AllocError>
    ensures { OnOk result (list.new.items ≡ list.old.items ++ prios_of_lot lot.now) }
{
    list.push(lot.first)?;
    for number in lot.others.iter() {
        list.push(prio_at(&lot.first, *number))?;
    }
    Ok(())
}

// A lot of one job for each priority.
fn lots_of_one(alloc: Global, list: &[Prio]) -> Result<Vec<Lot>, AllocError>
    ensures { IfOk result (λ lots. prios_in lots.items ≡ list.now) }
{
    let mut lots = Vec::with_capacity(alloc, list.len())?;
    for prio in list {
        lots.push(Lot {
            first: *prio,
            others: Vec::new(alloc),
        })?;
    }
    Ok(lots)
}

impl Prios {
    /// The priorities of these lots.
    pub(crate) fn of_lots(lots: Vec<Lot>) -> Prios
        ensures { result ≡ prios_in lots.items }
    {
        Prios { lots }
    }

    /// The lots.
    pub(crate) fn lots(&self) -> &[Lot]
        ensures { prios_in result.now ≡ self.now }
    {
        self.lots.as_slice()
    }

    /// How many priorities there are, as far as they can be counted.
    pub(crate) fn len(&self) -> usize
        ensures { result ≤ length self.now }
    {
        let lots = self.lots();
        let mut len = 0_usize;
        for lot in lots {
            len = len.saturating_add(lot.len());
        }
        len
    }

    /// These priorities.
    ///
    /// # Errors
    ///
    /// Where there is no memory for them.
    pub fn from_list(alloc: Global, list: &List<Prio>) -> Result<Prios, AllocError>
        ensures { IfOk result (λ prios. prios ≡ list.now) }
    {
        let lots = lots_of_one(alloc, list.items())?;
        Ok(Prios { lots })
    }

    /// The priorities one by one.
    ///
    /// # Errors
    ///
    /// Where there is no memory for them.
    pub fn list(&self, alloc: Global) -> Result<List<Prio>, AllocError>
        ensures { IfOk result (λ list. list ≡ self.now) }
    {
        let lots = self.lots();
        let mut list = Vec::with_capacity(alloc, self.len())?;
        for lot in lots {
            append_lot(&mut list, lot)?;
        }
        Ok(List::from_vec(list))
    }
}
