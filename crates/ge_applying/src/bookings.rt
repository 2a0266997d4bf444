// Advance reservations that are booked and given up: qrsub, qrdel.
ghost use Rattle.std.specs.Prelude.{◌≡◌, OnOk, fold};
ghost use Rattle.ge_collections.specs.Keyed.{drop_number};
ghost use Rattle.ge_model_jobs.specs.Applying.{with_booked, without_booked};

use ge_rows::{Advance, Cluster, Table, Twin};
use std::alloc::{AllocError, Global};

/// A reservation stands under the next number.
pub(crate) fn book(alloc: Global, c: &mut Cluster, advance: &Advance) -> Result<(), AllocError>
    ensures { OnOk result (c.new ≡ with_booked c.old advance.now) }
{
    let copy = advance.twin(alloc)?;
    let _before = c.advances.insert(c.next_advance, copy)?;
    c.next_advance = c.next_advance.saturating_add(1);
    Ok(())
}

/// The reservations of some numbers go.
pub(crate) fn give_up(advances: &mut Table<u32, Advance>, numbers: &[u32])
    ensures { advances.new ≡ fold drop_number advances.old numbers.now }
{
    for number in numbers {
        let _advance = advances.remove(number);
    }
}

/// Reservations are given up.
pub(crate) fn unbook(c: &mut Cluster, numbers: &[u32])
    ensures { c.new ≡ without_booked c.old numbers.now }
{
    give_up(&mut c.advances, numbers);
}
