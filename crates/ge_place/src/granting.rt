//! Grants of the slots that were given.
ghost use Rattle.std.specs.Prelude.{◌≡◌, ◌++◌, [], ◌∷◌, length, filter_map, IfOk, OnOk};
ghost use Rattle.ge_model_place.specs.Placement as placed;
ghost use Rattle.ge_place.specs.Giving.{IsGiven};
ghost use Rattle.ge_place.specs.Spots.{cell_with, cells_with};

use crate::giving::Given;
use crate::seeing::Spot;
use ge_rows::{Grant, List, Twin};
use std::alloc::{AllocError, Global};

// What an instance was given is granted; nothing is no grant.
fn add_grant(
    alloc: Global,
    grants: &mut List<Grant>,
    spot: &Spot<'_>,
    slots: u32,
) -> Result<(), AllocError>
    ensures { OnOk result (grants.new
        ≡ grants.old ++ filter_map placed.grant_of (cell_with spot.now slots ∷ [])) }
{
    if slots == 0 {
        return Ok(());
    }
    let at = spot.instance().twin(alloc)?;
    grants.push(Grant { at, slots })
}

fn grants_of(alloc: Global, spots: &[Spot<'_>], slots: &[u32]) -> Result<List<Grant>, AllocError>
    requires { length slots.now ≡ length spots.now }
    ensures { IfOk result (λ grants. grants
        ≡ filter_map placed.grant_of (cells_with spots.now slots.now)) }
{
    let mut grants = List::new(alloc);
    for (place, spot) in spots.iter().enumerate() {
        add_grant(alloc, &mut grants, spot, slots[place])?;
    }
    Ok(grants)
}

/// The grants, where at least so many slots were given, and one.
pub(crate) fn granted(
    alloc: Global,
    spots: &[Spot<'_>],
    given: &Given,
    low: u32,
) -> Result<Option<List<Grant>>, AllocError>
    requires { IsGiven spots.now given.now }
    ensures { IfOk result (λ grants. grants
        ≡ placed.granted low (cells_with spots.now given.now.slots)) }
{
    if given.count < low.max(1) {
        return Ok(None);
    }
    let grants = grants_of(alloc, spots, given.slots.items())?;
    Ok(Some(grants))
}
