//! Slots are given one after the other, each at the first instance that takes it.
ghost use Rattle.std.specs.Prelude.{◌≡◌, ◌+◌, ◌<◌, ◌≤◌, ◌&&◌, nat_lt, length, slice_index_or, IfOk, OnOk};
ghost use Rattle.std.specs.List.{slice_get};
ghost use Rattle.ge_model_place.specs.Placement.{filled, slots_given};
ghost use Rattle.ge_place.specs.Spots.{cells_with, one_more_at, is_in, places_of, IsSited};
ghost use Rattle.ge_place.specs.Sums.{AreTold};

use crate::asking::takes;
use crate::seeing::Spot;
use crate::spots::{HostSpots, Site};
use crate::sums::Sums;
use ge_rows::List;
use std::alloc::{AllocError, Global};

// One more slot at a place. No place has more slots than a job asks for, so a number that is too great doesn't occur.
fn give(slots: &mut List<u32>, place: usize) -> Result<(), AllocError>
    requires { place < length slots.old }
    ensures { OnOk result (slots.new ≡ one_more_at slots.old place) }
{
    match slots.items()[place].checked_add(1) {
        Some(more) => {
            let _before = slots.replace(place, more);
            Ok(())
        }
        None => Err(AllocError),
    }
}

/// The place of the instance of a host that has so many of the host's before it.
pub(crate) fn place_on(host: &HostSpots<'_>, index: usize) -> Option<usize>
    ensures { result ≡ slice_get host.now.places.items index }
{
    host.places.get(index).copied()
}

// The place of the instance of a site that has so many of the site's before it.
fn place_at(site: Site<'_>, spots: &[Spot<'_>], index: usize) -> Option<usize>
    requires { IsSited site spots.now }
    ensures { result ≡ slice_get (places_of (is_in site.entry) spots.now) index }
{
    match site {
        Site::Everywhere => (index < spots.len()).then_some(index),
        Site::Host(host) => place_on(host, index),
    }
}

/// So many more slots at the instances of a site, or as many as they take, and how many that are. What the slots before ask
/// stands in two sums, of which the second gets what is asked now. An instance that takes no slot takes none beside more, so
/// none is looked at again, and none behind the one that gets the last slot.
pub(crate) fn fill(
    alloc: Global,
    spots: &mut Vec<Spot<'_>>,
    site: Site<'_>,
    most: u32,
    slots: &mut List<u32>,
    before: &Sums,
    since: &mut Sums,
) -> Result<u32, AllocError>
    requires sited { IsSited site spots.old.items }
    requires long { length slots.old ≡ length spots.old.items }
    requires told { AreTold before.now since.old (cells_with spots.old.items slots.old) }
    ensures same { OnOk result (spots.new.items ≡ spots.old.items) }
    ensures filled { OnOk result (cells_with spots.old.items slots.new
        ≡ filled (is_in site.entry) most (cells_with spots.old.items slots.old)) }
    ensures given { IfOk result (λ given. slots_given (cells_with spots.old.items slots.new)
        ≡ slots_given (cells_with spots.old.items slots.old) + given) }
    ensures within { IfOk result (λ given. given ≤ most) }
    ensures none { IfOk result (λ given. given ≡ 0 → slots.new ≡ slots.old) }
    ensures long { OnOk result (length slots.new ≡ length spots.old.items) }
    ensures told { OnOk result (AreTold before.now since.new
        (cells_with spots.old.items slots.new)) }
{
    let mut given = 0;
    let mut index = 0;
    while given < most {
        let Some(place) = place_at(site, spots.as_slice(), index) else {
            return Ok(given);
        };
        let taken = takes(alloc, before, since, &mut spots[place])?;
        if taken {
            give(slots, place)?;
            given += 1;
        } else {
            index += 1;
        }
    }
    Ok(given)
}
