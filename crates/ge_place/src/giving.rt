//! Slots that are given site by site.
ghost use Rattle.std.specs.Prelude.{◌≡◌, ℕ, ◌+◌, ◌^◌, ◌<◌, ◌≤◌, ◌==◌, IfOk, OnOk};
ghost use Rattle.ge_model_place.specs.Placement.{filled, is_on, slots_given};
ghost use Rattle.ge_place.specs.Giving.{IsGiven};
ghost use Rattle.ge_place.specs.Spots.{cells_with, no_slots_at, is_in, IsOn, IsSited};

use crate::asking::takes_next;
use crate::filling::{fill, place_on};
use crate::seeing::Spot;
use crate::spots::{HostSpots, Site};
use crate::sums::Sums;
use ge_rows::List;
use std::alloc::{AllocError, Global};

/// The slots that were given so far.
#[derive(Drop)]
pub(crate) struct Given {
    /// How many at each instance.
    pub(crate) slots: List<u32>,
    /// What they ask of each limit.
    pub(crate) sums: Sums,
    /// How many in all.
    pub(crate) count: u32,
}

fn no_slots(alloc: Global, spots: &[Spot<'_>]) -> Result<List<u32>, AllocError>
    ensures { IfOk result (λ slots. slots ≡ no_slots_at spots.now) }
{
    let slots = vec![in alloc; 0u32; spots.len()]?;
    Ok(List::from_vec(slots))
}

/// Nothing is given yet.
pub(crate) fn nothing_given(alloc: Global, spots: &[Spot<'_>]) -> Result<Given, AllocError>
    ensures slots { IfOk result (λ given. given.slots ≡ no_slots_at spots.now) }
    ensures kept { IfOk result (λ given. IsGiven spots.now given) }
    ensures none { IfOk result (λ given. given.count ≡ 0) }
{
    let slots = no_slots(alloc, spots)?;
    Ok(Given {
        slots,
        sums: Sums::new(alloc),
        count: 0,
    })
}

/// So many more slots at the instances of a site, or as many as they take.
pub(crate) fn give_more(
    alloc: Global,
    spots: &mut Vec<Spot<'_>>,
    site: Site<'_>,
    most: u32,
    given: &mut Given,
) -> Result<(), AllocError>
    requires sited { IsSited site spots.old.items }
    requires kept { IsGiven spots.old.items given.old }
    requires fits { given.old.count + most < 2 ^ 32 }
    ensures same_spots { OnOk result (spots.new.items ≡ spots.old.items) }
    ensures filled { OnOk result (cells_with spots.old.items given.new.slots
        ≡ filled (is_in site.entry) most (cells_with spots.old.items given.old.slots)) }
    ensures kept { OnOk result (IsGiven spots.old.items given.new) }
    ensures grown { OnOk result (given.old.count ≤ given.new.count) }
    ensures within { OnOk result (given.new.count ≤ given.old.count + most) }
    ensures same { OnOk result
        (given.new.count ≡ given.old.count → given.new.slots ≡ given.old.slots) }
{
    let none = Sums::new(alloc);
    let (slots, sums) = (&mut given.slots, &mut given.sums);
    let more = fill(alloc, spots, site, most, slots, &none, sums)?;
    given.count += more;
    Ok(())
}

/// How many more slots the instances of a host take, up to so many. None is given, so what the last one asks isn't added.
pub(crate) fn count_on(
    alloc: Global,
    spots: &mut Vec<Spot<'_>>,
    host: &HostSpots<'_>,
    most: u32,
    given: &Given,
) -> Result<u32, AllocError>
    requires on { IsOn spots.old.items host.now }
    requires kept { IsGiven spots.old.items given.now }
    ensures same_spots { OnOk result (spots.new.items ≡ spots.old.items) }
    ensures counted { IfOk result (λ count. slots_given (filled (is_on host.now.host.now) most
        (cells_with spots.old.items given.now.slots)) ≡ given.now.count + count) }
{
    let mut since = Sums::new(alloc);
    let mut count = 0;
    let mut index = 0;
    while count < most {
        let Some(place) = place_on(host, index) else {
            return Ok(count);
        };
        let left = most - count;
        let taken = takes_next(alloc, &given.sums, &mut since, &mut spots[place], left)?;
        if taken {
            count += 1;
        } else {
            index += 1;
        }
    }
    Ok(count)
}

/// Whether the instances of a host take so many more slots. None is given.
pub(crate) fn takes_block(
    alloc: Global,
    spots: &mut Vec<Spot<'_>>,
    host: &HostSpots<'_>,
    size: u32,
    given: &Given,
) -> Result<bool, AllocError>
    requires on { IsOn spots.old.items host.now }
    requires kept { IsGiven spots.old.items given.now }
    ensures same_spots { OnOk result (spots.new.items ≡ spots.old.items) }
    ensures takes { IfOk result (λ takes. takes
        ≡ (slots_given (filled (is_on host.now.host.now) size
        (cells_with spots.old.items given.now.slots))
        == slots_given (cells_with spots.old.items given.now.slots) + size)) }
{
    let count = count_on(alloc, spots, host, size, given)?;
    Ok(count == size)
}
