//! Slots spread over instances by the rule of a parallel environment (sge_pe, `allocation_rule`).
ghost use Rattle.std.specs.Prelude.{◌≡◌, ◌≤◌, length, fold, IfOk, OnOk};
ghost use Rattle.ge_model_place.specs.Placement as placed;
ghost use Rattle.ge_place.specs.Giving.{IsGiven, IsBest};
ghost use Rattle.ge_place.specs.Spots.{cells_with, no_slots_at, names_of, IsOn, AreOn};

use crate::giving::{Given, count_on, give_more, nothing_given, takes_block};
use crate::hosts::hosts_of;
use crate::seeing::Spot;
use crate::spots::{HostSpots, Site};
use ge_rows::{Allocation, List};
use std::alloc::{AllocError, Global};

// The first host that takes the most slots. Behind one that takes all of them, none is looked at.
fn fullest<'a, 'b>(
    alloc: Global,
    spots: &mut Vec<Spot<'_>>,
    hosts: &'a [HostSpots<'b>],
    high: u32,
    given: &Given,
) -> Result<Option<&'a HostSpots<'b>>, AllocError>
    requires on { AreOn spots.old.items hosts.now }
    requires kept { IsGiven spots.old.items given.now }
    requires none { given.now.count ≡ 0 }
    ensures same_spots { OnOk result (spots.new.items ≡ spots.old.items) }
    ensures best { IfOk result (λ best. IsBest high spots.old.items
        (cells_with spots.old.items given.now.slots) hosts.now best) }
{
    let mut best = None;
    let mut most = 0;
    for host in hosts {
        if most >= high {
            return Ok(best);
        }
        let count = count_on(alloc, spots, host, high, given)?;
        if count > most {
            best = Some(host);
            most = count;
        }
    }
    Ok(best)
}

// `$pe_slots`: all slots on the first host that takes the most.
fn on_one_host(
    alloc: Global,
    spots: &mut Vec<Spot<'_>>,
    hosts: &[HostSpots<'_>],
    high: u32,
    given: &mut Given,
) -> Result<(), AllocError>
    requires on { AreOn spots.old.items hosts.now }
    requires kept { IsGiven spots.old.items given.old }
    requires none { given.old.count ≡ 0 }
    ensures same_spots { OnOk result (spots.new.items ≡ spots.old.items) }
    ensures cells { OnOk result (cells_with spots.old.items given.new.slots
        ≡ fold (λ best host. placed.fuller best
        (placed.filled (placed.is_on host) high (cells_with spots.old.items given.old.slots)))
        (cells_with spots.old.items given.old.slots) (names_of hosts.now)) }
    ensures kept { OnOk result (IsGiven spots.old.items given.new) }
{
    match fullest(alloc, spots, hosts, high, given)? {
        None => Ok(()),
        Some(host) => give_more(alloc, spots, Site::Host(host), high, given),
    }
}

// A block of slots on a host, where all of them fit there and no more than the greatest number are given.
fn give_block(
    alloc: Global,
    spots: &mut Vec<Spot<'_>>,
    host: &HostSpots<'_>,
    size: u32,
    high: u32,
    given: &mut Given,
) -> Result<(), AllocError>
    requires on { IsOn spots.old.items host.now }
    requires kept { IsGiven spots.old.items given.old }
    ensures same_spots { OnOk result (spots.new.items ≡ spots.old.items) }
    ensures cells { OnOk result (cells_with spots.old.items given.new.slots
        ≡ placed.with_block size high (cells_with spots.old.items given.old.slots)
        (placed.filled (placed.is_on host.now.host.now) size
        (cells_with spots.old.items given.old.slots))) }
    ensures kept { OnOk result (IsGiven spots.old.items given.new) }
{
    let Some(count) = given.count.checked_add(size) else {
        return Ok(());
    };
    if count > high {
        return Ok(());
    }
    if !takes_block(alloc, spots, host, size, given)? {
        return Ok(());
    }
    give_more(alloc, spots, Site::Host(host), size, given)
}

// A number: so many slots on each host that takes them.
fn in_blocks(
    alloc: Global,
    spots: &mut Vec<Spot<'_>>,
    hosts: &[HostSpots<'_>],
    size: u32,
    high: u32,
    given: &mut Given,
) -> Result<(), AllocError>
    requires on { AreOn spots.old.items hosts.now }
    requires kept { IsGiven spots.old.items given.old }
    ensures same_spots { OnOk result (spots.new.items ≡ spots.old.items) }
    ensures cells { OnOk result (cells_with spots.old.items given.new.slots
        ≡ fold (λ cells host. placed.with_block size high cells
        (placed.filled (placed.is_on host) size cells))
        (cells_with spots.old.items given.old.slots) (names_of hosts.now)) }
    ensures kept { OnOk result (IsGiven spots.old.items given.new) }
{
    for host in hosts {
        give_block(alloc, spots, host, size, high, given)?;
    }
    Ok(())
}

// One slot on a host, where it takes one and the greatest number aren't given yet.
fn give_turn(
    alloc: Global,
    spots: &mut Vec<Spot<'_>>,
    host: &HostSpots<'_>,
    high: u32,
    given: &mut Given,
) -> Result<(), AllocError>
    requires on { IsOn spots.old.items host.now }
    requires kept { IsGiven spots.old.items given.old }
    ensures same_spots { OnOk result (spots.new.items ≡ spots.old.items) }
    ensures cells { OnOk result (cells_with spots.old.items given.new.slots
        ≡ placed.with_turn high (cells_with spots.old.items given.old.slots) host.now.host.now) }
    ensures kept { OnOk result (IsGiven spots.old.items given.new) }
    ensures grown { OnOk result (given.old.count ≤ given.new.count) }
    ensures same { OnOk result
        (given.new.count ≡ given.old.count → given.new.slots ≡ given.old.slots) }
{
    if given.count >= high {
        return Ok(());
    }
    give_more(alloc, spots, Site::Host(host), 1, given)
}

// One slot on each host in turn.
fn give_round(
    alloc: Global,
    spots: &mut Vec<Spot<'_>>,
    hosts: &[HostSpots<'_>],
    high: u32,
    given: &mut Given,
) -> Result<(), AllocError>
    requires on { AreOn spots.old.items hosts.now }
    requires kept { IsGiven spots.old.items given.old }
    ensures same_spots { OnOk result (spots.new.items ≡ spots.old.items) }
    ensures cells { OnOk result (cells_with spots.old.items given.new.slots
        ≡ placed.with_round high (names_of hosts.now)
        (cells_with spots.old.items given.old.slots)) }
    ensures kept { OnOk result (IsGiven spots.old.items given.new) }
    ensures same { OnOk result
        (given.new.count ≡ given.old.count → given.new.slots ≡ given.old.slots) }
{
    for host in hosts {
        give_turn(alloc, spots, host, high, given)?;
    }
    Ok(())
}

// `$round_robin`: rounds, until one gives nothing.
fn in_rounds(
    alloc: Global,
    spots: &mut Vec<Spot<'_>>,
    hosts: &[HostSpots<'_>],
    high: u32,
    given: &mut Given,
) -> Result<(), AllocError>
    requires on { AreOn spots.old.items hosts.now }
    requires kept { IsGiven spots.old.items given.old }
    ensures same_spots { OnOk result (spots.new.items ≡ spots.old.items) }
    ensures cells { OnOk result (cells_with spots.old.items given.new.slots
        ≡ placed.with_rounds high high (names_of hosts.now)
        (cells_with spots.old.items given.old.slots)) }
    ensures kept { OnOk result (IsGiven spots.old.items given.new) }
{
    let mut rounds = high;
    while rounds > 0 {
        let before = given.count;
        give_round(alloc, spots, hosts, high, given)?;
        if given.count == before {
            return Ok(());
        }
        rounds -= 1;
    }
    Ok(())
}

// At most so many slots by a rule, where nothing is given and the hosts are known.
fn spread_over(
    alloc: Global,
    spots: &mut Vec<Spot<'_>>,
    hosts: &[HostSpots<'_>],
    rule: Allocation,
    high: u32,
    given: &mut Given,
) -> Result<(), AllocError>
    requires on { AreOn spots.old.items hosts.now }
    requires hosts { names_of hosts.now
        ≡ placed.hosts_in (cells_with spots.old.items given.old.slots) }
    requires kept { IsGiven spots.old.items given.old }
    requires none { given.old.count ≡ 0 }
    ensures same_spots { OnOk result (spots.new.items ≡ spots.old.items) }
    ensures cells { OnOk result (cells_with spots.old.items given.new.slots
        ≡ placed.spread rule high (cells_with spots.old.items given.old.slots)) }
    ensures kept { OnOk result (IsGiven spots.old.items given.new) }
{
    match rule {
        Allocation::FillUp => give_more(alloc, spots, Site::Everywhere, high, given),
        Allocation::PeSlots => on_one_host(alloc, spots, hosts, high, given),
        Allocation::Fixed(size) => in_blocks(alloc, spots, hosts, size, high, given),
        Allocation::RoundRobin => in_rounds(alloc, spots, hosts, high, given),
    }
}

// The same where the hosts aren't known. `$fill_up` asks for none, so none are gathered for it.
fn spread_from(
    alloc: Global,
    spots: &mut Vec<Spot<'_>>,
    rule: Allocation,
    high: u32,
    given: &mut Given,
) -> Result<(), AllocError>
    requires slots { given.old.slots ≡ no_slots_at spots.old.items }
    requires kept { IsGiven spots.old.items given.old }
    requires none { given.old.count ≡ 0 }
    ensures same_spots { OnOk result (spots.new.items ≡ spots.old.items) }
    ensures cells { OnOk result (cells_with spots.old.items given.new.slots
        ≡ placed.spread rule high (cells_with spots.old.items given.old.slots)) }
    ensures kept { OnOk result (IsGiven spots.old.items given.new) }
{
    if let Allocation::FillUp = rule {
        return give_more(alloc, spots, Site::Everywhere, high, given);
    }
    let hosts = hosts_of(alloc, spots.as_slice())?;
    spread_over(alloc, spots, hosts.as_slice(), rule, high, given)
}

/// At most so many slots by a rule.
pub(crate) fn spread(
    alloc: Global,
    spots: &mut Vec<Spot<'_>>,
    rule: Allocation,
    high: u32,
) -> Result<Given, AllocError>
    ensures same_spots { OnOk result (spots.new.items ≡ spots.old.items) }
    ensures cells { IfOk result (λ given. cells_with spots.old.items given.slots
        ≡ placed.spread rule high (cells_with spots.old.items (no_slots_at spots.old.items))) }
    ensures kept { IfOk result (λ given. IsGiven spots.old.items given) }
{
    let mut given = nothing_given(alloc, spots.as_slice())?;
    spread_from(alloc, spots, rule, high, &mut given)?;
    Ok(given)
}
