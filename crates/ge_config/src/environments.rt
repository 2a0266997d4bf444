//! Parallel environments: sge_pe(5).

ghost use Rattle.ge_model_config.specs.Environments.{slots_read, allocation_read, assumed_read, pe_item};
ghost use Rattle.ge_pieces.specs.Gives.{Reads};

use crate::named::{given_text, note_name};
use crate::values::{Names, Number, Reader, any_of};
use ge_base::Refusal;
use ge_commands::value_or;
use ge_limits::{PARALLEL_ENVIRONMENTS, SLOTS};
use ge_pieces::is_word;
use ge_rows::{Allocation, Cluster, Item, Kind, ObjectKind, PeRow, Text, UrgencySlots};
use std::alloc::{AllocError, Global};

// From 1 to 1,000,000 slots.
fn read_slots(alloc: Global, text: &[u8], faults: &mut Option<Refusal>) -> Result<u32, AllocError>
    ensures { Reads result faults.old faults.new (slots_read text.now) }
{
    let slots = Number {
        kind: Kind::Int,
        low: 1,
        high: u64::from(SLOTS),
    };
    let slots = slots.read(alloc, text, faults)?;
    u32::try_from(slots).map_err(|_| AllocError)
}

// How slots are spread over hosts.
fn read_allocation(
    alloc: Global,
    text: &[u8],
    faults: &mut Option<Refusal>,
) -> Result<Allocation, AllocError>
    ensures { Reads result faults.old faults.new (allocation_read text.now) }
{
    if is_word(text, b"$pe_slots") {
        Ok(Allocation::PeSlots)
    } else if is_word(text, b"$fill_up") {
        Ok(Allocation::FillUp)
    } else if is_word(text, b"$round_robin") {
        Ok(Allocation::RoundRobin)
    } else {
        Ok(Allocation::Fixed(read_slots(alloc, text, faults)?))
    }
}

// How many slots urgency assumes of a range.
fn read_assumed(
    alloc: Global,
    text: &[u8],
    faults: &mut Option<Refusal>,
) -> Result<UrgencySlots, AllocError>
    ensures { Reads result faults.old faults.new (assumed_read text.now) }
{
    if is_word(text, b"min") {
        Ok(UrgencySlots::Min)
    } else if is_word(text, b"max") {
        Ok(UrgencySlots::Max)
    } else if is_word(text, b"avg") {
        Ok(UrgencySlots::Avg)
    } else {
        Ok(UrgencySlots::Fixed(read_slots(alloc, text, faults)?))
    }
}

/// A parallel environment.
#[tactic(auto, unfolding(ge_model_config::specs::Environments::pe_item))]
pub fn read_environment(
    alloc: Global,
    c: &Cluster,
    adding: bool,
    values: &[(Text, Text)],
    faults: &mut Option<Refusal>,
) -> Result<Item, AllocError>
    ensures { Reads result faults.old faults.new (pe_item c.now adding values.now) }
{
    let name = given_text(alloc, values, b"pe_name", b"")?;
    note_name(
        faults,
        ObjectKind::Pe,
        PARALLEL_ENVIRONMENTS,
        &c.pes,
        adding,
        &name,
    );
    let sets = Names { table: &c.sets };
    let slots = any_of(Kind::Int).read(alloc, value_or(values, b"slots", b"0"), faults)?;
    let users = sets.read(alloc, value_or(values, b"user_lists", b"NONE"), faults)?;
    let xusers = sets.read(alloc, value_or(values, b"xuser_lists", b"NONE"), faults)?;
    let rule = read_allocation(
        alloc,
        value_or(values, b"allocation_rule", b"$pe_slots"),
        faults,
    )?;
    let urgency_slots = read_assumed(alloc, value_or(values, b"urgency_slots", b"min"), faults)?;
    Ok(Item::Pe(
        name,
        PeRow {
            slots,
            users,
            xusers,
            rule,
            urgency_slots,
        },
    ))
}
