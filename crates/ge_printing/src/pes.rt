//! Parallel environments: see the manual page sge_pe.

ghost use Rattle.std.specs.Prelude.{◌≡◌, ◌++◌, ◌∷◌, [], IfOk, codes, decimal};
ghost use Rattle.ge_model_config.specs.Environments.{allocation_text, assumed_text, pe_lines};

use crate::lines::{put, put_names, put_number};
use crate::numbers::decimal_text;
use ge_rows::{Allocation, List, PeRow, Text, UrgencySlots};
use std::alloc::{AllocError, Global};

fn allocation(alloc: Global, rule: Allocation) -> Result<Text, AllocError>
    ensures { IfOk result (λ text. text ≡ allocation_text rule) }
{
    match rule {
        Allocation::Fixed(n) => decimal_text(alloc, u128::from(n)),
        Allocation::PeSlots => Text::from_bytes(alloc, b"$pe_slots"),
        Allocation::FillUp => Text::from_bytes(alloc, b"$fill_up"),
        Allocation::RoundRobin => Text::from_bytes(alloc, b"$round_robin"),
    }
}

fn assumed(alloc: Global, slots: UrgencySlots) -> Result<Text, AllocError>
    ensures { IfOk result (λ text. text ≡ assumed_text slots) }
{
    match slots {
        UrgencySlots::Fixed(n) => decimal_text(alloc, u128::from(n)),
        UrgencySlots::Min => Text::from_bytes(alloc, b"min"),
        UrgencySlots::Max => Text::from_bytes(alloc, b"max"),
        UrgencySlots::Avg => Text::from_bytes(alloc, b"avg"),
    }
}

/// The lines of a parallel environment.
pub(crate) fn print_pe(alloc: Global, name: &Text, pe: &PeRow) -> Result<List<Text>, AllocError>
    ensures { IfOk result (λ lines. lines ≡ pe_lines name.now pe.now) }
{
    let rule = allocation(alloc, pe.rule)?;
    let slots = assumed(alloc, pe.urgency_slots)?;
    let mut lines = List::new(alloc);
    put(alloc, &mut lines, b"pe_name", name.bytes())?;
    put_number(alloc, &mut lines, b"slots", pe.slots)?;
    put_names(alloc, &mut lines, b"user_lists", &pe.users)?;
    put_names(alloc, &mut lines, b"xuser_lists", &pe.xusers)?;
    put(alloc, &mut lines, b"allocation_rule", rule.bytes())?;
    put(alloc, &mut lines, b"urgency_slots", slots.bytes())?;
    Ok(lines)
}
