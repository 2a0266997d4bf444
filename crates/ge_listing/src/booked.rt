//! Advance reservations.

ghost use Rattle.std.specs.Prelude.{◌≡◌, ◌++◌, ◌∷◌, [], IfOk, codes, decimal, map};
ghost use Rattle.std.specs.Option.{option_copied};
ghost use Rattle.ge_model_report.specs.Booked.{booked_line, booked_lines, booked_state, one_booked};

use crate::grants::{grants_text, slots_of};
use ge_printing::{Column, join_columns};
use ge_rows::{Advance, Cluster, List, Table, Text};
use std::alloc::{AllocError, Global};

fn state_at(now: u64, booked: &Advance) -> &[u8]
    ensures { result.now ≡ booked_state now booked.now }
{
    if now < booked.from {
        b"w"
    } else if now < booked.until {
        b"r"
    } else {
        b"x"
    }
}

fn line_of(alloc: Global, now: u64, number: u32, booked: &Advance) -> Result<Text, AllocError>
    ensures { IfOk result (λ line. line ≡ booked_line now (number, booked.now)) }
{
    let columns = [
        Column::Number(u128::from(number)),
        Column::Word(booked.name.bytes()),
        Column::Word(booked.owner.bytes()),
        Column::Word(state_at(now, booked)),
        Column::Number(u128::from(booked.from)),
        Column::Number(u128::from(booked.until)),
        Column::Number(slots_of(booked.grants.items())),
    ];
    join_columns(alloc, &columns)
}

fn all(alloc: Global, advances: &Table<u32, Advance>, now: u64) -> Result<List<Text>, AllocError>
    ensures { IfOk result (λ lines. lines ≡ map (booked_line now) advances.now) }
{
    let mut lines = List::new(alloc);
    for (number, booked) in advances.iter() {
        lines.push(line_of(alloc, now, *number, booked)?)?;
    }
    Ok(lines)
}

fn one(
    alloc: Global,
    now: u64,
    number: u32,
    booked: Option<&Advance>,
) -> Result<List<Text>, AllocError>
    ensures { IfOk result (λ lines. lines ≡ one_booked now number (option_copied booked.entry)) }
{
    let mut lines = List::new(alloc);
    if let Some(booked) = booked {
        lines.push(line_of(alloc, now, number, booked)?)?;
        lines.push(grants_text(alloc, booked.grants.items())?)?;
    }
    Ok(lines)
}

/// Advance reservations at a moment in seconds, all by number or the one with a number: `qrstat`. See the manual page
/// qrstat.
///
/// The columns are the number, the name, the owner, the state, the beginning and the end in seconds, and the slots. The
/// state is `w` before the beginning, `r` from then on, and `x` from the end on. Behind the line of a reservation that is
/// named stand its grants, as `queue@host=slots` joined by commas; one that isn't there has no lines.
#[tactic(auto, unfolding(ge_model_report::specs::Booked::booked_lines))]
pub fn booked_lines(
    alloc: Global,
    c: &Cluster,
    number: Option<u32>,
    now: u64,
) -> Result<List<Text>, AllocError>
    ensures { IfOk result (λ lines. lines ≡ booked_lines c.now number now) }
{
    match number {
        None => all(alloc, &c.advances, now),
        Some(number) => one(alloc, now, number, c.advances.get(&number)),
    }
}
