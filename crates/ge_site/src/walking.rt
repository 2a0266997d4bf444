//! The walk through groups, depth first, with the way back kept in place of recursion.
//!
//! Each group is passed once, and each entry of a passed group is looked at once.

ghost use Rattle.std.specs.Prelude.{◌≡◌, ◌≤◌, ◌<◌, [], suc, length, IfOk, OnOk, MatchOption};
ghost use Rattle.ge_model_rows.specs.Groups.{through_entry, through_group};
ghost use Rattle.ge_site.specs.Walks.{names_on, outcome, steps_left};

use crate::seen::Seen;
use crate::spelled::is_a_group;
use crate::way::{Place, Way};
use ge_rows::{List, Table, Text};
use std::alloc::{AllocError, Global};

// Goes into a group, from which the way may lead through so many more.
fn enter<'a>(
    groups: &'a Table<Text, List<Text>>,
    way: &mut Way<'a>,
    seen: &mut Seen<'a>,
    place: Place<'a>,
    name: &'a Text,
    deeper: usize,
) -> Result<Place<'a>, AllocError>
    ensures comes { IfOk result (λ next. outcome groups.now way.new next.entries.now next.depth seen.new
        ≡ outcome groups.now way.old place.entry.entries.now place.entry.depth
        (through_group (suc deeper) groups.now (names_on way.old) seen.old name.now)) }
    ensures ends { IfOk result (λ next. steps_left groups.now way.new next.entries.now seen.new
        ≤ steps_left groups.now way.old place.entry.entries.now seen.old) }
{
    let Some(entries) = groups.get(name) else {
        seen.note_missing(name);
        return Ok(place);
    };
    if way.has(name.bytes()) {
        seen.note_cycle(name);
        return Ok(place);
    }
    if seen.has_group(name) {
        return Ok(place);
    }
    seen.add_group(name)?;
    way.push(name.bytes(), place)?;
    Ok(Place {
        entries: entries.items(),
        depth: deeper,
    })
}

fn take_entry<'a>(
    groups: &'a Table<Text, List<Text>>,
    way: &mut Way<'a>,
    seen: &mut Seen<'a>,
    place: Place<'a>,
    entry: &'a Text,
) -> Result<Place<'a>, AllocError>
    ensures comes { IfOk result (λ next. outcome groups.now way.new next.entries.now next.depth seen.new
        ≡ outcome groups.now way.old place.entry.entries.now place.entry.depth
        (through_entry (through_group place.entry.depth groups.now (names_on way.old)) seen.old entry.now)) }
    ensures ends { IfOk result (λ next. steps_left groups.now way.new next.entries.now seen.new
        ≤ steps_left groups.now way.old place.entry.entries.now seen.old) }
{
    if is_a_group(entry.bytes()) {
        match place.depth.checked_sub(1) {
            Some(deeper) => enter(groups, way, seen, place, entry, deeper),
            None => Ok(place),
        }
    } else {
        seen.add_host(entry)?;
        Ok(place)
    }
}

// The next entry, or back behind the last group; none where the walk is over.
fn step<'a>(
    groups: &'a Table<Text, List<Text>>,
    way: &mut Way<'a>,
    seen: &mut Seen<'a>,
    place: Place<'a>,
) -> Result<Option<Place<'a>>, AllocError>
    ensures comes { IfOk result (λ next. MatchOption next
        (seen.new ≡ outcome groups.now way.old place.entry.entries.now place.entry.depth seen.old)
        (λ next. outcome groups.now way.new next.entries.now next.depth seen.new
        ≡ outcome groups.now way.old place.entry.entries.now place.entry.depth seen.old)) }
    ensures ends { IfOk result (λ next. MatchOption next Unit
        (λ next. steps_left groups.now way.new next.entries.now seen.new
        < steps_left groups.now way.old place.entry.entries.now seen.old)) }
{
    match place.entries.split_first() {
        Some((entry, entries)) => {
            let behind = Place {
                entries,
                depth: place.depth,
            };
            Ok(Some(take_entry(groups, way, seen, behind, entry)?))
        }
        None => Ok(way.pop()),
    }
}

// The rest of a walk, step by step.
fn finish<'a>(
    groups: &'a Table<Text, List<Text>>,
    way: &mut Way<'a>,
    seen: &mut Seen<'a>,
    start: Place<'a>,
) -> Result<(), AllocError>
    ensures { OnOk result (seen.new
        ≡ outcome groups.now way.old start.entry.entries.now start.entry.depth seen.old) }
{
    let mut place = start;
    while let Some(next) = step(groups, way, seen, place)? {
        place = next;
    }
    Ok(())
}

/// Walks through a group and all that it reaches.
pub(crate) fn walk_through<'a>(
    alloc: Global,
    groups: &'a Table<Text, List<Text>>,
    seen: &mut Seen<'a>,
    name: &'a Text,
) -> Result<(), AllocError>
    ensures { OnOk result (seen.new
        ≡ through_group (suc (length groups.now)) groups.now [] seen.old name.now) }
{
    let mut way = Way::new(alloc);
    let start = Place {
        entries: &[],
        depth: 0,
    };
    let place = enter(groups, &mut way, seen, start, name, groups.len())?;
    finish(groups, &mut way, seen, place)
}
