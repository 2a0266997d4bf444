// The set of a text.
ghost use Rattle.std.specs.Prelude.{◌≡◌, ◌++◌, [], ◌∷◌, IfOk, OnOk, map, Some, None};
ghost use Rattle.ge_model_rows.specs.Ranges.{ranges_of, range_set, is_within_limits, with_ranges, parsed_set};
ghost use Rattle.ge_model_rows.specs.Sets.{union as union_of};
ghost use Rattle.ge_ranges.specs.Parsing.{IsParsed, or_limit, or_fault};

use crate::asking::len;
use crate::combining::union;
use crate::ranges::{WrittenRange, read_range};
use ge_limits::TASKS;
use ge_model_rows::RangeFault;
use ge_pieces::slices_at;
use ge_rows::{List, TaskSet};
use std::alloc::{AllocError, Global};

// The ranges of texts, or none where one is no range.
fn read_ranges(alloc: Global, texts: &[&[u8]]) -> Result<Option<List<WrittenRange>>, AllocError>
    ensures { IfOk result (λ ranges. ranges ≡ ranges_of (map (λ text. text.now) texts.now)) }
{
    let mut ranges = List::new(alloc);
    for text in texts {
        let Some(range) = read_range(text) else {
            return Ok(None);
        };
        ranges.push(range)?;
    }
    Ok(Some(ranges))
}

// The numbers of a range as a set.
fn set_of_range(alloc: Global, range: &WrittenRange) -> Result<TaskSet, AllocError>
    ensures { IfOk result (λ set. set ≡ range_set range.now) }
{
    let mut spans = List::new(alloc);
    if let Some(span) = range.span() {
        spans.push(span)?;
    }
    Ok(TaskSet::from_spans(spans))
}

// A set with the numbers of one more range, or none where a limit would be passed.
fn with_range(
    alloc: Global,
    set: &TaskSet,
    range: &WrittenRange,
) -> Result<Option<TaskSet>, AllocError>
    ensures { IfOk result (λ more. or_limit more ≡ with_ranges set.now (range.now ∷ [])) }
{
    if !range.is_within_limits() {
        return Ok(None);
    }
    let more = union(alloc, set, &set_of_range(alloc, range)?)?;
    if len(&more) <= TASKS {
        Ok(Some(more))
    } else {
        Ok(None)
    }
}

// The set of all numbers of ranges, or none where a limit would be passed.
fn join_ranges(alloc: Global, ranges: &[WrittenRange]) -> Result<Option<TaskSet>, AllocError>
    ensures { IfOk result (λ set. or_limit set ≡ with_ranges [] ranges.now) }
{
    let mut set = TaskSet::new(alloc);
    for range in ranges {
        match with_range(alloc, &set, range)? {
            Some(more) => set = more,
            None => return Ok(None),
        }
    }
    Ok(Some(set))
}

// The set of a text: none where it is off the grammar, and none within that where a limit is passed.
#[tactic(auto, unfolding(ge_model_rows::specs::Ranges::parsed_set))]
fn read_set(alloc: Global, text: &[u8]) -> Result<Option<Option<TaskSet>>, AllocError>
    ensures { IfOk result (λ read. or_fault read ≡ parsed_set text.now) }
{
    let texts = slices_at(alloc, b',', text)?;
    match read_ranges(alloc, &texts)? {
        Some(ranges) => Ok(Some(join_ranges(alloc, ranges.items())?)),
        None => Ok(None),
    }
}

/// The set of one or more ranges joined by commas, in any order, each as `-t` of qsub has it: `n`, `n-m` or `n-m:s`.
/// A text off this grammar is `Syntax`; a set with more than 75,000 numbers, or with one above 2^31 - 1, is `Limit`.
pub fn parse_set(alloc: Global, text: &[u8]) -> Result<TaskSet, RangeFault>
    ensures { IsParsed result (parsed_set text.now) }
{
    match read_set(alloc, text) {
        Ok(Some(Some(set))) => Ok(set),
        Ok(Some(None)) => Err(RangeFault::Limit),
        Ok(None) => Err(RangeFault::Syntax),
        Err(_) => Err(RangeFault::NoMemory),
    }
}
