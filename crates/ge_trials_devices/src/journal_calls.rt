//! Six records and two snapshots are written, where a call of one of the areas fails.

use crate::journal_steps::{Step, make_steps};
use ge_outside::MemDisk;
use ge_pieces::{digits_worth, is_word};
use ge_rows::Text;
use ge_spool::{Raw, Spool};
use ge_trials_rows::{area, at_bar};
use std::alloc::{AllocError, Global};

// The bytes of the record or the snapshot that a step writes.
fn body(alloc: Global, step: u8) -> Result<Text, AllocError> {
    Text::from_bytes(alloc, &[step, 200])
}

fn all_steps(alloc: Global) -> Result<Vec<Step>, AllocError> {
    let mut steps = Vec::new(alloc);
    for step in 0..8u8 {
        steps.push(Step {
            is_compaction: step == 3 || step == 7,
            body: body(alloc, step)?,
        })?;
    }
    Ok(steps)
}

// Whether this is what stands after so many steps.
fn is_state_after(alloc: Global, raw: &Raw, steps: u8) -> Result<bool, AllocError> {
    let first: u8 = if steps < 4 {
        0
    } else if steps < 8 {
        4
    } else {
        8
    };
    let generation = 1 + u64::from(first / 4);
    if raw.generation != generation
        || raw.records.len() != usize::from(steps.saturating_sub(first))
    {
        return Ok(false);
    }
    let snapshot = if first == 0 {
        Text::new(alloc)
    } else {
        body(alloc, first - 1)?
    };
    if raw.snapshot.bytes() != snapshot.bytes() {
        return Ok(false);
    }
    let mut step = first;
    for record in raw.records.items() {
        if record.bytes() != [step, 200].as_slice() || step > 8 {
            return Ok(false);
        }
        step += 1;
    }
    Ok(true)
}

// Opens eight pairs of images of the areas, and says whether each is what was acknowledged, or
// one step more where that may stand.
fn images_stand(
    alloc: Global,
    a: &MemDisk,
    b: &MemDisk,
    steps: u8,
    next_may_stand: bool,
) -> Result<bool, AllocError> {
    for pick in 0..8u64 {
        let mut image_a = a.image(pick)?;
        let mut image_b = b.image(pick * 7 + 3)?;
        let Ok((_, raw)) = Spool::open(alloc, &mut image_a, &mut image_b) else {
            return Ok(false);
        };
        if !is_state_after(alloc, &raw, steps)?
            && (!next_may_stand || steps > 7 || !is_state_after(alloc, &raw, steps + 1)?)
        {
            return Ok(false);
        }
    }
    Ok(true)
}

// Runs all steps where a call of one of the areas fails.
fn run(
    alloc: Global,
    fails_a: u64,
    fails_b: u64,
    next_may_stand: bool,
) -> Result<(u8, bool), AllocError> {
    let mut a = area(alloc, b"", fails_a)?;
    let mut b = area(alloc, b"", fails_b)?;
    let steps = all_steps(alloc)?;
    let (count, _) = make_steps(alloc, &mut a, &mut b, steps.as_slice())?;
    let stands = images_stand(alloc, &a, &b, count, next_may_stand)?;
    Ok((count, stands))
}

/// A row `fails CALL|CALL|WORD`: how many steps are acknowledged where these calls of the two
/// areas fail, and whether what a stop leaves is that, or one step more where the word is
/// `more`.
pub(crate) fn failed(alloc: Global, given: &[u8]) -> Result<Text, AllocError> {
    let (fails_a, rest) = at_bar(given);
    let (fails_b, word) = at_bar(rest);
    let (fails_a, fails_b) = (digits_worth(fails_a), digits_worth(fails_b));
    let (count, stands) = run(alloc, fails_a, fails_b, is_word(word, b"more"))?;
    let word: &str = if stands { "stands" } else { "is lost" };
    let line = format!(in alloc; "{count} {word}")?;
    Text::from_bytes(alloc, line.as_bytes())
}
