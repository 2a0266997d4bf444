//! Steps of a journal: records and snapshots that are written.
ghost use Rattle.ge_outside.specs.MemoryDisks.{disk_told};
ghost use Rattle.ge_spool.specs.Settled.{KeepsRoom};

use crate::journal_areas::stands_at;
use crate::journals::append_areas;
use ge_outside::MemDisk;
use ge_pieces::{is_word, slices_at};
use ge_rows::Text;
use ge_spool::{RecordBytes, SnapshotBytes, Spool, WRITTEN_FORMAT};
use ge_trials_rows::{area_of, at_bar, bytes_of};
use std::alloc::{AllocError, Global};

/// A record or a snapshot that is written.
#[derive(Drop)]
pub(crate) struct Step {
    /// Whether it is a snapshot.
    pub(crate) is_compaction: bool,
    /// Its bytes.
    pub(crate) body: Text,
}

// Makes a step, and says whether it was acknowledged.
fn make_step(
    alloc: Global,
    spool: &mut Spool,
    a: &mut MemDisk,
    b: &mut MemDisk,
    step: &Step,
) -> Result<bool, AllocError>
    requires { KeepsRoom spool.old (disk_told a.old) (disk_told b.old) }
    ensures { KeepsRoom spool.new (disk_told a.new) (disk_told b.new) }
{
    if step.is_compaction {
        let mut snapshot = SnapshotBytes::new(alloc, &step.body)?;
        if spool.generation() == u64::MAX {
            return Ok(false);
        }
        return Ok(spool.compact(a, b, &mut snapshot).is_ok());
    }
    if step.body.is_empty() || step.body.len() > 9 || spool.format() != WRITTEN_FORMAT {
        return Ok(false);
    }
    let record = RecordBytes::new(alloc, &step.body)?;
    Ok(spool.append(a, b, &record).is_ok())
}

/// Opens the areas and makes steps, up to one that fails. It says how many were acknowledged,
/// and where the journal stands.
pub(crate) fn make_steps(
    alloc: Global,
    a: &mut MemDisk,
    b: &mut MemDisk,
    steps: &[Step],
) -> Result<(u8, String), AllocError> {
    let Ok((mut spool, _)) = Spool::open(alloc, a, b) else {
        return Ok((0, String::new(alloc)));
    };
    let mut count: u8 = 0;
    for step in steps {
        if !make_step(alloc, &mut spool, a, b, step)? {
            break;
        }
        count = count.saturating_add(1);
    }
    Ok((count, stands_at(alloc, &spool)?))
}

// A step that is written as `r` or `s` and hex digits.
fn step_of(alloc: Global, word: &[u8]) -> Result<Step, AllocError> {
    let (first, digits) = word.split_at(word.len().min(1));
    Ok(Step {
        is_compaction: is_word(first, b"s"),
        body: Text::from_vec(bytes_of(alloc, digits)?),
    })
}

fn steps_of(alloc: Global, words: &[u8]) -> Result<Vec<Step>, AllocError> {
    let mut steps = Vec::new(alloc);
    for word in slices_at(alloc, b',', words)?.as_slice() {
        if !word.is_empty() {
            steps.push(step_of(alloc, word)?)?;
        }
    }
    Ok(steps)
}

/// A row `journal AREA|AREA|STEPS`: how many steps are made over two areas, where the journal
/// then stands, and what they hold. A step is `r` for a record or `s` for a snapshot, and its
/// bytes in hex; commas stand between.
pub(crate) fn stepped(alloc: Global, given: &[u8]) -> Result<Text, AllocError> {
    let (of_a, rest) = at_bar(given);
    let (of_b, words) = at_bar(rest);
    let steps = steps_of(alloc, words)?;
    let mut a = area_of(alloc, of_a, 0)?;
    let mut b = area_of(alloc, of_b, 0)?;
    let (count, place) = make_steps(alloc, &mut a, &mut b, steps.as_slice())?;
    let told = format!(in alloc; "{count} made,{place}")?;
    let mut line = Text::from_bytes(alloc, told.as_bytes())?;
    append_areas(alloc, &mut line, &a, &b)?;
    Ok(line)
}
