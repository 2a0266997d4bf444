//! Entries that are applied to the opening cluster one after the other, and what the table of
//! jobs tells behind each.

use crate::changes_told::{push_checksum, push_told};
use ge_applying::apply;
use ge_codec::Canon;
use ge_opening_cluster::opening;
use ge_pieces::{behind_word, digits_worth, first_word, is_word, slices_at};
use ge_rows::{Cluster, Entry, JobMark, MarkSort};
use ge_trials_rows::{at_bar, bytes_of};
use std::alloc::{AllocError, Global};

// The entry that the bytes of a text are.
fn entry_of(alloc: Global, text: &[u8]) -> Result<Option<Entry>, AllocError> {
    let bytes = bytes_of(alloc, text)?;
    match Entry::take(alloc, bytes.as_slice(), 0) {
        Ok((entry, end)) => {
            if end < bytes.len() {
                return Ok(None);
            }
            Ok(Some(entry))
        }
        Err(_) => Ok(None),
    }
}

// The sort of a mark that a word names, an attribute where it names no other.
fn sort_of(word: &[u8]) -> MarkSort {
    if is_word(word, b"runs") {
        MarkSort::Runs
    } else if is_word(word, b"serial") {
        MarkSort::Serial
    } else if is_word(word, b"queue") {
        MarkSort::Queue
    } else if is_word(word, b"host") {
        MarkSort::Host
    } else if is_word(word, b"owner") {
        MarkSort::Owner
    } else if is_word(word, b"project") {
        MarkSort::Project
    } else if is_word(word, b"advance") {
        MarkSort::Advance
    } else if is_word(word, b"pe") {
        MarkSort::Pe
    } else {
        MarkSort::Attribute
    }
}

// The mark of a sort with this serial, with the number that some words are, or with the names
// that they are.
fn mark_of(
    alloc: Global,
    sort: MarkSort,
    serial: u64,
    words: &[u8],
) -> Result<JobMark, AllocError> {
    match sort {
        MarkSort::Serial => JobMark::new(alloc, MarkSort::Serial, b"", b"", serial),
        MarkSort::Advance => {
            JobMark::new(alloc, MarkSort::Advance, b"", b"", digits_worth(words))
        }
        named => JobMark::new(alloc, named, first_word(words), behind_word(words), 0),
    }
}

// What is told of what a row asks.
fn push_asked(
    alloc: Global,
    text: &mut Vec<u8>,
    cluster: &Cluster,
    asked: &[u8],
) -> Result<(), AllocError> {
    let serial = cluster
        .next_serial
        .saturating_sub(digits_worth(first_word(asked)));
    let words = behind_word(asked);
    let sort = sort_of(first_word(words));
    let wanted = mark_of(alloc, sort, serial, behind_word(words))?;
    push_told(alloc, text, cluster, serial, &wanted)
}

// Applies the entry of a row, and tells what the row asks.
fn push_row(
    alloc: Global,
    text: &mut Vec<u8>,
    cluster: &mut Cluster,
    row: &[u8],
) -> Result<(), AllocError> {
    let (asked, entry) = at_bar(row);
    match entry_of(alloc, entry)? {
        Some(entry) => apply(alloc, cluster, entry)?,
        None => return text.extend_from_slice(b"no entry"),
    }
    push_asked(alloc, text, cluster, asked)
}

/// A page `changes`: an entry on each line, as `BACK SORT NAMES|BYTES`. What the table of jobs
/// tells is asked behind it: its totals, the task of a serial, which is so far behind the next
/// one, and the jobs that bear a mark with how often they bear it. The mark's sort has no name,
/// up to two, or a number. Behind each hundredth entry the checksum of the cluster's bytes is
/// told too.
pub(crate) fn changes_page(alloc: Global, body: &[u8]) -> Result<Vec<u8>, AllocError> {
    let mut cluster = opening(alloc)?;
    let mut text = Vec::new(alloc);
    let mut count: u64 = 0;
    for row in slices_at(alloc, b'\n', body)?.as_slice() {
        push_row(alloc, &mut text, &mut cluster, row)?;
        count = count.saturating_add(1);
        if count % 100 == 0 {
            push_checksum(alloc, &mut text, &cluster)?;
        }
        text.extend_from_slice(b"\n")?;
    }
    Ok(text)
}
