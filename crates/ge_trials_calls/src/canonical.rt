//! Values read from canonical bytes and written again: whole, cut short, and with each byte
//! changed.

use ge_codec::{Canon, TakeFault};
use ge_opening_cluster::opening;
use ge_pieces::{behind_word, first_word, is_word, slices_at};
use ge_rows::{Cluster, Entry, Table, Text, Value};
use ge_snapshot::{put_cluster, take_cluster, take_cluster_1, take_entry_1};
use ge_trials_rows::{append_hex, bytes_of};
use std::alloc::{AllocError, Global};

/// What reading some bytes gives.
#[derive(Drop)]
enum Answer {
    /// A value that ends there, and is written as the very bytes that were read.
    Again(usize),
    /// A value that ends there, and is written as these bytes.
    Otherwise(usize, Text),
    /// The bytes end inside the value.
    Short,
    /// A tag there has no variant.
    Tag(usize),
    /// What stands there is out of its range.
    Range(usize),
}

/// How often each answer was given.
#[derive(Drop)]
struct Tally {
    again: u64,
    otherwise: u64,
    short: u64,
    tag: u64,
    range: u64,
}

impl Tally {
    fn new() -> Tally {
        Tally {
            again: 0,
            otherwise: 0,
            short: 0,
            tag: 0,
            range: 0,
        }
    }

    fn add(&mut self, answer: &Answer) {
        match answer {
            Answer::Again(_) => self.again = self.again.saturating_add(1),
            Answer::Otherwise(_, _) => self.otherwise = self.otherwise.saturating_add(1),
            Answer::Short => self.short = self.short.saturating_add(1),
            Answer::Tag(_) => self.tag = self.tag.saturating_add(1),
            Answer::Range(_) => self.range = self.range.saturating_add(1),
        }
    }
}

// The answer of a value that was read up to an end.
fn written<V: Canon>(
    alloc: Global,
    bytes: &[u8],
    value: &V,
    end: usize,
) -> Result<Answer, AllocError> {
    let mut out = Text::new(alloc);
    value.put(&mut out)?;
    let front = bytes.get(..end).unwrap_or(&[]);
    if out.bytes() == front {
        Ok(Answer::Again(end))
    } else {
        Ok(Answer::Otherwise(end, out))
    }
}

fn answer_of<V: Canon + Drop>(
    alloc: Global,
    bytes: &[u8],
    taken: Result<(V, usize), TakeFault>,
) -> Result<Answer, AllocError> {
    match taken {
        Ok((value, end)) => written(alloc, bytes, &value, end),
        Err(TakeFault::Short) => Ok(Answer::Short),
        Err(TakeFault::Tag(place)) => Ok(Answer::Tag(place)),
        Err(TakeFault::Range(place)) => Ok(Answer::Range(place)),
        Err(TakeFault::Memory) => Err(AllocError),
    }
}

// The answer of what is read as a cluster, which all the bytes are.
fn answer_of_whole(
    alloc: Global,
    bytes: &[u8],
    taken: Result<Cluster, TakeFault>,
) -> Result<Answer, AllocError> {
    match taken {
        Ok(cluster) => written(alloc, bytes, &cluster, bytes.len()),
        Err(fault) => answer_of::<Cluster>(alloc, bytes, Err(fault)),
    }
}

// Reads some bytes as what a word says, a table from small numbers to bools where it is no other, and writes the value again.
fn answered(alloc: Global, sort: &[u8], bytes: &[u8]) -> Result<Answer, AllocError> {
    if is_word(sort, b"entry1") {
        answer_of(alloc, bytes, take_entry_1(alloc, bytes, 0))
    } else if is_word(sort, b"entry2") {
        answer_of(alloc, bytes, Entry::take(alloc, bytes, 0))
    } else if is_word(sort, b"cluster1") {
        answer_of_whole(alloc, bytes, take_cluster_1(alloc, bytes))
    } else if is_word(sort, b"cluster2") {
        answer_of_whole(alloc, bytes, take_cluster(alloc, bytes))
    } else if is_word(sort, b"bool") {
        answer_of(alloc, bytes, bool::take(alloc, bytes, 0))
    } else if is_word(sort, b"option") {
        answer_of(alloc, bytes, <Option<bool> as Canon>::take(alloc, bytes, 0))
    } else if is_word(sort, b"value") {
        answer_of(alloc, bytes, Value::take(alloc, bytes, 0))
    } else {
        answer_of(alloc, bytes, <Table<u8, bool>>::take(alloc, bytes, 0))
    }
}

// How often each answer is given to the fronts of some bytes.
fn fronts(alloc: Global, sort: &[u8], bytes: &[u8]) -> Result<Tally, AllocError> {
    let mut tally = Tally::new();
    for end in 0..bytes.len() {
        let front = bytes.get(..end).unwrap_or(&[]);
        tally.add(&answered(alloc, sort, front)?);
    }
    Ok(tally)
}

// Adds the answers to some bytes of which one is changed in three ways.
fn add_changed(
    alloc: Global,
    sort: &[u8],
    bytes: &[u8],
    at: usize,
    tally: &mut Tally,
) -> Result<(), AllocError> {
    for flip in [1, 128, 255] {
        let mut changed = bytes.to_vec(alloc)?;
        if let Some(byte) = changed.get_mut(at) {
            *byte ^= flip;
        }
        tally.add(&answered(alloc, sort, changed.as_slice())?);
    }
    Ok(())
}

// How often each answer is given to some bytes of which one is changed.
fn changes(alloc: Global, sort: &[u8], bytes: &[u8]) -> Result<Tally, AllocError> {
    let mut tally = Tally::new();
    for at in 0..bytes.len() {
        add_changed(alloc, sort, bytes, at, &mut tally)?;
    }
    Ok(tally)
}

fn push_answer(alloc: Global, text: &mut Text, answer: &Answer) -> Result<(), AllocError> {
    match answer {
        Answer::Again(end) => text.append(format!(in alloc; "again to {end}\n")?.as_bytes()),
        Answer::Otherwise(end, out) => {
            text.append(format!(in alloc; "otherwise to {end}: ")?.as_bytes())?;
            push_hex(alloc, text, out)
        }
        Answer::Short => text.append(b"short\n"),
        Answer::Tag(place) => text.append(format!(in alloc; "tag at {place}\n")?.as_bytes()),
        Answer::Range(place) => text.append(format!(in alloc; "range at {place}\n")?.as_bytes()),
    }
}

/// Some bytes in hex, which end a line.
pub(crate) fn push_hex(alloc: Global, text: &mut Text, bytes: &Text) -> Result<(), AllocError> {
    append_hex(alloc, text, bytes.bytes())?;
    text.append(b"\n")
}

// How often each answer was given, but those that never were.
fn push_tally(
    alloc: Global,
    text: &mut Text,
    word: &[u8],
    tally: &Tally,
) -> Result<(), AllocError> {
    text.append(word)?;
    for (count, name) in [
        (tally.again, "again"),
        (tally.otherwise, "otherwise"),
        (tally.short, "short"),
        (tally.tag, "tag"),
        (tally.range, "range"),
    ] {
        if count > 0 {
            text.append(format!(in alloc; " {count} {name}")?.as_bytes())?;
        }
    }
    text.append(b"\n")
}

// The bytes of the opening cluster.
fn push_opening(alloc: Global, text: &mut Text) -> Result<(), AllocError> {
    let cluster = opening(alloc)?;
    let mut bytes = Text::new(alloc);
    put_cluster(&cluster, &mut bytes)?;
    push_hex(alloc, text, &bytes)
}

// The answer to some bytes, and as far as a word goes those to their fronts and to changed bytes.
fn push_tried(
    alloc: Global,
    text: &mut Text,
    word: &[u8],
    sort: &[u8],
    bytes: &[u8],
) -> Result<(), AllocError> {
    push_answer(alloc, text, &answered(alloc, sort, bytes)?)?;
    let is_changed = is_word(word, b"changed");
    if is_changed || is_word(word, b"cut") {
        push_tally(alloc, text, b"fronts", &fronts(alloc, sort, bytes)?)?;
    }
    if is_changed {
        push_tally(alloc, text, b"changed", &changes(alloc, sort, bytes)?)?;
    }
    Ok(())
}

fn push_row(alloc: Global, text: &mut Text, row: &[u8]) -> Result<(), AllocError> {
    let (word, rest) = (first_word(row), behind_word(row));
    if word.is_empty() {
        return Ok(());
    }
    if is_word(word, b"opening") {
        return push_opening(alloc, text);
    }
    let bytes = bytes_of(alloc, behind_word(rest))?;
    push_tried(alloc, text, word, first_word(rest), bytes.as_slice())
}

/// A page `bytes`: rows of a word, what some bytes are, and the bytes. It tells of each row what
/// reading the bytes gives: a value that is written again as they are or otherwise, where that
/// ends, and how it is then written in format 2; or the fault and its place. The word `read` goes
/// no further; `cut` tells how often each answer is given to the fronts of the bytes, and
/// `changed` also to the bytes with each of them changed by 1, 128 and 255. A row `opening` tells
/// the bytes of the opening cluster.
pub(crate) fn bytes_page(alloc: Global, body: &[u8]) -> Result<Vec<u8>, AllocError> {
    let mut text = Text::new(alloc);
    for row in slices_at(alloc, b'\n', body)?.as_slice() {
        push_row(alloc, &mut text, row)?;
    }
    Vec::from_slice(alloc, text.bytes())
}
