//! Who may, in the cluster of the page.

use crate::answers::{is_named, no_call, word_of, yes_or_no};
use ge_pieces::{before, behind, pieces};
use ge_printing::join_words;
use ge_rows::{Cluster, List, Text};
use ge_site::{in_set, in_sets, is_manager, is_operator, may_use};
use std::alloc::{AllocError, Global};

// What commas part; nothing where the text is empty.
fn names(alloc: Global, text: &[u8]) -> Result<List<Text>, AllocError> {
    if text.is_empty() {
        Ok(List::new(alloc))
    } else {
        pieces(alloc, b',', text)
    }
}

// Two answers, with a comma between.
fn both(alloc: Global, first: bool, second: bool) -> Result<Text, AllocError> {
    join_words(alloc, b", ", &[word_of(first), word_of(second)])
}

// Whether a user of a group is in a set, asked both ways.
fn member(
    alloc: Global,
    c: &Cluster,
    user: &Text,
    group: &Text,
    set: &[u8],
) -> Result<Text, AllocError> {
    let sets = names(alloc, set)?;
    let set = Text::from_bytes(alloc, set)?;
    both(
        alloc,
        in_set(c, &set, user, group),
        in_sets(c, sets.items(), user, group),
    )
}

// Whether lists and excluding lists, with a bar between, admit a user of a group.
fn admitted(
    alloc: Global,
    c: &Cluster,
    user: &Text,
    group: &Text,
    lists: &[u8],
) -> Result<Text, AllocError> {
    let xlists = names(alloc, behind(b'|', lists))?;
    let lists = names(alloc, before(b'|', lists))?;
    yes_or_no(alloc, may_use(c, &lists, &xlists, user, group))
}

/// What a call answers: `roles USER`, whether a manager and whether an operator; `member USER|GROUP|SET`, by the set and by a list
/// of it; `may_use USER|GROUP|LISTS|XLISTS`.
pub(crate) fn answer(
    alloc: Global,
    c: &Cluster,
    name: &[u8],
    given: &[u8],
) -> Result<Text, AllocError> {
    let (first, rest) = (before(b'|', given), behind(b'|', given));
    let user = Text::from_bytes(alloc, first)?;
    let group = Text::from_bytes(alloc, before(b'|', rest))?;
    let rest = behind(b'|', rest);
    if is_named(name, b"roles") {
        both(alloc, is_manager(c, &user), is_operator(c, &user))
    } else if is_named(name, b"member") {
        member(alloc, c, &user, &group, rest)
    } else if is_named(name, b"may_use") {
        admitted(alloc, c, &user, &group, rest)
    } else {
        no_call(alloc)
    }
}
