//! Pages of rows that each ask one call: how texts are read, cut, joined and written; values, who may, requests, groups of hosts,
//! and what there is at instances.
//!
//! A row is the name of a call and what it is given: `|` parts what several are given. What is told of it is what the call
//! answers. The stored answers were worked out by hand from the rules of the manual pages, or are those of programs in another
//! language.

use crate::sites::{Site, site_of};
use crate::{
    access, amounts, cutting, groups, named, naming, queues, refusals, requests, values, writing,
};
use ge_pieces::{before, behind, is_in};
use ge_rows::Text;
use ge_trials_rows::{Rows, bytes, tell_rows};
use std::alloc::{AllocError, Global};

/// Whether a word is this one. Its caller need not know what that says of each byte, as it would of a pattern.
pub(crate) fn is_named(word: &[u8], other: &[u8]) -> bool {
    word == other
}

/// A word of whether something holds.
pub(crate) fn word_of(holds: bool) -> &'static [u8] {
    if holds { b"yes" } else { b"no" }
}

/// The same as a text.
pub(crate) fn yes_or_no(alloc: Global, holds: bool) -> Result<Text, AllocError> {
    Text::from_bytes(alloc, word_of(holds))
}

/// A number, or a word where there is none.
pub(crate) fn number(alloc: Global, number: Option<u64>) -> Result<Text, AllocError> {
    match number {
        Some(number) => Text::from_bytes(alloc, number.to_string(alloc)?.as_bytes()),
        None => Text::from_bytes(alloc, b"none"),
    }
}

/// The answer to a name that no call has.
pub(crate) fn no_call(alloc: Global) -> Result<Text, AllocError> {
    Text::from_bytes(alloc, b"no such call")
}

// What a call answers, by the kind of its page.
fn answer(
    alloc: Global,
    kind: &[u8],
    site: &Site,
    name: &[u8],
    given: &[u8],
) -> Result<Text, AllocError> {
    if is_named(kind, b"amounts") {
        amounts::answer(alloc, name, given)
    } else if is_named(kind, b"cuts") {
        cutting::answer(alloc, name, given)
    } else if is_named(kind, b"names") {
        naming::answer(alloc, name, given)
    } else if is_named(kind, b"numbers") {
        writing::answer(alloc, name, given)
    } else if is_named(kind, b"refusals") {
        refusals::answer(alloc, name, given)
    } else if is_named(kind, b"values") {
        values::answer(alloc, name, given)
    } else if is_named(kind, b"groups") {
        groups::answer(alloc, name, given)
    } else if is_named(kind, b"access") {
        access::answer(alloc, &site.cluster, name, given)
    } else if is_named(kind, b"requests") {
        requests::answer(alloc, &site.cluster, name, given)
    } else if is_named(kind, b"named") {
        named::answer(alloc, site, name, given)
    } else {
        queues::answer(alloc, site, name, given)
    }
}

// The kind of a page, and the site that its rows ask.
#[derive(Drop)]
struct Asked<'a> {
    kind: &'a [u8],
    site: Site,
}

impl Rows for Asked<'_> {
    fn answer(&self, alloc: Global, name: &[u8], given: &[u8]) -> Result<Text, AllocError> {
        let given = bytes(alloc, given)?;
        answer(alloc, self.kind, &self.site, name, given.as_slice())
    }
}

// Whether the pages of a kind begin with a script.
fn has_script(kind: &[u8]) -> bool {
    is_in(kind, &[b"access", b"requests", b"instances", b"named"])
}

/// A page of rows: `amounts`, `cuts`, `names`, `numbers`, `refusals`, `values`, `groups`, `access`, `requests`, `instances` or
/// `named`. One of the last four begins with a script that makes the site, and with a line `~` behind that.
pub(crate) fn rows_page(alloc: Global, kind: &[u8], body: &[u8]) -> Result<Vec<u8>, AllocError> {
    if has_script(kind) {
        let site = site_of(alloc, before(b'~', body))?;
        let rows = behind(b'\n', behind(b'~', body));
        tell_rows(alloc, &Asked { kind, site }, rows)
    } else {
        let site = site_of(alloc, b"")?;
        tell_rows(alloc, &Asked { kind, site }, body)
    }
}
