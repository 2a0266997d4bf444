//! Groups of hosts, which a row has as `@a=h1 @b;@b=h2`.

use crate::answers::{is_named, no_call, yes_or_no};
use ge_model_rows::GroupFault;
use ge_opening_cluster::opening;
use ge_pieces::{before, behind, join, slices_at, words_between};
use ge_printing::join_words;
use ge_rows::{Groups, List, Table, Text};
use ge_site::{MembersFault, expand, group_has, has_loop, hosts_of, is_a_group, members};
use ge_trials_rows::append_all;
use std::alloc::{AllocError, Global};

fn groups_of(alloc: Global, text: &[u8]) -> Result<Table<Text, List<Text>>, AllocError> {
    let mut groups = Table::new(alloc);
    for row in slices_at(alloc, b';', text)?.as_slice() {
        let name = Text::from_bytes(alloc, before(b'=', row))?;
        let entries = words_between(alloc, behind(b'=', row))?;
        groups.insert(name, entries)?;
    }
    Ok(groups)
}

// A word and a name, with a blank between.
fn with_word(alloc: Global, word: &[u8], name: &Text) -> Result<Text, AllocError> {
    join_words(alloc, b" ", &[word, name.bytes()])
}

// The hosts of the group `@a`, or why it has none.
fn hosts_of_a(alloc: Global, given: &[u8]) -> Result<Text, AllocError> {
    let groups = groups_of(alloc, given)?;
    let name = Text::from_bytes(alloc, b"@a")?;
    match members(alloc, &groups, &name) {
        Ok(hosts) => join(alloc, b" ", hosts.items()),
        Err(MembersFault::Group(GroupFault::NoSuch(missing))) => with_word(alloc, b"no", &missing),
        Err(MembersFault::Group(GroupFault::Cycle(again))) => with_word(alloc, b"again", &again),
        Err(MembersFault::NoMemory) => Err(AllocError),
    }
}

// The hosts of all groups.
fn spelled(alloc: Global, given: &[u8]) -> Result<Groups, AllocError> {
    let mut cluster = opening(alloc)?;
    cluster.groups = groups_of(alloc, given)?;
    expand(alloc, &cluster)
}

// Groups as they are written.
fn written(alloc: Global, groups: &Groups) -> Result<Text, AllocError> {
    let mut line = Text::new(alloc);
    for (name, hosts) in groups.hosts.iter() {
        let hosts = join(alloc, b" ", hosts.items())?;
        append_all(&mut line, &[name.bytes(), b"=", hosts.bytes(), b";"])?;
    }
    Ok(line)
}

// What the calls on all groups answer: the groups, and behind bars the name of a group and of a host.
fn answer_of_all(alloc: Global, name: &[u8], given: &[u8]) -> Result<Text, AllocError> {
    let groups = spelled(alloc, before(b'|', given))?;
    let rest = behind(b'|', given);
    let group = Text::from_bytes(alloc, before(b'|', rest))?;
    let host = Text::from_bytes(alloc, behind(b'|', rest))?;
    if is_named(name, b"expand") {
        written(alloc, &groups)
    } else if is_named(name, b"group_has") {
        yes_or_no(alloc, group_has(&groups, &group, &host))
    } else if is_named(name, b"hosts_of") {
        join(alloc, b" ", hosts_of(&groups, &group))
    } else {
        no_call(alloc)
    }
}

/// What a call answers: `members`, `has_loop` and `expand` are given groups, `group_has` and `hosts_of` further names, and
/// `is_a_group` a name.
pub(crate) fn answer(alloc: Global, name: &[u8], given: &[u8]) -> Result<Text, AllocError> {
    if is_named(name, b"members") {
        hosts_of_a(alloc, given)
    } else if is_named(name, b"has_loop") {
        let groups = groups_of(alloc, given)?;
        yes_or_no(alloc, has_loop(alloc, &groups)?)
    } else if is_named(name, b"is_a_group") {
        yes_or_no(alloc, is_a_group(given))
    } else {
        answer_of_all(alloc, name, given)
    }
}
