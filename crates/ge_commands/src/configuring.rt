//! The forms of qconf.

ghost use Rattle.std.specs.Prelude.{◌≡◌, ◌∷◌, [], Some};
ghost use Rattle.ge_collections.specs.Keyed.{at_text};
ghost use Rattle.ge_model_grammar.specs.Configuring.{named_kinds, added_kinds, modified_kinds, list_kinds, removed_kinds, printed_kinds, single_kinds, is_name_of, with_body, with_name, nameless_command, removal, printing, stopping, bare_form, config_command};
ghost use Rattle.ge_pieces.specs.Gives.{Gives};
ghost use Rattle.ge_commands.specs.Lent.{texts};
ghost use Rattle.ge_commands.specs.Made.{body_made, name_made};

use crate::bodies::body;
use crate::naming::is_key;
use ge_pieces::{ReadFault, begins, is_a_group_name, is_a_name, is_word};
use ge_rows::{Command, Key, ObjectKind, Text};
use std::alloc::{AllocError, Global};

/// A command with a body.
#[derive(Clone, Copy)]
pub(crate) enum BodyVerb {
    /// -A
    Add,
    /// -M
    Modify,
}

/// A command on one object or on one name.
#[derive(Clone, Copy)]
pub(crate) enum NameVerb {
    /// -a: a name is added to a list.
    Add,
    /// -d
    Remove,
    /// -s
    Print,
}

// The kind that has a name, by what stands behind -A, -M, -d and -s.
fn named_kind(word: &[u8]) -> Option<ObjectKind>
    ensures { result ≡ at_text named_kinds word.now }
{
    if is_key(word, b"q") {
        Some(ObjectKind::Queue)
    } else if is_key(word, b"hgrp") {
        Some(ObjectKind::Group)
    } else if is_key(word, b"e") {
        Some(ObjectKind::Host)
    } else if is_key(word, b"p") {
        Some(ObjectKind::Pe)
    } else if is_key(word, b"rqs") {
        Some(ObjectKind::Quota)
    } else if is_key(word, b"prj") {
        Some(ObjectKind::Project)
    } else if is_key(word, b"user") {
        Some(ObjectKind::User)
    } else {
        None
    }
}

fn added_kind(word: &[u8]) -> Option<ObjectKind>
    ensures { result ≡ at_text added_kinds word.now }
{
    if is_key(word, b"u") {
        Some(ObjectKind::Set)
    } else if is_key(word, b"stree") {
        Some(ObjectKind::Shares)
    } else if is_key(word, b"c") {
        Some(ObjectKind::Complexes)
    } else {
        named_kind(word)
    }
}

fn modified_kind(word: &[u8]) -> Option<ObjectKind>
    ensures { result ≡ at_text modified_kinds word.now }
{
    if is_key(word, b"sconf") {
        Some(ObjectKind::Sched)
    } else {
        added_kind(word)
    }
}

fn list_kind(word: &[u8]) -> Option<ObjectKind>
    ensures { result ≡ at_text list_kinds word.now }
{
    if is_key(word, b"m") {
        Some(ObjectKind::Managers)
    } else if is_key(word, b"o") {
        Some(ObjectKind::Operators)
    } else {
        None
    }
}

fn removed_kind(word: &[u8]) -> Option<ObjectKind>
    ensures { result ≡ at_text removed_kinds word.now }
{
    if is_key(word, b"ul") {
        Some(ObjectKind::Set)
    } else if is_key(word, b"m") {
        Some(ObjectKind::Managers)
    } else if is_key(word, b"o") {
        Some(ObjectKind::Operators)
    } else {
        named_kind(word)
    }
}

fn printed_kind(word: &[u8]) -> Option<ObjectKind>
    ensures { result ≡ at_text printed_kinds word.now }
{
    if is_key(word, b"u") {
        Some(ObjectKind::Set)
    } else {
        named_kind(word)
    }
}

fn single_kind(word: &[u8]) -> Option<ObjectKind>
    ensures { result ≡ at_text single_kinds word.now }
{
    if is_key(word, b"stree") {
        Some(ObjectKind::Shares)
    } else if is_key(word, b"c") {
        Some(ObjectKind::Complexes)
    } else if is_key(word, b"sconf") {
        Some(ObjectKind::Sched)
    } else {
        list_kind(word)
    }
}

fn is_a_name_of(kind: ObjectKind, word: &[u8]) -> bool
    ensures { result ≡ is_name_of kind word.now }
{
    match kind {
        ObjectKind::Group => is_a_group_name(word),
        _ => is_a_name(word),
    }
}

fn body_command(verb: BodyVerb, kind: ObjectKind, text: Text) -> Command
    ensures { result ≡ body_made verb kind text }
{
    match verb {
        BodyVerb::Add => Command::Add(kind, text),
        BodyVerb::Modify => Command::Modify(kind, text),
    }
}

fn name_command(verb: NameVerb, key: Key) -> Command
    ensures { result ≡ name_made verb key }
{
    match verb {
        NameVerb::Add => Command::Add(key.kind, key.name),
        NameVerb::Remove => Command::Remove(key),
        NameVerb::Print => Command::Print(key),
    }
}

// The command of a body that is in its grammar; one further word, the name of a file, is read without effect.
fn read_with_body(
    alloc: Global,
    verb: BodyVerb,
    kind: Option<ObjectKind>,
    words: &[&[u8]],
    text: &[u8],
) -> Result<Command, ReadFault>
    ensures { Gives result (with_body (body_made verb) kind (texts words.now) text.now) }
{
    match kind {
        None => Err(ReadFault::Syntax),
        Some(kind) => {
            if words.len() > 1 {
                return Err(ReadFault::Syntax);
            }
            let _read = body(alloc, kind, text)?;
            Ok(body_command(verb, kind, Text::from_bytes(alloc, text)?))
        }
    }
}

// The command of one name.
fn read_with_name(
    alloc: Global,
    verb: NameVerb,
    kind: Option<ObjectKind>,
    words: &[&[u8]],
) -> Result<Command, ReadFault>
    ensures { Gives result (with_name (name_made verb) kind (texts words.now)) }
{
    match (kind, words) {
        (Some(kind), [word]) => {
            if !is_a_name_of(kind, word) {
                return Err(ReadFault::Syntax);
            }
            let name = Text::from_bytes(alloc, word)?;
            Ok(name_command(verb, Key { kind, name }))
        }
        _ => Err(ReadFault::Syntax),
    }
}

// The command of an object that has no name.
fn read_without_name(
    alloc: Global,
    verb: NameVerb,
    kind: Option<ObjectKind>,
) -> Result<Command, ReadFault>
    ensures { Gives result (nameless_command (name_made verb) kind) }
{
    match kind {
        None => Err(ReadFault::Syntax),
        Some(kind) => Ok(name_command(
            verb,
            Key {
                kind,
                name: Text::new(alloc),
            },
        )),
    }
}

// -dstree, the one that takes no name.
fn read_tree_removal(alloc: Global, word: &[u8]) -> Result<Command, ReadFault>
    ensures { Gives result (removal word.now []) }
{
    if is_word(word, b"stree") {
        read_without_name(alloc, NameVerb::Remove, Some(ObjectKind::Shares))
    } else {
        Err(ReadFault::Syntax)
    }
}

// -d with a name, or -dstree.
fn read_removal(alloc: Global, word: &[u8], words: &[&[u8]]) -> Result<Command, ReadFault>
    ensures { Gives result (removal word.now (texts words.now)) }
{
    if words.is_empty() {
        read_tree_removal(alloc, word)
    } else {
        read_with_name(alloc, NameVerb::Remove, removed_kind(word), words)
    }
}

// -s with a name, or of what there is one alone.
fn read_printing(alloc: Global, word: &[u8], words: &[&[u8]]) -> Result<Command, ReadFault>
    ensures { Gives result (printing word.now (texts words.now)) }
{
    if words.is_empty() {
        read_without_name(alloc, NameVerb::Print, single_kind(word))
    } else {
        read_with_name(alloc, NameVerb::Print, printed_kind(word), words)
    }
}

// -km
fn read_stopping(words: &[&[u8]]) -> Result<Command, ReadFault>
    ensures { Gives result (stopping (texts words.now)) }
{
    if words.is_empty() {
        Ok(Command::Stop)
    } else {
        Err(ReadFault::Syntax)
    }
}

// The commands that have no body.
fn read_bare_form(alloc: Global, option: &[u8], words: &[&[u8]]) -> Result<Command, ReadFault>
    ensures { Gives result (bare_form option.now (texts words.now)) }
{
    if is_word(option, b"-km") {
        return read_stopping(words);
    }
    match option {
        [b'-', b'd', word @ ..] => read_removal(alloc, word, words),
        [b'-', b's', word @ ..] => read_printing(alloc, word, words),
        [b'-', b'a', word @ ..] => { read_with_name(alloc, NameVerb::Add, list_kind(word), words) }
        _ => Err(ReadFault::Syntax),
    }
}

/// qconf: the words behind it, and the text behind the command line.
#[tactic(auto, unfolding(ge_model_grammar::specs::Configuring::config_command))]
pub(crate) fn read_configuring(
    alloc: Global,
    words: &[&[u8]],
    text: &[u8],
) -> Result<Command, ReadFault>
    ensures { Gives result (config_command (texts words.now) text.now) }
{
    let [option, rest @ ..] = words else {
        return Err(ReadFault::Syntax);
    };
    match option {
        [b'-', b'A', word @ ..] => {
            read_with_body(alloc, BodyVerb::Add, added_kind(word), rest, text)
        }
        [b'-', b'M', word @ ..] => {
            read_with_body(alloc, BodyVerb::Modify, modified_kind(word), rest, text)
        }
        _ => {
            if text.is_empty() {
                read_bare_form(alloc, option, rest)
            } else {
                Err(ReadFault::Syntax)
            }
        }
    }
}
