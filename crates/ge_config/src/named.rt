//! The name of an object, and what this system doesn't have.

ghost use Rattle.std.specs.Prelude.{◌≡◌, IfOk};
ghost use Rattle.ge_model_rows.specs.EntryRows.{ObjectKind};
ghost use Rattle.ge_model_rows.specs.Faults.{after_faults};
ghost use Rattle.ge_model_grammar.specs.Configuring.{is_name_of};
ghost use Rattle.ge_model_config.specs.Cited.{given};
ghost use Rattle.ge_model_config.specs.Named.{added_faults, changed_faults, name_faults, is_left_out, absent_faults};

use crate::values::is_there;
use ge_base::Refusal;
use ge_commands::value_or;
use ge_pieces::{is_a_group_name, is_a_name, is_word, note};
use ge_rows::{ObjectKind, Table, Text};
use std::alloc::{AllocError, Global};

/// A copy of what a body gives an attribute, or of its default.
pub(crate) fn given_text(
    alloc: Global,
    values: &[(Text, Text)],
    attribute: &[u8],
    fallback: &[u8],
) -> Result<Text, AllocError>
    ensures { IfOk result (λ text. text ≡ given values.now attribute.now fallback.now) }
{
    Text::from_bytes(alloc, value_or(values, attribute, fallback))
}

fn is_a_name_of(kind: ObjectKind, text: &[u8]) -> bool
    ensures { result ≡ is_name_of kind text.now }
{
    match kind {
        ObjectKind::Group => is_a_group_name(text),
        _ => is_a_name(text),
    }
}

// A new object takes a name that is free, and a place where its table has one.
fn note_added<V>(faults: &mut Option<Refusal>, most: usize, table: &Table<Text, V>, name: &Text)
    ensures { faults.new ≡ after_faults faults.old (added_faults most table.now name.now) }
{
    let named = is_there(table, name);
    note(faults, named, Refusal::Exists);
    note(faults, !named && most <= table.len(), Refusal::Limit);
}

// An object to be changed has to be there.
fn note_changed<V>(faults: &mut Option<Refusal>, table: &Table<Text, V>, name: &Text)
    ensures { faults.new ≡ after_faults faults.old (changed_faults table.now name.now) }
{
    note(faults, !is_there(table, name), Refusal::NoSuchObject);
}

/// Notes what refuses the name of an object, of the form that its kind has, in a table that holds so many.
pub(crate) fn note_name<V>(
    faults: &mut Option<Refusal>,
    kind: ObjectKind,
    most: usize,
    table: &Table<Text, V>,
    adding: bool,
    name: &Text,
)
    ensures { faults.new ≡ after_faults faults.old
        (name_faults kind most table.now adding name.now) }
{
    note(faults, !is_a_name_of(kind, name.bytes()), Refusal::BadValue);
    if adding {
        note_added(faults, most, table, name);
    } else {
        note_changed(faults, table, name);
    }
}

fn is_none_if_at_all(values: &[(Text, Text)], attribute: &[u8]) -> bool
    ensures { result ≡ is_left_out values.now attribute.now }
{
    is_word(value_or(values, attribute, b"NONE"), b"NONE")
}

/// Notes where a host has what this system doesn't have (host_conf(5)).
pub(crate) fn note_absent_of_host(faults: &mut Option<Refusal>, values: &[(Text, Text)])
    ensures { faults.new ≡ after_faults faults.old (absent_faults ObjectKind.Host values.now) }
{
    let are_absent = is_none_if_at_all(values, b"user_lists")
        && is_none_if_at_all(values, b"xuser_lists")
        && is_none_if_at_all(values, b"projects")
        && is_none_if_at_all(values, b"xprojects");
    note(faults, !are_absent, Refusal::BadValue);
}

/// Notes where a queue has what this system doesn't have (queue_conf(5)).
pub(crate) fn note_absent_of_queue(faults: &mut Option<Refusal>, values: &[(Text, Text)])
    ensures { faults.new ≡ after_faults faults.old (absent_faults ObjectKind.Queue values.now) }
{
    let are_absent = is_none_if_at_all(values, b"subordinate_list")
        && is_none_if_at_all(values, b"calendar")
        && is_none_if_at_all(values, b"suspend_thresholds")
        && is_none_if_at_all(values, b"prolog")
        && is_none_if_at_all(values, b"epilog");
    note(faults, !are_absent, Refusal::BadValue);
}
