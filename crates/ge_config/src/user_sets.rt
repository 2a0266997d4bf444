//! User sets: access_list(5).

ghost use Rattle.std.specs.Prelude.{◌≡◌};
ghost use Rattle.std.specs.List.{list_all};
ghost use Rattle.ge_model_config.specs.UserSets.{is_member_name, set_item};
ghost use Rattle.ge_pieces.specs.Gives.{Reads};

use crate::named::{given_text, note_name};
use ge_base::Refusal;
use ge_commands::value_or;
use ge_limits::USER_SETS;
use ge_pieces::{is_a_group_name, is_a_name, items_of_list, note};
use ge_rows::{Cluster, Item, ObjectKind, Text};
use std::alloc::{AllocError, Global};

fn may_be_member(entry: &Text) -> bool
    ensures { result ≡ is_member_name entry.now }
{
    is_a_name(entry.bytes()) || is_a_group_name(entry.bytes())
}

fn may_be_members(entries: &[Text]) -> bool
    ensures { result ≡ list_all is_member_name entries.now }
{
    entries.iter().all(|entry| may_be_member(entry))
}

/// A user set: users, and groups of users with their at sign.
#[tactic(auto, unfolding(ge_model_config::specs::UserSets::set_item))]
pub fn read_user_set(
    alloc: Global,
    c: &Cluster,
    adding: bool,
    values: &[(Text, Text)],
    faults: &mut Option<Refusal>,
) -> Result<Item, AllocError>
    ensures { Reads result faults.old faults.new (set_item c.now adding values.now) }
{
    let name = given_text(alloc, values, b"name", b"")?;
    let entries = items_of_list(alloc, value_or(values, b"entries", b"NONE"))?;
    note_name(faults, ObjectKind::Set, USER_SETS, &c.sets, adding, &name);
    note(faults, !may_be_members(entries.items()), Refusal::BadValue);
    Ok(Item::Set(name, entries))
}
