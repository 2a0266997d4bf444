//! Groups of hosts: hostgroup(5).

ghost use Rattle.std.specs.Prelude.{◌≡◌, OnOk};
ghost use Rattle.ge_collections.specs.Keyed.{put_text};
ghost use Rattle.ge_model_rows.specs.Faults.{after_faults};
ghost use Rattle.ge_model_config.specs.Groups.{group_item, loops_among};
ghost use Rattle.ge_pieces.specs.Gives.{Reads};

use crate::named::{given_text, note_name};
use crate::values::read_hostlist;
use ge_base::Refusal;
use ge_commands::value_or;
use ge_limits::HOST_GROUPS;
use ge_pieces::note;
use ge_rows::{Cluster, Item, List, ObjectKind, Table, Text, Twin, twins2};
use ge_site::has_loop;
use std::alloc::{AllocError, Global};

// Notes where a group reaches itself once this one is there.
fn note_loops(
    alloc: Global,
    groups: &Table<Text, List<Text>>,
    name: &Text,
    hosts: &List<Text>,
    faults: &mut Option<Refusal>,
) -> Result<(), AllocError>
    ensures { OnOk result
        (faults.new ≡ after_faults faults.old (loops_among
        (put_text groups.now name.now hosts.now))) }
{
    let mut groups = groups.twin(alloc)?;
    let (name, hosts) = twins2(alloc, name, hosts)?;
    groups.insert(name, hosts)?;
    let loops = has_loop(alloc, &groups)?;
    note(faults, loops, Refusal::Cycle);
    Ok(())
}

/// A group of hosts and other groups; none may reach itself.
#[tactic(auto, unfolding(ge_model_config::specs::Groups::group_item))]
pub fn read_group(
    alloc: Global,
    c: &Cluster,
    adding: bool,
    values: &[(Text, Text)],
    faults: &mut Option<Refusal>,
) -> Result<Item, AllocError>
    ensures { Reads result faults.old faults.new (group_item c.now adding values.now) }
{
    let name = given_text(alloc, values, b"group_name", b"")?;
    note_name(
        faults,
        ObjectKind::Group,
        HOST_GROUPS,
        &c.groups,
        adding,
        &name,
    );
    let hosts = read_hostlist(alloc, c, value_or(values, b"hostlist", b"NONE"), faults)?;
    note_loops(alloc, &c.groups, &name, &hosts, faults)?;
    Ok(Item::Group(name, hosts))
}
