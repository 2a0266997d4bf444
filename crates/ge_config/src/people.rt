//! Users and projects: user(5), project(5).

ghost use Rattle.ge_model_config.specs.People.{tickets_read, user_item, project_item};
ghost use Rattle.ge_pieces.specs.Gives.{Reads};

use crate::named::{given_text, note_name};
use crate::values::{Names, Number, Reader};
use ge_base::Refusal;
use ge_commands::value_or;
use ge_limits::{PROJECTS, USERS};
use ge_rows::{Cluster, Item, Kind, ObjectKind, ProjectRow, Text, UserRow};
use std::alloc::{AllocError, Global};

// Tickets or shares, below 2^32, and 0 where a body leaves them out.
fn read_tickets(
    alloc: Global,
    values: &[(Text, Text)],
    attribute: &[u8],
    faults: &mut Option<Refusal>,
) -> Result<u64, AllocError>
    ensures { Reads result faults.old faults.new (tickets_read values.now attribute.now) }
{
    let tickets = Number {
        kind: Kind::Int,
        low: 0,
        high: u64::from(u32::MAX),
    };
    tickets.read(alloc, value_or(values, attribute, b"0"), faults)
}

/// A user's tickets.
#[tactic(auto, unfolding(ge_model_config::specs::People::user_item))]
pub fn read_user(
    alloc: Global,
    c: &Cluster,
    adding: bool,
    values: &[(Text, Text)],
    faults: &mut Option<Refusal>,
) -> Result<Item, AllocError>
    ensures { Reads result faults.old faults.new (user_item c.now adding values.now) }
{
    let name = given_text(alloc, values, b"name", b"")?;
    note_name(faults, ObjectKind::User, USERS, &c.users, adding, &name);
    let fshare = read_tickets(alloc, values, b"fshare", faults)?;
    let oticket = read_tickets(alloc, values, b"oticket", faults)?;
    Ok(Item::User(name, UserRow { fshare, oticket }))
}

/// A project's tickets, and who may use it.
#[tactic(auto, unfolding(ge_model_config::specs::People::project_item))]
pub fn read_project(
    alloc: Global,
    c: &Cluster,
    adding: bool,
    values: &[(Text, Text)],
    faults: &mut Option<Refusal>,
) -> Result<Item, AllocError>
    ensures { Reads result faults.old faults.new (project_item c.now adding values.now) }
{
    let name = given_text(alloc, values, b"name", b"")?;
    note_name(
        faults,
        ObjectKind::Project,
        PROJECTS,
        &c.projects,
        adding,
        &name,
    );
    let fshare = read_tickets(alloc, values, b"fshare", faults)?;
    let oticket = read_tickets(alloc, values, b"oticket", faults)?;
    let sets = Names { table: &c.sets };
    let acl = sets.read(alloc, value_or(values, b"acl", b"NONE"), faults)?;
    let xacl = sets.read(alloc, value_or(values, b"xacl", b"NONE"), faults)?;
    Ok(Item::Project(
        name,
        ProjectRow {
            fshare,
            oticket,
            acl,
            xacl,
        },
    ))
}
