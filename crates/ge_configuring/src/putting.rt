// Objects put.
ghost use Rattle.std.specs.Prelude.{◌≡◌, IfOk};
ghost use Rattle.ge_model_core.specs.Configuring.{put, body_plan, add_plan, modify_plan, enlisted as enlisted_in, enlist_faults};
ghost use Rattle.ge_model_config.specs.Reading.{item_of};
ghost use Rattle.ge_model_rows.specs.EntryRows.{Item as ItemRow};

use crate::deciding::{decide, role_fault};
use crate::enlisting::{enlist_fault, enlisted};
use ge_answers::{done, refuse};
use ge_base::Refusal;
use ge_commands::body;
use ge_config::read_item;
use ge_model_grammar::Body;
use ge_pieces::ReadFault;
use ge_rows::{Change, Cluster, Event, Item, ObjectKind, Own, Planned, Text};
use std::alloc::{AllocError, Global};

fn add_manager(alloc: Global, c: &Cluster, e: &Event, name: &Text) -> Result<Planned, AllocError>
    ensures { IfOk result (λ planned. planned ≡ put c.now e.now (
      ItemRow.Managers (enlisted_in c.now.managers name.now),
      enlist_faults c.now.managers name.now,
    )) }
{
    if let Some(refusal) = enlist_fault(c, e, c.managers.items(), name) {
        return refuse(alloc, refusal);
    }
    let names = enlisted(alloc, &c.managers, name)?;
    let item = Own::new(alloc, Item::Managers(names))?;
    done(alloc, e, Change::Put(item))
}

fn add_operator(alloc: Global, c: &Cluster, e: &Event, name: &Text) -> Result<Planned, AllocError>
    ensures { IfOk result (λ planned. planned ≡ put c.now e.now (
      ItemRow.Operators (enlisted_in c.now.operators name.now),
      enlist_faults c.now.operators name.now,
    )) }
{
    if let Some(refusal) = enlist_fault(c, e, c.operators.items(), name) {
        return refuse(alloc, refusal);
    }
    let names = enlisted(alloc, &c.operators, name)?;
    let item = Own::new(alloc, Item::Operators(names))?;
    done(alloc, e, Change::Put(item))
}

// All of the body is read, also where the user may not: a refusal with an earlier code may answer.
fn put_read(
    alloc: Global,
    c: &Cluster,
    e: &Event,
    kind: ObjectKind,
    adding: bool,
    parts: &Body,
) -> Result<Planned, AllocError>
    ensures { IfOk result (λ planned. planned
        ≡ put c.now e.now (item_of c.now kind adding parts.now)) }
{
    let mut faults = role_fault(c, e);
    let item = read_item(alloc, c, kind, adding, parts, &mut faults)?;
    let item = Own::new(alloc, item)?;
    decide(alloc, e, faults, Change::Put(item))
}

#[tactic(auto, unfolding(ge_model_core::specs::Configuring::body_plan))]
fn put_body(
    alloc: Global,
    c: &Cluster,
    e: &Event,
    kind: ObjectKind,
    adding: bool,
    text: &Text,
) -> Result<Planned, AllocError>
    ensures { IfOk result (λ planned. planned ≡ body_plan c.now e.now kind adding text.now) }
{
    match body(alloc, kind, text.bytes()) {
        Ok(parts) => put_read(alloc, c, e, kind, adding, &parts),
        Err(ReadFault::Syntax) => refuse(alloc, Refusal::Syntax),
        Err(ReadFault::Memory) => Err(AllocError),
    }
}

/// The plan of `qconf -A` and its kin: an object is added that the body of the command makes, or a name joins the managers
/// (`-am`) or the operators (`-ao`). The line is `done`.
///
/// `Syntax` comes for a body off its grammar, whoever asks. `NotPermitted` comes where the user is no manager. `Exists` comes for
/// an object or a name that is there, `Limit` where there is no place for one more, `NoSuchObject`, `BadValue` and `Cycle` for
/// what a body cites and says. See the manual page qconf.
pub fn plan_addition(
    alloc: Global,
    c: &Cluster,
    e: &Event,
    kind: ObjectKind,
    text: &Text,
) -> Result<Planned, AllocError>
    ensures { IfOk result (λ planned. planned ≡ add_plan c.now e.now kind text.now) }
{
    match kind {
        ObjectKind::Managers => add_manager(alloc, c, e, text),
        ObjectKind::Operators => add_operator(alloc, c, e, text),
        ObjectKind::Complexes
        | ObjectKind::Host
        | ObjectKind::Group
        | ObjectKind::Queue
        | ObjectKind::Pe
        | ObjectKind::Quota
        | ObjectKind::Set
        | ObjectKind::User
        | ObjectKind::Project
        | ObjectKind::Shares
        | ObjectKind::Sched => put_body(alloc, c, e, kind, true, text),
    }
}

/// The plan of `qconf -M` and its kin: the object that the body of the command makes takes the place of one that is there. The
/// line is `done`.
///
/// `Syntax` comes for a body off its grammar, whoever asks, and for the lists of managers and operators, which have no body.
/// `NoSuchObject` comes for an object that isn't there, `NotPermitted` where the user is no manager, and further refusals for what
/// a body cites and says. See the manual page qconf.
pub fn plan_modification(
    alloc: Global,
    c: &Cluster,
    e: &Event,
    kind: ObjectKind,
    text: &Text,
) -> Result<Planned, AllocError>
    ensures { IfOk result (λ planned. planned ≡ modify_plan c.now e.now kind text.now) }
{
    put_body(alloc, c, e, kind, false, text)
}
