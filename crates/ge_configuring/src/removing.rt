// Objects deleted.
ghost use Rattle.std.specs.Prelude.{◌≡◌, ◌++◌, IfOk, OnOk};
ghost use Rattle.std.specs.List.{list_all};
ghost use Rattle.ge_collections.specs.Keyed.{text_eq};
ghost use Rattle.ge_model_core.specs.Configuring.{delist_faults, object_faults, remove_faults, manager_faults, remove_plan};
ghost use Rattle.ge_model_rows.specs.Faults.{after_faults, first_fault};

use crate::deciding::role_fault;
use crate::there::is_there;
use crate::using::is_used;
use ge_answers::{done, refuse};
use ge_base::Refusal;
use ge_pieces::{is_among, is_same, note};
use ge_rows::{Change, Cluster, Event, Key, ObjectKind, Planned, Text, Twin};
use std::alloc::{AllocError, Global};

fn is_every(name: &Text, names: &[Text]) -> bool
    ensures { result ≡ list_all (text_eq name.now) names.now }
{
    names.iter().all(|other| is_same(name, other))
}

// What refuses that a name leaves a list that may have to keep somebody.
fn note_leaving(needed: bool, names: &[Text], name: &Text, faults: &mut Option<Refusal>)
    ensures { faults.new ≡ after_faults faults.old (delist_faults needed names.now name.now) }
{
    if is_among(name, names) {
        note(faults, needed && is_every(name, names), Refusal::InUse);
    } else {
        note(faults, true, Refusal::NoSuchObject);
    }
}

fn note_object(
    alloc: Global,
    c: &Cluster,
    kind: ObjectKind,
    name: &Text,
    faults: &mut Option<Refusal>,
) -> Result<(), AllocError>
    ensures { OnOk result (faults.new ≡ after_faults faults.old
        (object_faults c.now kind name.now)) }
{
    if is_there(c, kind, name) {
        note(faults, is_used(alloc, c, kind, name)?, Refusal::InUse);
    } else {
        note(faults, true, Refusal::NoSuchObject);
    }
    Ok(())
}

fn note_removal(
    alloc: Global,
    c: &Cluster,
    kind: ObjectKind,
    name: &Text,
    faults: &mut Option<Refusal>,
) -> Result<(), AllocError>
    ensures { OnOk result (faults.new ≡ after_faults faults.old
        (remove_faults c.now kind name.now)) }
{
    match kind {
        ObjectKind::Managers => note_leaving(true, c.managers.items(), name, faults),
        ObjectKind::Operators => note_leaving(false, c.operators.items(), name, faults),
        ObjectKind::Shares => {}
        ObjectKind::Complexes
        | ObjectKind::Host
        | ObjectKind::Group
        | ObjectKind::Queue
        | ObjectKind::Pe
        | ObjectKind::Quota
        | ObjectKind::Set
        | ObjectKind::User
        | ObjectKind::Project
        | ObjectKind::Sched => note_object(alloc, c, kind, name, faults)?,
    }
    Ok(())
}

fn removal_fault(
    alloc: Global,
    c: &Cluster,
    e: &Event,
    key: &Key,
) -> Result<Option<Refusal>, AllocError>
    ensures { IfOk result (λ fault. fault ≡ first_fault
        (manager_faults c.now e.now ++ remove_faults c.now key.now.kind key.now.name)) }
{
    let mut faults = role_fault(c, e);
    note_removal(alloc, c, key.kind, &key.name, &mut faults)?;
    Ok(faults)
}

/// The plan of `qconf -d` and its kin: an object is deleted, or a name leaves the managers (`-dm`) or the operators (`-do`). The
/// line is `done`.
///
/// `NoSuchObject` comes for an object that isn't there, and `InUse` for one that is used, and for the last manager; the share
/// tree may always go. `NotPermitted` comes where the user is no manager. See the manual page qconf.
#[tactic(auto, unfolding(ge_model_core::specs::Configuring::remove_plan))]
pub fn plan_removal(alloc: Global, c: &Cluster, e: &Event, key: &Key) -> Result<Planned, AllocError>
    ensures { IfOk result (λ planned. planned ≡ remove_plan c.now e.now key.now) }
{
    if let Some(refusal) = removal_fault(alloc, c, e, key)? {
        return refuse(alloc, refusal);
    }
    let key = key.twin(alloc)?;
    done(alloc, e, Change::Drop(key))
}
