// Names put at the end of a list of managers or operators.
ghost use Rattle.std.specs.Prelude.{◌≡◌, ◌++◌, IfOk};
ghost use Rattle.ge_model_core.specs.Configuring as plans;
ghost use Rattle.ge_model_core.specs.Configuring.{manager_faults, enlist_faults};
ghost use Rattle.ge_model_rows.specs.Faults.{after_faults, first_fault};

use crate::deciding::role_fault;
use ge_base::Refusal;
use ge_limits::MANAGERS;
use ge_pieces::{is_among, note};
use ge_rows::{Cluster, Event, List, Text, Twin};
use std::alloc::{AllocError, Global};

fn note_enlisting(names: &[Text], name: &Text, faults: &mut Option<Refusal>)
    ensures { faults.new ≡ after_faults faults.old (enlist_faults names.now name.now) }
{
    if is_among(name, names) {
        note(faults, true, Refusal::Exists);
    } else {
        note(faults, names.len() >= MANAGERS, Refusal::Limit);
    }
}

/// What refuses a name: `NotPermitted` where the user is no manager, `Exists` where the list has the name, `Limit` where it is
/// full.
pub(crate) fn enlist_fault(c: &Cluster, e: &Event, names: &[Text], name: &Text) -> Option<Refusal>
    ensures { result
        ≡ first_fault (manager_faults c.now e.now ++ enlist_faults names.now name.now) }
{
    let mut faults = role_fault(c, e);
    note_enlisting(names, name, &mut faults);
    faults
}

/// A list of names with one more.
pub(crate) fn enlisted(
    alloc: Global,
    names: &List<Text>,
    name: &Text,
) -> Result<List<Text>, AllocError>
    ensures { IfOk result (λ more. more ≡ plans.enlisted names.now name.now) }
{
    let mut more = names.twin(alloc)?;
    more.push(name.twin(alloc)?)?;
    Ok(more)
}
