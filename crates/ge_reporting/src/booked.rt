// The plan of qrdel.
ghost use Rattle.std.specs.Prelude.{◌≡◌, ◌++◌, IfOk, codes, decimal, flat_map, length};
ghost use Rattle.std.specs.Option.{option_copied};
ghost use Rattle.ge_model_rows.specs.Access as access;
ghost use Rattle.ge_model_rows.specs.Faults.{after_faults, first_fault};
ghost use Rattle.ge_model_core.specs.Booking.{unbook_faults_of, unbook_faults, unbook_plan};

use crate::joining::is_joined;
use ge_answers::{accept, refuse};
use ge_base::Refusal;
use ge_deleting::each_once;
use ge_pieces::{is_same, note};
use ge_rows::{Advance, Change, Cluster, Event, List, Planned, Text};
use ge_site::is_operator;
use std::alloc::{AllocError, Global};

// What refuses that a reservation that was looked up is given up. Whether the user is an operator is known before.
fn note_booked(
    alloc: Global,
    cluster: &Cluster,
    e: &Event,
    operates: bool,
    number: u32,
    booked: Option<&Advance>,
    faults: &mut Option<Refusal>,
)
    requires { operates ≡ access.is_operator cluster.now e.now.user }
    ensures { faults.new ≡ after_faults faults.old
        (unbook_faults_of cluster.now e.now number (option_copied booked.entry)) }
{
    let Some(booked) = booked else {
        note(faults, true, Refusal::NoSuchObject);
        return;
    };
    let is_foreign = !is_same(&booked.owner, &e.user) && !operates;
    note(faults, is_foreign, Refusal::NotPermitted);
    let joined = is_joined(alloc, &cluster.jobs, number);
    note(faults, joined, Refusal::InUse);
}

fn note_number(
    alloc: Global,
    cluster: &Cluster,
    e: &Event,
    operates: bool,
    number: u32,
    faults: &mut Option<Refusal>,
)
    requires { operates ≡ access.is_operator cluster.now e.now.user }
    ensures { faults.new ≡ after_faults faults.old (unbook_faults cluster.now e.now number) }
{
    let booked = cluster.advances.get(&number);
    note_booked(alloc, cluster, e, operates, number, booked, faults);
}

fn unbooking_fault(alloc: Global, cluster: &Cluster, e: &Event, numbers: &[u32]) -> Option<Refusal>
    ensures { result ≡ first_fault (flat_map (unbook_faults cluster.now e.now) numbers.now) }
{
    let operates = is_operator(cluster, &e.user);
    let mut faults = None;
    for number in numbers {
        note_number(alloc, cluster, e, operates, *number, &mut faults);
    }
    faults
}

fn removed_line(alloc: Global, numbers: &List<u32>) -> Result<Text, AllocError>
    ensures { IfOk result (λ line. line ≡ codes "removed " ++ decimal (length numbers.now)) }
{
    let mut line = Text::from_bytes(alloc, b"removed ")?;
    line.append(numbers.len().to_string(alloc)?.as_bytes())?;
    Ok(line)
}

/// The plan of `qrdel`: advance reservations are given up, each named once. The line is `removed N`, the number of reservations.
///
/// `NoSuchObject` comes for a number that no reservation has, `NotPermitted` for one of another owner where the user is no
/// operator, and `InUse` for one that a live job joined. See the manual page qrdel.
#[tactic(auto, unfolding(ge_model_core::specs::Booking::unbook_plan))]
pub fn plan_unbooking(
    alloc: Global,
    cluster: &Cluster,
    e: &Event,
    numbers: &List<u32>,
) -> Result<Planned, AllocError>
    ensures { IfOk result (λ planned. planned ≡ unbook_plan cluster.now e.now numbers.now) }
{
    if let Some(refusal) = unbooking_fault(alloc, cluster, e, numbers.items()) {
        return refuse(alloc, refusal);
    }
    let once = each_once(alloc, numbers.items())?;
    let line = removed_line(alloc, &once)?;
    accept(alloc, e, Change::Unbook(once), line)
}
