// The plans of qhold and qrls.
ghost use Rattle.std.specs.Prelude.{◌≡◌, ◌++◌, ◌&&◌, not, IfOk, codes, decimal, flat_map, length};
ghost use Rattle.ge_collections.specs.Keyed.{at_number};
ghost use Rattle.ge_model_rows.specs.Access.{is_manager, is_operator};
ghost use Rattle.ge_model_rows.specs.Faults.{after_faults, first_fault};
ghost use Rattle.ge_model_core.specs.Holding.{has_user_bit, has_operator_bit, has_system_bit, job_hold_faults, hold_plan_faults, hold_plan, release_plan};

use crate::asker::Asker;
use crate::meeting::each_once;
use ge_answers::{accept, refuse};
use ge_base::Refusal;
use ge_pieces::note;
use ge_rows::{Change, Cluster, Event, List, Planned, Text};
use std::alloc::{AllocError, Global};

fn holds_user(bits: u8) -> bool
    ensures { result ≡ has_user_bit bits }
{
    bits % 2 == 1
}

fn holds_operator(bits: u8) -> bool
    ensures { result ≡ has_operator_bit bits }
{
    bits / 2 % 2 == 1
}

fn holds_system(bits: u8) -> bool
    ensures { result ≡ has_system_bit bits }
{
    bits / 4 % 2 == 1
}

// What refuses holds of one job: those of users are for its owner and operators.
fn note_job(asker: &Asker, bits: u8, number: u32, faults: &mut Option<Refusal>)
    ensures { faults.new ≡ after_faults faults.old
        (job_hold_faults asker.now.0 asker.now.1 bits (at_number asker.now.0.jobs number)) }
{
    match asker.job(number) {
        None => note(faults, true, Refusal::NoSuchObject),
        Some(job) => note(
            faults,
            holds_user(bits) && asker.is_foreign(job),
            Refusal::NotPermitted,
        ),
    }
}

fn note_jobs(asker: &Asker, bits: u8, numbers: &[u32], faults: &mut Option<Refusal>)
    ensures { faults.new ≡ after_faults faults.old (flat_map
        (λ number. job_hold_faults asker.now.0 asker.now.1 bits (at_number asker.now.0.jobs number))
        numbers.now) }
{
    for number in numbers {
        note_job(asker, bits, *number, faults);
    }
}

// Holds of operators are for operators.
fn lacks_role(asker: &Asker, bits: u8) -> bool
    ensures { result ≡ (has_operator_bit bits && not (is_operator asker.now.0 asker.now.1.user)) }
{
    holds_operator(bits) && !asker.is_operator()
}

// Holds of the system are for managers.
fn lacks_rights(asker: &Asker, bits: u8) -> bool
    ensures { result ≡ (has_system_bit bits && not (is_manager asker.now.0 asker.now.1.user)) }
{
    holds_system(bits) && !asker.is_manager()
}

fn hold_fault(asker: &Asker, bits: u8, numbers: &[u32]) -> Option<Refusal>
    ensures { result ≡ first_fault (hold_plan_faults asker.now.0 asker.now.1 bits numbers.now) }
{
    let mut faults = None;
    note_jobs(asker, bits, numbers, &mut faults);
    note(&mut faults, lacks_role(asker, bits), Refusal::NotPermitted);
    note(
        &mut faults,
        lacks_rights(asker, bits),
        Refusal::NotPermitted,
    );
    faults
}

fn changed_line(alloc: Global, numbers: &List<u32>) -> Result<Text, AllocError>
    ensures { IfOk result (λ line. line ≡ codes "changed " ++ decimal (length numbers.now)) }
{
    let mut line = Text::from_bytes(alloc, b"changed ")?;
    line.append(numbers.len().to_string(alloc)?.as_bytes())?;
    Ok(line)
}

/// The plan of `qhold`: hold bits are set in jobs, each named once. The line is `changed N`, the number of jobs.
///
/// `NoSuchObject` comes for a job that doesn't live. `NotPermitted` comes for a user hold of a job of another owner where the
/// user is no operator, for an operator hold where the user is no operator, and for a system hold where the user is no manager.
/// See the manual page qhold.
#[tactic(auto, unfolding(ge_model_core::specs::Holding::hold_plan))]
pub fn plan_hold(
    alloc: Global,
    cluster: &Cluster,
    e: &Event,
    bits: u8,
    numbers: &List<u32>,
) -> Result<Planned, AllocError>
    ensures { IfOk result (λ planned. planned ≡ hold_plan cluster.now e.now bits numbers.now) }
{
    let asker = Asker::new(cluster, e);
    if let Some(refusal) = hold_fault(&asker, bits, numbers.items()) {
        return refuse(alloc, refusal);
    }
    let once = each_once(alloc, numbers.items())?;
    let line = changed_line(alloc, &once)?;
    accept(alloc, e, Change::Hold(once, bits), line)
}

/// The plan of `qrls`: hold bits are taken from jobs, each named once. The line is `changed N`, the number of jobs. The refusals
/// are those of [`plan_hold`]. See the manual page qrls.
#[tactic(auto, unfolding(ge_model_core::specs::Holding::release_plan))]
pub fn plan_release(
    alloc: Global,
    cluster: &Cluster,
    e: &Event,
    bits: u8,
    numbers: &List<u32>,
) -> Result<Planned, AllocError>
    ensures { IfOk result (λ planned. planned ≡ release_plan cluster.now e.now bits numbers.now) }
{
    let asker = Asker::new(cluster, e);
    if let Some(refusal) = hold_fault(&asker, bits, numbers.items()) {
        return refuse(alloc, refusal);
    }
    let once = each_once(alloc, numbers.items())?;
    let line = changed_line(alloc, &once)?;
    accept(alloc, e, Change::Release(once, bits), line)
}
