// Kinds of jobs of which no task can start any more: what a decision notes of them.
ghost use Rattle.std.specs.Prelude.{◌≡◌, ℕ, OnOk};
ghost use Rattle.std.specs.BTreeSet.{contains};
ghost use Rattle.std.specs.Ordering.{nat_cmp};
ghost use Rattle.std.specs.Option.{option_copied};
ghost use Rattle.ge_collections.specs.Keyed.{at_number};
ghost use Rattle.ge_attempts.specs.KindNotes.{kind_in, is_noted as noted_in, noted_with, kind_alone, kind_after};

use ge_attempts::Kinds;
use ge_rows::{Cluster, Decision, Job, job_at};
use std::alloc::AllocError;
use std::collections::BTreeSet;

fn kind_of(kinds: &Kinds, number: u32) -> Option<u32>
    ensures { result ≡ kind_in kinds.now.entries number }
{
    match kinds.get(&number) {
        Some(row) => Some(row.third),
        None => None,
    }
}

/// Whether the kind of a job is noted.
pub(crate) fn is_noted(kinds: &Kinds, full: &BTreeSet<u32>, number: u32) -> bool
    ensures { result ≡ noted_in full.now (kind_in kinds.now.entries number) }
{
    match kind_of(kinds, number) {
        Some(kind) => full.contains(&kind),
        None => false,
    }
}

// The kind of a job that asks for no parallel environment.
fn kind_of_alone(kinds: &Kinds, job: Option<&Job>, number: u32) -> Option<u32>
    ensures { result ≡ kind_alone (option_copied job.entry) (kind_in kinds.now.entries number) }
{
    let job = job?;
    match &job.request.pe {
        Some(_) => None,
        None => kind_of(kinds, number),
    }
}

// The kind that a decision on a task of a job gives to be noted: that of a task which waits.
fn kind_to_note(cluster: &Cluster, kinds: &Kinds, number: u32, decision: &Decision) -> Option<u32>
    ensures { result ≡ kind_after decision.now (at_number cluster.now.jobs number)
        (kind_in kinds.now.entries number) }
{
    match decision {
        Decision::Skip(_) => kind_of_alone(kinds, job_at(&cluster.jobs, number), number),
        Decision::Start(_) | Decision::Reserve(_) => None,
    }
}

fn note_kind(full: &mut BTreeSet<u32>, kind: Option<u32>) -> Result<(), AllocError>
    ensures { OnOk result ((other : ℕ) → contains nat_cmp full.new other
        ≡ noted_with full.old kind other) }
{
    if let Some(kind) = kind {
        full.insert(kind)?;
    }
    Ok(())
}

/// Notes the kind of a job of which a task waits, where the job asks for no parallel environment: none of that kind can start
/// any more in the run, since what is booked only grows.
pub(crate) fn note(
    cluster: &Cluster,
    kinds: &Kinds,
    full: &mut BTreeSet<u32>,
    number: u32,
    decision: &Decision,
) -> Result<(), AllocError>
    ensures { OnOk result ((other : ℕ) → contains nat_cmp full.new other ≡ noted_with full.old
        (kind_after decision.now (at_number cluster.now.jobs number)
        (kind_in kinds.now.entries number)) other) }
{
    note_kind(full, kind_to_note(cluster, kinds, number, decision))
}
