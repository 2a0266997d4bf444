// The plans of qdel and qmod -cj.
ghost use Rattle.std.specs.Prelude.{◌≡◌, ◌++◌, ◌∷◌, [], ◌&&◌, not, IfOk, codes, decimal, flat_map};
ghost use Rattle.ge_base.specs.declared.refusal.Refusal.TheVariants.{NotPermitted};
ghost use Rattle.ge_model_rows.specs.EntryRows.{Delete, Clear};
ghost use Rattle.ge_model_rows.specs.Access.{is_operator};
ghost use Rattle.ge_model_rows.specs.Faults.{first_fault, when};
ghost use Rattle.ge_model_core.specs.Answers.{changed};
ghost use Rattle.ge_model_core.specs.Targets.{target_faults, named_jobs};
ghost use Rattle.ge_model_core.specs.Deleting.{delete_plan, clear_plan};
ghost use Rattle.ge_model_core.specs.Deleting as plans;
ghost use Rattle.ge_deleting.specs.Counts.{shown};

use crate::counting::{Part, count_all};
use crate::living::LiveTasks;
use crate::targets::{NamedJob, jobs_named, note_targets};
use ge_answers::{accept, refuse};
use ge_base::Refusal;
use ge_pieces::note;
use ge_rows::{Change, Cluster, Event, List, Pick, Planned, Text, Twin};
use std::alloc::{AllocError, Global};

// What refuses a deletion: by force operators alone delete.
fn deletion_fault(
    alloc: Global,
    live: &mut LiveTasks,
    force: bool,
    picks: &[Pick],
) -> Result<Option<Refusal>, AllocError>
    ensures fault { IfOk result (λ fault. fault
        ≡ first_fault (flat_map (target_faults live.old.0 live.old.1) picks.now
        ++ when (force && not (is_operator live.old.0 live.old.1.user)) NotPermitted)) }
    ensures same { live.new ≡ live.old }
{
    let mut faults = None;
    note_targets(alloc, live, picks, &mut faults)?;
    let lacks_role = force && !live.asker().is_operator();
    note(&mut faults, lacks_role, Refusal::NotPermitted);
    Ok(faults)
}

fn line_of_counts(alloc: Global, removed: u64, marked: u64) -> Result<Text, AllocError>
    ensures { IfOk result (λ line. line
        ≡ codes "removed " ++ decimal removed ++ codes " marked " ++ decimal marked) }
{
    let mut line = Text::from_bytes(alloc, b"removed ")?;
    line.append(removed.to_string(alloc)?.as_bytes())?;
    line.append(b" marked ")?;
    line.append(marked.to_string(alloc)?.as_bytes())?;
    Ok(line)
}

// By force all tasks are removed; else those that run are marked.
fn removed_line(alloc: Global, force: bool, named: &[NamedJob]) -> Result<Text, AllocError>
    ensures { IfOk result (λ line. line ≡ plans.removed_line force (shown named.now)) }
{
    if force {
        let removed = count_all(alloc, Part::All, named)?;
        return line_of_counts(alloc, removed, 0);
    }
    let removed = count_all(alloc, Part::Pending, named)?;
    let marked = count_all(alloc, Part::Running, named)?;
    line_of_counts(alloc, removed, marked)
}

fn accept_deletion(
    alloc: Global,
    live: &mut LiveTasks,
    e: &Event,
    force: bool,
    picks: &List<Pick>,
) -> Result<Planned, AllocError>
    ensures { IfOk result (λ planned. planned ≡ changed e.now (Delete picks.now force)
        (plans.removed_line force (named_jobs live.old.0 picks.now) ∷ [])) }
{
    let named = jobs_named(alloc, live, picks.items())?;
    let line = removed_line(alloc, force, &named)?;
    let change = Change::Delete(picks.twin(alloc)?, force);
    accept(alloc, e, change, line)
}

/// The plan of `qdel`: tasks that wait or are in error are removed and those that run are marked for deletion, or by force
/// (`-f`) removed. The line is `removed N marked M`.
///
/// `NoSuchObject` comes for a target that names no live task of a live job, `NotPermitted` for a job of another owner where the
/// user is no operator, and for force where the user is none. See the manual page qdel.
#[tactic(auto, unfolding(ge_model_core::specs::Deleting::delete_plan))]
pub fn plan_deletion(
    alloc: Global,
    cluster: &Cluster,
    e: &Event,
    force: bool,
    picks: &List<Pick>,
) -> Result<Planned, AllocError>
    ensures { IfOk result (λ planned. planned ≡ delete_plan cluster.now e.now force picks.now) }
{
    let mut live = LiveTasks::new(alloc, cluster, e);
    let fault = deletion_fault(alloc, &mut live, force, picks.items())?;
    match fault {
        Some(refusal) => refuse(alloc, refusal),
        None => accept_deletion(alloc, &mut live, e, force, picks),
    }
}

fn clearing_fault(
    alloc: Global,
    live: &mut LiveTasks,
    picks: &[Pick],
) -> Result<Option<Refusal>, AllocError>
    ensures fault { IfOk result (λ fault. fault
        ≡ first_fault (flat_map (target_faults live.old.0 live.old.1) picks.now)) }
    ensures same { live.new ≡ live.old }
{
    let mut faults = None;
    note_targets(alloc, live, picks, &mut faults)?;
    Ok(faults)
}

fn cleared_line(alloc: Global, named: &[NamedJob]) -> Result<Text, AllocError>
    ensures { IfOk result (λ line. line ≡ plans.cleared_line (shown named.now)) }
{
    let cleared = count_all(alloc, Part::Broken, named)?;
    let mut line = Text::from_bytes(alloc, b"cleared ")?;
    line.append(cleared.to_string(alloc)?.as_bytes())?;
    Ok(line)
}

fn accept_clearing(
    alloc: Global,
    live: &mut LiveTasks,
    e: &Event,
    picks: &List<Pick>,
) -> Result<Planned, AllocError>
    ensures { IfOk result (λ planned. planned ≡ changed e.now (Clear picks.now)
        (plans.cleared_line (named_jobs live.old.0 picks.now) ∷ [])) }
{
    let named = jobs_named(alloc, live, picks.items())?;
    let line = cleared_line(alloc, &named)?;
    let change = Change::Clear(picks.twin(alloc)?);
    accept(alloc, e, change, line)
}

/// The plan of `qmod -cj`: tasks in error wait again. The line is `cleared N`.
///
/// `NoSuchObject` comes for a target that names no live task of a live job, `NotPermitted` for a job of another owner where the
/// user is no operator. See the manual page qmod.
#[tactic(auto, unfolding(ge_model_core::specs::Deleting::clear_plan))]
pub fn plan_clearing(
    alloc: Global,
    cluster: &Cluster,
    e: &Event,
    picks: &List<Pick>,
) -> Result<Planned, AllocError>
    ensures { IfOk result (λ planned. planned ≡ clear_plan cluster.now e.now picks.now) }
{
    let mut live = LiveTasks::new(alloc, cluster, e);
    let fault = clearing_fault(alloc, &mut live, picks.items())?;
    match fault {
        Some(refusal) => refuse(alloc, refusal),
        None => accept_clearing(alloc, &mut live, e, picks),
    }
}
