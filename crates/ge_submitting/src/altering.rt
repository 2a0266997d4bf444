//! The plan of qalter.

ghost use Rattle.std.specs.Prelude.{◌≡◌, ◌++◌, Bool, IfOk, OnOk, IfSome, Some, ◌||◌, codes, filter_map, flat_map, nat_lt, option_to_list};
ghost use Rattle.ge_base.specs.declared.refusal.Refusal.TheVariants.{Cycle};
ghost use Rattle.ge_model_rows.specs.Faults.{when, after_faults, turn_of};
ghost use Rattle.ge_model_grammar.specs.Options.{has_option as has_given};
ghost use Rattle.ge_model_core.specs.Refusals.{unless_refused};
ghost use Rattle.ge_model_core.specs.JobOptions.{patch_of};
ghost use Rattle.ge_model_core.specs.JobAdvances.{stay_faults};
ghost use Rattle.ge_model_core.specs.Altering as altering;
ghost use Rattle.ge_model_core.specs.Altering.{owned, alter_faults, alter_faults_of, patch_at, alter_plan};
ghost use Rattle.ge_job_options.specs.Held.{holder_shown};
ghost use Rattle.ge_submitting.specs.Altered.{plan_behind};

use ge_answers::{accept, refuse};
use ge_base::Refusal;
use ge_commands::{WideRange, has_option};
use ge_job_options::{
    Holder, Waits, asks, both_known, closes_any, no_request, note_advance, numbers_once,
    patch_of_parts, read_options,
};
use ge_pieces::{is_same, note};
use ge_request::request_over;
use ge_rows::{Change, Cluster, Event, Job, List, Options, Patch, Planned, Text, job_at};
use ge_site::is_operator;
use std::alloc::{AllocError, Global};

fn holder_of(job: &Job) -> Holder<'_>
    ensures { holder_shown result ≡ owned job.now }
{
    Holder {
        who: &job.owner,
        team: &job.group,
        tasks: WideRange {
            low: u128::from(job.span.first),
            high: u128::from(job.span.last),
            by: u128::from(job.span.step),
        },
        older: &job.request,
    }
}

// Whether a user is neither the owner of a job nor an operator.
fn is_foreign(c: &Cluster, e: &Event, job: &Job) -> bool
    ensures { result ≡ altering.is_foreign c.now e.now job.now }
{
    !is_same(&job.owner, &e.user) && !is_operator(c, &e.user)
}

fn runs_any(job: &Job) -> bool
    ensures { result ≡ altering.runs_any job.now }
{
    !(job.running.len() == 0)
}

// What a task runs with stays: -l, -q, -pe and -P.
fn is_fixed(options: &Options) -> bool
    ensures { result ≡ altering.is_fixed options.now.items }
{
    asks(options) || has_option(options, b"-P")
}

// A job in an advance reservation can't ask for everything.
fn note_stay(
    alloc: Global,
    c: &Cluster,
    options: &Options,
    advance: u32,
    faults: &mut Option<Refusal>,
) -> Result<(), AllocError>
    ensures { OnOk result (faults.new
        ≡ after_faults faults.old (stay_faults c.now options.now.items advance)) }
{
    if advance == 0 {
        return Ok(());
    }
    let mut noted = None;
    let asked = request_over(alloc, c, options, &no_request(alloc), &mut noted)?;
    note_advance(c, options, &asked, c.advances.get(&advance), faults);
    Ok(())
}

fn note_job(
    alloc: Global,
    c: &Cluster,
    e: &Event,
    options: &Options,
    job: &Job,
    faults: &mut Option<Refusal>,
) -> Result<(), AllocError>
    ensures { OnOk result (faults.new
        ≡ after_faults faults.old (alter_faults_of c.now e.now options.now.items (Some job.now))) }
{
    note(faults, is_foreign(c, e, job), Refusal::NotPermitted);
    note(faults, is_fixed(options) && runs_any(job), Refusal::InUse);
    let holder = holder_of(job);
    let _read = read_options(alloc, c, e, options, &holder, faults)?;
    note_stay(alloc, c, options, job.advance, faults)
}

fn note_number(
    alloc: Global,
    c: &Cluster,
    e: &Event,
    options: &Options,
    number: u32,
    faults: &mut Option<Refusal>,
) -> Result<(), AllocError>
    ensures { OnOk result (faults.new
        ≡ after_faults faults.old (alter_faults c.now e.now options.now.items number)) }
{
    match job_at(&c.jobs, number) {
        None => {
            note(faults, true, Refusal::NoSuchObject);
            Ok(())
        }
        Some(job) => note_job(alloc, c, e, options, job, faults),
    }
}

fn note_numbers(
    alloc: Global,
    c: &Cluster,
    e: &Event,
    options: &Options,
    numbers: &[u32],
    faults: &mut Option<Refusal>,
) -> Result<(), AllocError>
    ensures { OnOk result (faults.new
        ≡ after_faults faults.old
        (flat_map (alter_faults c.now e.now options.now.items) numbers.now)) }
{
    for number in numbers {
        note_number(alloc, c, e, options, *number, faults)?;
    }
    Ok(())
}

// What options set in a job, where nothing but a cycle or a limit refuses them.
fn patch_of_job(
    alloc: Global,
    c: &Cluster,
    e: &Event,
    options: &Options,
    job: &Job,
) -> Result<Patch, AllocError>
    ensures { IfOk result (λ patch. patch ≡ patch_of c.now options.now.items (owned job.now)) }
{
    let mut noted = None;
    let holder = holder_of(job);
    let (request, first, second) = read_options(alloc, c, e, options, &holder, &mut noted)?;
    let (after, after_each) = both_known(first, second)?;
    let patch = patch_of_parts(alloc, options, request, after, after_each)?;
    Ok(patch)
}

// The patch of a job that lives.
fn patch_of_number(
    alloc: Global,
    c: &Cluster,
    e: &Event,
    options: &Options,
    number: u32,
) -> Result<Option<(u32, Patch)>, AllocError>
    ensures { IfOk result (λ patch. patch ≡ patch_at c.now options.now.items number) }
{
    match job_at(&c.jobs, number) {
        None => Ok(None),
        Some(job) => {
            let patch = patch_of_job(alloc, c, e, options, job)?;
            Ok(Some((number, patch)))
        }
    }
}

fn push_some(
    patches: &mut List<(u32, Patch)>,
    patch: Option<(u32, Patch)>,
) -> Result<(), AllocError>
    ensures { OnOk result (patches.new ≡ patches.old ++ option_to_list patch) }
{
    match patch {
        None => Ok(()),
        Some(patch) => patches.push(patch),
    }
}

// The patches of those jobs that live.
fn patches_at(
    alloc: Global,
    c: &Cluster,
    e: &Event,
    options: &Options,
    numbers: &[u32],
) -> Result<List<(u32, Patch)>, AllocError>
    ensures { IfOk result (λ patches. patches
        ≡ filter_map (patch_at c.now options.now.items) numbers.now) }
{
    let mut patches = List::new(alloc);
    for number in numbers {
        let patch = patch_of_number(alloc, c, e, options, *number)?;
        push_some(&mut patches, patch)?;
    }
    Ok(patches)
}

// Whether options set predecessors.
fn sets_holds(options: &Options) -> bool
    ensures { result ≡ (has_given options.now.items (codes "-hold_jid")
        || has_given options.now.items (codes "-hold_jid_ad")) }
{
    has_option(options, b"-hold_jid") || has_option(options, b"-hold_jid_ad")
}

// Notes a job that would wait for itself: `Cycle`.
fn note_cycle(
    alloc: Global,
    c: &Cluster,
    options: &Options,
    patches: &[(u32, Patch)],
    faults: &mut Option<Refusal>,
) -> Result<(), AllocError>
    ensures { OnOk result (faults.new
        ≡ after_faults faults.old
        (when (altering.closes_a_cycle c.now options.now.items patches.now) Cycle)) }
{
    if !sets_holds(options) {
        return Ok(());
    }
    let waits = Waits::new(alloc, c, patches)?;
    let closes = closes_any(alloc, &waits, patches)?;
    note(faults, closes, Refusal::Cycle);
    Ok(())
}

// Whether a cycle is tried before a refusal.
fn is_behind_cycle(refusal: Refusal) -> bool
    ensures { result ≡ nat_lt (turn_of Cycle) (turn_of refusal) }
{
    match refusal {
        Refusal::TooLong => false,
        Refusal::Syntax => false,
        Refusal::TimeBack => false,
        Refusal::NoSuchObject => false,
        Refusal::NotPermitted => false,
        Refusal::Exists => false,
        Refusal::InUse => false,
        Refusal::BadValue => false,
        Refusal::NotRequestable => false,
        Refusal::Cycle => false,
        Refusal::Limit => true,
        Refusal::StaleReport => true,
        Refusal::NoMemory => true,
    }
}

// The refusal that is noted, where it is tried before a cycle, so that the patches aren't asked for.
#[tactic(auto, using(crate::proofs::Altered::kept))]
fn settled(faults: Option<Refusal>) -> Option<Refusal>
    ensures { IfSome result (λ refusal. (t : Bool)
        → after_faults faults (when t Cycle) ≡ Some refusal) }
{
    match faults {
        None => None,
        Some(refusal) => {
            if is_behind_cycle(refusal) {
                None
            } else {
                Some(refusal)
            }
        }
    }
}

fn accept_alteration(
    alloc: Global,
    e: &Event,
    patches: List<(u32, Patch)>,
) -> Result<Planned, AllocError>
    ensures { IfOk result (λ planned. planned ≡ altering.altered e.now patches) }
{
    let mut line = Text::from_bytes(alloc, b"modified ")?;
    line.append(patches.len().to_string(alloc)?.as_bytes())?;
    accept(alloc, e, Change::Alter(patches), line)
}

fn refuse_or_accept(
    alloc: Global,
    e: &Event,
    patches: List<(u32, Patch)>,
    faults: Option<Refusal>,
) -> Result<Planned, AllocError>
    ensures { IfOk result (λ planned. planned
        ≡ unless_refused faults (altering.altered e.now patches)) }
{
    match faults {
        Some(refusal) => refuse(alloc, refusal),
        None => accept_alteration(alloc, e, patches),
    }
}

// The plan where nothing that is noted comes before a cycle.
fn alter_unsettled(
    alloc: Global,
    c: &Cluster,
    e: &Event,
    options: &Options,
    numbers: &List<u32>,
    noted: Option<Refusal>,
) -> Result<Planned, AllocError>
    ensures { IfOk result (λ planned. planned
        ≡ plan_behind c.now e.now options.now.items numbers.now noted) }
{
    let mut faults = noted;
    let once = numbers_once(alloc, numbers.items())?;
    let patches = patches_at(alloc, c, e, options, once.items())?;
    note_cycle(alloc, c, options, patches.items(), &mut faults)?;
    refuse_or_accept(alloc, e, patches, faults)
}

/// The plan of qalter with these options for these jobs.
///
/// It is refused where a job isn't there, `NoSuchObject`, where the user is neither its owner nor an operator, `NotPermitted`,
/// where one of its tasks runs and `-l`, `-q`, `-pe` or `-P` is given, `InUse`, for its options as a submission is, and where a
/// job would wait for itself: `Cycle`. Of the refusals whose conditions hold the first by its code answers.
pub fn plan_alteration(
    alloc: Global,
    cluster: &Cluster,
    e: &Event,
    options: &Options,
    numbers: &List<u32>,
) -> Result<Planned, AllocError>
    ensures { IfOk result (λ planned. planned
        ≡ alter_plan cluster.now e.now options.now.items numbers.now) }
{
    let mut faults = None;
    note_numbers(alloc, cluster, e, options, numbers.items(), &mut faults)?;
    match settled(faults) {
        Some(refusal) => refuse(alloc, refusal),
        None => alter_unsettled(alloc, cluster, e, options, numbers, faults),
    }
}
