//! What a run goes by, figure by figure, and the run itself, decided at once and in two parts.

use crate::planning::cluster_behind;
use ge_listing::grants_text;
use ge_order::{
    Bound, Prios, bound_for, candidates, first_part, order, own_prios, prios, second_part, urgency,
};
use ge_pieces::{before, behind, behind_word, digits_worth, first_word, or_none_text};
use ge_rows::{Cluster, Decision, Grant, Job, List, Prio, TaskId, job_at};
use ge_scheduling::{all_wait, basis_of, begin_run, decide_tasks, decisions_of, others_wait, run};
use ge_tickets::{share_tickets, tickets, usage_at};
use ge_trials_rows::made;
use std::alloc::{AllocError, Global};

/// Adds a line.
pub(crate) fn push_line(text: &mut Vec<u8>, line: &String) -> Result<(), AllocError> {
    text.extend_from_slice(line.as_bytes())?;
    text.extend_from_slice(b"\n")
}

// Tickets and share tickets, added job by job.
fn added(alloc: Global, tickets: &[u64], shared: &[u64]) -> Result<List<u64>, AllocError> {
    let mut sums = List::new(alloc);
    for (one, other) in tickets.iter().zip(shared) {
        sums.push(one.saturating_add(*other))?;
    }
    Ok(sums)
}

// A priority, as the parts and their sum.
fn prio_words(alloc: Global, prio: &Prio) -> Result<String, AllocError> {
    let Prio {
        job: _,
        np,
        nu,
        nt,
        total,
    } = *prio;
    format!(in alloc; "{np} {nu} {nt} {total}")
}

// Whose a job is, its project, its urgency, and the usage of both.
fn job_words(alloc: Global, c: &Cluster, job: &Job, now: u64) -> Result<String, AllocError> {
    let owner = String::from_utf8_lossy(alloc, job.owner.bytes())?;
    let project = String::from_utf8_lossy(alloc, or_none_text(&job.project))?;
    let urgent = urgency(c, job, now);
    let used = usage_at(c, &job.owner, &job.project, now);
    format!(in alloc; "{owner} {project} urgency {urgent} usage {used}")
}

fn words_of(alloc: Global, c: &Cluster, number: u32, now: u64) -> Result<String, AllocError> {
    match job_at(&c.jobs, number) {
        Some(job) => job_words(alloc, c, job, now),
        None => String::from_str(alloc, "no such job"),
    }
}

// A line for each candidate.
fn push_jobs(
    alloc: Global,
    text: &mut Vec<u8>,
    c: &Cluster,
    now: u64,
    found: &[Prio],
    held: &[(u64, u64)],
) -> Result<(), AllocError> {
    for (prio, tickets) in found.iter().zip(held) {
        let number = prio.job;
        let (own, shared) = *tickets;
        let words = words_of(alloc, c, number, now)?;
        let parts = prio_words(alloc, prio)?;
        let line = format!(in alloc; "{number} {words} tickets {own} {shared} priority {parts}")?;
        push_line(text, &line)?;
    }
    Ok(())
}

fn paired(alloc: Global, tickets: &[u64], shared: &[u64]) -> Result<Vec<(u64, u64)>, AllocError> {
    let mut pairs = Vec::new(alloc);
    for (one, other) in tickets.iter().zip(shared) {
        pairs.push((*one, *other))?;
    }
    Ok(pairs)
}

// The priorities of all candidates. It tells them, with all that they come from.
fn tell_candidates(
    alloc: Global,
    text: &mut Vec<u8>,
    c: &Cluster,
    now: u64,
) -> Result<List<Prio>, AllocError> {
    let jobs = candidates(alloc, c, now)?;
    let given = tickets(alloc, c, &jobs)?;
    let shared = share_tickets(alloc, c, &jobs, now)?;
    let sums = added(alloc, given.items(), shared.items())?;
    let found = prios(alloc, c, &jobs, &sums, now)?;
    let held = paired(alloc, given.items(), shared.items())?;
    push_jobs(alloc, text, c, now, found.items(), held.as_slice())?;
    Ok(found)
}

// A line for each priority of jobs that have no tickets but those that each was given.
fn push_own(alloc: Global, text: &mut Vec<u8>, own: &[Prio]) -> Result<(), AllocError> {
    for prio in own {
        let number = prio.job;
        let parts = prio_words(alloc, prio)?;
        push_line(text, &format!(in alloc; "own {number} {parts}")?)?;
    }
    Ok(())
}

// The priorities that are parted. It tells them, where jobs have no tickets but their own.
fn parted_prios(
    alloc: Global,
    text: &mut Vec<u8>,
    c: &Cluster,
    now: u64,
    found: &List<Prio>,
) -> Result<Prios, AllocError> {
    match own_prios(alloc, c, now)? {
        Some(own) => {
            push_own(alloc, text, own.list(alloc)?.items())?;
            Ok(own)
        }
        None => Prios::from_list(alloc, found),
    }
}

fn push_tasks(alloc: Global, text: &mut Vec<u8>, tasks: &[TaskId]) -> Result<(), AllocError> {
    text.extend_from_slice(b"order")?;
    for at in tasks {
        let (job, task) = (at.job, at.task);
        text.extend_from_slice(format!(in alloc; " {job}.{task}")?.as_bytes())?;
    }
    text.extend_from_slice(b"\n")
}

fn push_part(
    alloc: Global,
    text: &mut Vec<u8>,
    name: &[u8],
    part: &[Prio],
) -> Result<(), AllocError> {
    text.extend_from_slice(name)?;
    for prio in part {
        let number = prio.job;
        text.extend_from_slice(format!(in alloc; " {number}")?.as_bytes())?;
    }
    text.extend_from_slice(b"\n")
}

// The jobs before a bound, and those behind it.
fn push_parts(
    alloc: Global,
    text: &mut Vec<u8>,
    prios: &Prios,
    bound: &Bound,
) -> Result<(), AllocError> {
    let first = first_part(alloc, prios, bound)?;
    push_part(alloc, text, b"before", first.items())?;
    let second = second_part(alloc, prios, bound)?;
    push_part(alloc, text, b"behind", second.items())
}

// The parts where so many jobs are wanted before a bound; of 0 nothing is told.
fn tell_parts(
    alloc: Global,
    text: &mut Vec<u8>,
    prios: &Prios,
    few: usize,
) -> Result<(), AllocError> {
    if few == 0 {
        return Ok(());
    }
    match bound_for(alloc, prios, few)? {
        Some(bound) => push_parts(alloc, text, prios, &bound),
        None => text.extend_from_slice(b"no bound\n"),
    }
}

fn place_words(
    alloc: Global,
    word: &str,
    number: u64,
    task: TaskId,
    grants: &[Grant],
) -> Result<String, AllocError> {
    let grants = grants_text(alloc, grants)?;
    let grants = String::from_utf8_lossy(alloc, grants.bytes())?;
    let (job, task) = (task.job, task.task);
    format!(in alloc; "{word} {job}.{task} {number} {grants}")
}

fn decision_words(alloc: Global, decision: &Decision) -> Result<String, AllocError> {
    match decision {
        Decision::Start(start) => {
            let grants = start.grants.items();
            place_words(alloc, "start", start.serial, start.task, grants)
        }
        Decision::Reserve(kept) => {
            let grants = kept.grants.items();
            place_words(alloc, "reserve", kept.at, kept.task, grants)
        }
        Decision::Skip(at) => {
            let (job, task) = (at.job, at.task);
            format!(in alloc; "wait {job}.{task}")
        }
    }
}

fn push_decisions(
    alloc: Global,
    text: &mut Vec<u8>,
    decisions: &[Decision],
) -> Result<(), AllocError> {
    for decision in decisions {
        push_line(text, &decision_words(alloc, decision)?)?;
    }
    Ok(())
}

// A run of which the first task is decided before the others. It tells whether all wait before it,
// whether the others do once that task is decided, and once each is.
fn tell_parted_run(
    alloc: Global,
    text: &mut Vec<u8>,
    c: &Cluster,
    tasks: &[TaskId],
    now: u64,
) -> Result<(), AllocError> {
    let (first, others) = tasks.split_at(tasks.len().min(1));
    let basis = basis_of(alloc, c, now)?;
    let all = all_wait(c, &basis);
    let begun = begin_run(alloc, c, basis)?;
    let begun = decide_tasks(alloc, c, begun, first)?;
    let behind_first = others_wait(c, &begun);
    let done = decide_tasks(alloc, c, begun, others)?;
    let behind_all = others_wait(c, &done);
    push_line(
        text,
        &format!(in alloc; "waiting {all} {behind_first} {behind_all}")?,
    )?;
    push_decisions(alloc, text, decisions_of(done).items())
}

/// A page `figures`: a moment and how many jobs are wanted before a bound, 0 where none is asked
/// for, on a line, and then the lines of a script that is made. It tells of each candidate at that
/// moment whose it is, its project, its urgency, its owner's and project's usage, its tickets
/// without and of the share tree, and the parts of its priority with their sum; the priorities
/// without the share tree, where jobs have no tickets but their own; the order of the tasks; which
/// jobs come before the bound, and which behind; the decisions of a run; and those of a run in two
/// parts, behind whether tasks wait.
pub(crate) fn figures_page(alloc: Global, body: &[u8]) -> Result<Vec<u8>, AllocError> {
    let (line, lines) = (before(b'\n', body), behind(b'\n', body));
    let (now, few) = (
        digits_worth(first_word(line)),
        digits_worth(behind_word(line)),
    );
    let cluster = cluster_behind(alloc, made(alloc, lines)?.as_slice())?;
    let mut text = Vec::new(alloc);
    let found = tell_candidates(alloc, &mut text, &cluster, now)?;
    let parted = parted_prios(alloc, &mut text, &cluster, now, &found)?;
    let tasks = order(alloc, &cluster, &found, now)?;
    push_tasks(alloc, &mut text, tasks.items())?;
    tell_parts(alloc, &mut text, &parted, few as usize)?;
    let decisions = run(alloc, &cluster, tasks.items(), now)?;
    push_decisions(alloc, &mut text, decisions.items())?;
    tell_parted_run(alloc, &mut text, &cluster, tasks.items(), now)?;
    Ok(text)
}
