//! The table of jobs behind a script: its sums, its marks, and its short rows.

use crate::figures::push_line;
use crate::planning::cluster_behind;
use ge_jobs::{holds_of, set_hold};
use ge_pieces::{before, behind, behind_word, digits_worth, first_word, or_none_text};
use ge_rows::{JobFacts, JobMark, JobTable, MarkSort, ShortRow};
use ge_trials_rows::{made, times_borne};
use std::alloc::{AllocError, Global};
use std::collections::BTreeMap;

fn sort_word(sort: MarkSort) -> &'static str {
    match sort {
        MarkSort::Runs => "runs",
        MarkSort::Serial => "serial",
        MarkSort::Queue => "queue",
        MarkSort::Host => "host",
        MarkSort::Owner => "owner",
        MarkSort::Project => "project",
        MarkSort::Advance => "advance",
        MarkSort::Pe => "pe",
        MarkSort::Attribute => "attribute",
    }
}

// A mark: its sort, its number and its names.
fn mark_words(alloc: Global, mark: &JobMark) -> Result<String, AllocError> {
    let (sort, number) = (sort_word(mark.sort), mark.number);
    let name = String::from_utf8_lossy(alloc, or_none_text(&mark.name))?;
    let other = String::from_utf8_lossy(alloc, or_none_text(&mark.other))?;
    format!(in alloc; "{sort} {number} {name} {other}")
}

// How often a mark is borne, and by how many jobs, from which to which.
fn borne_words(alloc: Global, jobs: &JobTable, mark: &JobMark) -> Result<String, AllocError> {
    let bearers = jobs.bearers(alloc, mark)?;
    let times = times_borne(alloc, jobs, bearers.as_slice(), mark)?;
    let count = bearers.len();
    match (bearers.as_slice().first(), bearers.as_slice().last()) {
        (Some(first), Some(last)) => {
            format!(in alloc; "{times} times by {count}, from {first} to {last}")
        }
        _ => String::from_str(alloc, "by none"),
    }
}

fn is_first(jobs: &JobTable, mark: &JobMark, job: u32) -> bool {
    match jobs.find(mark) {
        Some((first, _row)) => *first == job,
        None => false,
    }
}

// A mark and a job that bears it; with the first of them also how often it is borne.
fn push_pair(
    alloc: Global,
    text: &mut Vec<u8>,
    jobs: &JobTable,
    mark: &JobMark,
    job: u32,
) -> Result<(), AllocError> {
    let words = mark_words(alloc, mark)?;
    if is_first(jobs, mark, job) {
        let borne = borne_words(alloc, jobs, mark)?;
        let line = format!(in alloc; "{words} at {job}, {borne}")?;
        return push_line(text, &line);
    }
    let line = format!(in alloc; "{words} at {job}")?;
    push_line(text, &line)
}

// Each mark with each job that bears it.
fn push_marks(alloc: Global, text: &mut Vec<u8>, jobs: &JobTable) -> Result<(), AllocError> {
    let low = JobMark::new(alloc, MarkSort::Runs, b"", b"", 0)?;
    let high = JobMark::new(alloc, MarkSort::Attribute, b"", b"", u64::MAX)?;
    for (mark, job) in jobs.marked_between(alloc, &low, &high)?.as_slice() {
        push_pair(alloc, text, jobs, mark, *job)?;
    }
    Ok(())
}

// How many marks there are of owners, each counted with each job that bears it.
fn owners(alloc: Global, jobs: &JobTable) -> Result<usize, AllocError> {
    let low = JobMark::new(alloc, MarkSort::Owner, b"", b"", 0)?;
    let high = JobMark::new(alloc, MarkSort::Project, b"", b"", 0)?;
    let marks = jobs.marked_between(alloc, &low, &high)?;
    Ok(marks.len())
}

// How many jobs there are from one number on and below another.
fn count_between(jobs: &JobTable, from: u32, until: u32) -> usize {
    jobs.keys().filter(|n| from <= **n && **n < until).count()
}

// The totals, how many jobs lie between two numbers, and whether a mark of an owner is borne.
fn push_sums(
    alloc: Global,
    text: &mut Vec<u8>,
    jobs: &JobTable,
    head: &[u8],
) -> Result<(), AllocError> {
    let (from, rest) = (digits_worth(first_word(head)), behind_word(head));
    let (until, rest) = (digits_worth(first_word(rest)), behind_word(rest));
    let from = from.min(1_000_000) as u32;
    let until = until.min(1_000_000) as u32;
    let between = count_between(jobs, from, until);
    let (owner, name) = (first_word(rest), behind_word(rest));
    let is_one = jobs.is_borne(&JobMark::new(alloc, MarkSort::Owner, owner, name, 0)?);
    let is_other = jobs.is_borne(&JobMark::new(alloc, MarkSort::Owner, name, owner, 0)?);
    let (tasks, bytes) = jobs.totals();
    let owners = owners(alloc, jobs)?;
    let line = format!(in alloc; "{tasks} tasks, {bytes} bytes, {owners} marks of owners")?;
    push_line(text, &line)?;
    let line = format!(in alloc; "{between} between, borne {is_one} {is_other}")?;
    push_line(text, &line)
}

// The place of a number among others, where it stands first.
fn place_of(numbers: &[u32], number: u32) -> usize {
    for (place, other) in numbers.iter().enumerate() {
        if *other == number {
            return place;
        }
    }
    numbers.len()
}

// The numbers of the labels of all rows.
fn label_numbers(
    alloc: Global,
    rows: &BTreeMap<u32, ShortRow<JobFacts>>,
) -> Result<Vec<u32>, AllocError> {
    let mut numbers = Vec::new(alloc);
    for row in rows.values() {
        numbers.extend_from_slice(&[row.first, row.second, row.third])?;
    }
    Ok(numbers)
}

fn number_words(alloc: Global, facts: &JobFacts) -> Result<String, AllocError> {
    let (submitted, not_before, deadline) = (facts.submitted, facts.not_before, facts.deadline);
    let (share, oticket, priority) = (facts.share, facts.oticket, facts.priority);
    let (least, lasts, hold) = (facts.least, facts.lasts, facts.hold);
    format!(in alloc;
        "{submitted} {not_before} {deadline} {share} {oticket} {least} {lasts} {priority} {hold}"
    )
}

fn push_word(text: &mut Vec<u8>, is_so: bool, word: &[u8]) -> Result<(), AllocError> {
    if is_so {
        text.extend_from_slice(word)?;
    }
    Ok(())
}

// A job, the places where its three labels stand first, and its facts.
fn push_short(
    alloc: Global,
    text: &mut Vec<u8>,
    numbers: &[u32],
    job: u32,
    row: &ShortRow<JobFacts>,
) -> Result<(), AllocError> {
    let owner = place_of(numbers, row.first);
    let project = place_of(numbers, row.second);
    let kind = place_of(numbers, row.third);
    let facts = number_words(alloc, &row.facts)?;
    let line = format!(in alloc; "{job}: {owner} {project} {kind}, {facts}")?;
    text.extend_from_slice(line.as_bytes())?;
    push_word(text, row.facts.waits, b" waits")?;
    push_word(text, row.facts.follows, b" follows")?;
    push_word(text, row.facts.runs, b" runs")?;
    push_word(text, row.facts.parallel, b" parallel")?;
    text.extend_from_slice(b"\n")
}

fn push_shorts(alloc: Global, text: &mut Vec<u8>, jobs: &JobTable) -> Result<(), AllocError> {
    let Some(shorts) = jobs.shorts() else {
        return text.extend_from_slice(b"no short rows\n");
    };
    let numbers = label_numbers(alloc, shorts.rows)?;
    for (job, row) in shorts.rows.iter() {
        push_short(alloc, text, numbers.as_slice(), *job, row)?;
    }
    Ok(())
}

/// A page `table`: on a line two numbers of jobs, an owner and a name, and then the lines of a
/// script that is made. It tells of the table of jobs behind the script the totals and how many
/// marks of owners there are; how many jobs there are from the first number on and below the
/// second, whether a job of the owner has the name, and whether one of an owner of that name is
/// named as the owner is; each mark with each job that bears it, in order, with the first of them
/// how often and by how many it is borne; and of each job's short row the places of its labels
/// among all labels, each where it stands first, and the facts.
pub(crate) fn table_page(alloc: Global, body: &[u8]) -> Result<Vec<u8>, AllocError> {
    let (head, lines) = (before(b'\n', body), behind(b'\n', body));
    let script = made(alloc, lines)?;
    let cluster = cluster_behind(alloc, script.as_slice())?;
    let mut text = Vec::new(alloc);
    push_sums(alloc, &mut text, &cluster.jobs, head)?;
    push_marks(alloc, &mut text, &cluster.jobs)?;
    push_shorts(alloc, &mut text, &cluster.jobs)?;
    Ok(text)
}

/// A page `holds`: on a line the number of a job and hold bits, and then the lines of a script that is made. It tells the job's
/// hold bits behind the script, and those of it once it was given these and no others.
pub(crate) fn holds_page(alloc: Global, body: &[u8]) -> Result<Vec<u8>, AllocError> {
    let (head, lines) = (before(b'\n', body), behind(b'\n', body));
    let job = digits_worth(first_word(head)).min(1_000_000) as u32;
    let bits = digits_worth(behind_word(head)).min(255) as u8;
    let mut cluster = cluster_behind(alloc, made(alloc, lines)?.as_slice())?;
    let before_it = holds_of(&cluster.jobs, job);
    set_hold(&mut cluster.jobs, job, bits);
    let since = holds_of(&cluster.jobs, job);
    let line = format!(in alloc; "{before_it} {since}\n")?;
    Vec::from_slice(alloc, line.as_bytes())
}
