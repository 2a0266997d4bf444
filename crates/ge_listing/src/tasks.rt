//! What a running task is to do.

ghost use Rattle.std.specs.Prelude.{◌≡◌, ◌++◌, ◌∷◌, [], IfOk, OnOk, codes, decimal, length};
ghost use Rattle.std.specs.Option.{option_copied};
ghost use Rattle.ge_model_place.specs.Windows.{duration_of, least_asked};
ghost use Rattle.ge_model_report.specs.Grants.{worded};
ghost use Rattle.ge_model_report.specs.Orders.{limit_text, serial_lines, script_lines, seconds_of, seconds_within, task_lines};

use ge_complex::amount_in;
use ge_jobs::find_running;
use ge_pieces::pieces;
use ge_printing::{decimal_text, join_words};
use ge_rows::{Advance, Cluster, INFINITY, Job, List, Running, Text, Twin, Value};
use std::alloc::{AllocError, Global};

fn least_of(hard: Option<&Value>, soft: Option<&Value>, fallback: u64) -> u64
    ensures { result ≡ least_asked (option_copied hard.entry) (option_copied soft.entry) fallback }
{
    match (hard, soft) {
        (None, None) => fallback,
        (Some(hard), None) => amount_in(hard),
        (None, Some(soft)) => amount_in(soft),
        (Some(hard), Some(soft)) => amount_in(hard).min(amount_in(soft)),
    }
}

// How many seconds a task of a job may run by what the job asks for, at least 1.
fn duration(alloc: Global, c: &Cluster, job: &Job) -> Result<u64, AllocError>
    ensures { IfOk result (λ seconds. seconds ≡ duration_of c.now job.now) }
{
    let hard = Text::from_bytes(alloc, b"h_rt")?;
    let soft = Text::from_bytes(alloc, b"s_rt")?;
    let asked = &job.request.asked;
    Ok(least_of(asked.get(&hard), asked.get(&soft), c.sched.default_duration).max(1))
}

fn within(seconds: u64, start: u64, booked: Option<&Advance>) -> u64
    ensures { result ≡ seconds_within seconds start (option_copied booked.entry) }
{
    match booked {
        None => seconds,
        Some(booked) => seconds.min(booked.until.saturating_sub(start)),
    }
}

// How many seconds a running task may run: not past the end of its job's advance reservation.
fn seconds(alloc: Global, c: &Cluster, job: &Job, task: &Running) -> Result<u64, AllocError>
    ensures { IfOk result (λ seconds. seconds ≡ seconds_of c.now job.now task.now) }
{
    let seconds = duration(alloc, c, job)?;
    Ok(within(seconds, task.start, c.advances.get(&job.advance)))
}

fn limit(alloc: Global, seconds: u64) -> Result<Text, AllocError>
    ensures { IfOk result (λ text. text ≡ limit_text seconds) }
{
    if seconds == INFINITY {
        Text::from_bytes(alloc, b"-")
    } else {
        decimal_text(alloc, u128::from(seconds))
    }
}

fn put_words(alloc: Global, lines: &mut List<Text>, words: &[Text]) -> Result<(), AllocError>
    ensures { OnOk result (lines.new ≡ lines.old ++ words.now) }
{
    for word in words {
        lines.push(word.twin(alloc)?)?;
    }
    Ok(())
}

// The lines of a script; an empty one has none.
fn lines_of_script(alloc: Global, script: &Text) -> Result<List<Text>, AllocError>
    ensures { IfOk result (λ lines. lines ≡ script_lines script.now) }
{
    if script.is_empty() {
        return Ok(List::new(alloc));
    }
    pieces(alloc, b'\n', script.bytes())
}

fn lines_of(alloc: Global, c: &Cluster, job: &Job, task: &Running) -> Result<List<Text>, AllocError>
    ensures { IfOk result (λ lines. lines ≡ serial_lines c.now job.now task.now) }
{
    let seconds = limit(alloc, seconds(alloc, c, job, task)?)?;
    let count = decimal_text(alloc, job.words.len() as u128)?;
    let script = lines_of_script(alloc, &job.script)?;
    let mut lines = List::new(alloc);
    lines.push(join_words(alloc, b" ", &[b"limit", seconds.bytes()])?)?;
    lines.push(join_words(alloc, b" ", &[b"words", count.bytes()])?)?;
    put_words(alloc, &mut lines, job.words.items())?;
    put_words(alloc, &mut lines, script.items())?;
    Ok(lines)
}

/// What a running task is to do, by its serial: its limit, its words and its script. A serial that no task has gives no
/// lines.
///
/// The first line is `limit` and how many seconds the task may run, or `-` where nothing limits it: the least of `h_rt`
/// and `s_rt` that its job asks for, else `default_duration`, and not past the end of the advance reservation that the
/// job names. The second is `words` and how many words the command has; behind it stands each of them on a line, and then
/// each line of the script. See the manual pages queue_conf, sched_conf and qrsub.
#[tactic(auto, unfolding(ge_model_report::specs::Orders::task_lines))]
pub fn task_lines(alloc: Global, c: &Cluster, serial: u64) -> Result<List<Text>, AllocError>
    ensures { IfOk result (λ lines. lines ≡ task_lines c.now serial) }
{
    match find_running(alloc, &c.jobs, serial) {
        None => Ok(List::new(alloc)),
        Some((_number, job, _task, running)) => lines_of(alloc, c, job, running),
    }
}
