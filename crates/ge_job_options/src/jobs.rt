//! The job that a user submits, and the line that answers it (qsub).

ghost use Rattle.std.specs.Prelude.{◌≡◌, ◌++◌, ◌∷◌, [], IfOk, OnOk, IsTrue, Some, None, if◌then◌else◌, unwrap_or, codes, decimal};
ghost use Rattle.ge_model_rows.specs.Ranges.{range_set};
ghost use Rattle.ge_model_grammar.specs.Options.{has_option as option_is_there};
ghost use Rattle.ge_model_config.specs.Requests as requests;
ghost use Rattle.ge_model_core.specs.JobOptions as job_options;
ghost use Rattle.ge_model_core.specs.Submitting.{job_from, name_of_words as name_of, name_given as given_name, quoted as quoted_of, array_range_text, submitted_line as line_of};
ghost use Rattle.ge_commands.specs.Real.{is_real};
ghost use Rattle.ge_commands.specs.Shown.{range_shown};
ghost use Rattle.ge_job_options.specs.Held.{patch_with};

use crate::advances::{advance_named, no_request};
use crate::job_options::{asks, numbers_given, priority_given, texts_given};
use crate::option_values::yes_given;
use crate::submitted_tasks::span_of;
use ge_commands::{WideRange, has_option, name_of_command, tasks_of_range};
use ge_printing::append_decimal;
use ge_rows::{
    Cluster, Event, Job, List, Options, Request, Table, TaskSet, TaskSpan, Text, Twin, twins4,
};
use std::alloc::{AllocError, Global};

/// Room for the line of a submission, in bytes; that of a long name grows.
const LINE_ROOM: usize = 80;

// The name that is made of a command; STDIN without one.
fn name_of_words(alloc: Global, words: &[Text]) -> Result<Text, AllocError>
    ensures { IfOk result (λ name. name ≡ name_of words.now) }
{
    match words {
        [] => Text::from_bytes(alloc, b"STDIN"),
        [command, ..] => name_of_command(alloc, command.bytes()),
    }
}

fn name_given(alloc: Global, name: Option<Text>, words: &[Text]) -> Result<Text, AllocError>
    ensures { IfOk result (λ text. text ≡ given_name name words.now) }
{
    match name {
        None => name_of_words(alloc, words),
        Some(name) => Ok(name),
    }
}

fn account_given(alloc: Global, account: Option<Text>) -> Result<Text, AllocError>
    ensures { IfOk result (λ text. text ≡ unwrap_or account (codes "sge")) }
{
    match account {
        None => Text::from_bytes(alloc, b"sge"),
        Some(account) => Ok(account),
    }
}

fn request_given(alloc: Global, options: &Options, request: Request) -> Request
    ensures { result ≡ unwrap_or (if job_options.asks options.now.items then Some request else None)
        requests.no_request }
{
    if asks(options) {
        request
    } else {
        no_request(alloc)
    }
}

// The hold bits at first: that of the user with `-h`.
fn first_hold(options: &Options) -> u8
    ensures { result ≡ (if option_is_there options.now.items (codes "-h") then 1 else 0) }
{
    if has_option(options, b"-h") { 1 } else { 0 }
}

// The tasks of a job as it has them: their span and the set of those that wait.
fn tasks_of(alloc: Global, tasks: &WideRange) -> Result<(TaskSpan, TaskSet), AllocError>
    requires { IsTrue (is_real tasks.now) }
    ensures { IfOk result (λ both. both ≡ (
      range_shown tasks.now,
      range_set
          (range_shown tasks.now),
    )) }
{
    let span = span_of(tasks)?;
    let queued = tasks_of_range(alloc, tasks)?;
    Ok((span, queued))
}

/// The job that a user submits; what the options don't say has its default.
pub fn job_of_parts(
    alloc: Global,
    c: &Cluster,
    e: &Event,
    options: &Options,
    words: &List<Text>,
    script: &Text,
    tasks: &WideRange,
    request: Request,
    after: Option<List<u32>>,
    after_each: Option<List<u32>>,
) -> Result<Job, AllocError>
    requires { IsTrue (is_real tasks.now) }
    ensures { IfOk result (λ job. job ≡ job_from c.now e.now options.now.items words.now script.now
        (range_shown tasks.now) (patch_with options.now.items request after after_each)) }
{
    let (name, project, account) = texts_given(alloc, options)?;
    let name = name_given(alloc, name, words.items())?;
    let account = account_given(alloc, account)?;
    let (owner, group, mut words, script) = twins4(alloc, &e.user, &e.group, words, script)?;
    words.shrink();
    let (share, not_before, deadline, _) = numbers_given(options)?;
    let priority = priority_given(options)?;
    let (span, queued) = tasks_of(alloc, tasks)?;
    Ok(Job {
        number: c.next_job,
        name,
        owner,
        group,
        account,
        submitted: e.moment,
        priority: priority.unwrap_or(0),
        share: share.unwrap_or(0),
        project: project.unwrap_or(Text::new(alloc)),
        reserve: yes_given(options, b"-R").unwrap_or(false),
        not_before: not_before.unwrap_or(0),
        deadline: deadline.unwrap_or(0),
        request: request_given(alloc, options, request),
        array: has_option(options, b"-t"),
        span,
        queued,
        broken: TaskSet::new(alloc),
        running: Table::new(alloc),
        hold: first_hold(options),
        after: after.unwrap_or(List::new(alloc)),
        after_each: after_each.unwrap_or(List::new(alloc)),
        oticket: 0,
        words,
        script,
        advance: advance_named(options),
    })
}

// A line's first words, with room for those that mostly follow.
fn begun(alloc: Global, words: &[u8]) -> Result<Vec<u8>, AllocError>
    ensures { IfOk result (λ line. line.items ≡ words.now) }
{
    let mut line = Vec::with_capacity(alloc, LINE_ROOM)?;
    line.extend_from_slice(words)?;
    Ok(line)
}

fn append_quoted(line: &mut Vec<u8>, name: &[u8]) -> Result<(), AllocError>
    ensures { OnOk result (line.new.items ≡ line.old.items ++ quoted_of name.now) }
{
    line.extend_from_slice(b" (\"")?;
    line.extend_from_slice(name)?;
    line.extend_from_slice(b"\") has been submitted")?;
    Ok(())
}

fn range_text(alloc: Global, span: &TaskSpan) -> Result<Text, AllocError>
    ensures { IfOk result (λ text. text ≡ array_range_text span.now) }
{
    let mut text = Text::from_bytes(alloc, span.first.to_string(alloc)?.as_bytes())?;
    text.push(b'-')?;
    text.append(span.last.to_string(alloc)?.as_bytes())?;
    text.push(b':')?;
    text.append(span.step.to_string(alloc)?.as_bytes())?;
    Ok(text)
}

fn array_line(alloc: Global, job: &Job) -> Result<Text, AllocError>
    ensures { IfOk result (λ line. line ≡ codes "Your job-array " ++ decimal job.now.number
        ++ 46 ∷ array_range_text job.now.span ++ quoted_of job.now.name) }
{
    let mut line = begun(alloc, b"Your job-array ")?;
    append_decimal(&mut line, u128::from(job.number))?;
    line.push(b'.')?;
    line.extend_from_slice(range_text(alloc, &job.span)?.bytes())?;
    append_quoted(&mut line, job.name.bytes())?;
    Ok(Text::from_vec(line))
}

fn job_line(alloc: Global, job: &Job) -> Result<Text, AllocError>
    ensures { IfOk result (λ line. line ≡ codes "Your job " ++ decimal job.now.number
        ++ quoted_of job.now.name) }
{
    let mut line = begun(alloc, b"Your job ")?;
    append_decimal(&mut line, u128::from(job.number))?;
    append_quoted(&mut line, job.name.bytes())?;
    Ok(Text::from_vec(line))
}

/// The line that answers a submission: `Your job N ("NAME") has been submitted`, or `Your job-array N.F-L:S ..` for an array.
pub fn submitted_line(alloc: Global, job: &Job) -> Result<Text, AllocError>
    ensures { IfOk result (λ line. line ≡ line_of job.now) }
{
    if job.array {
        array_line(alloc, job)
    } else {
        job_line(alloc, job)
    }
}
