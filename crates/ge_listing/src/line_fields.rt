//! The fields of an accounting line.

ghost use Rattle.std.specs.Prelude.{◌≡◌, IfOk, decimal};
ghost use Rattle.ge_model_report.specs.Accounting.{line_text, wallclock};

use ge_pieces::or_none_text;
use ge_printing::{decimals4, join_words};
use ge_rows::{Line, Text};
use std::alloc::{AllocError, Global};

/// How long a task ran, in seconds: from its start to its end.
pub(crate) fn wallclock_of(line: &Line) -> u64
    ensures { result ≡ wallclock line.now }
{
    line.end.saturating_sub(line.start)
}

// The moments of a line, and its wallclock.
fn moments(alloc: Global, line: &Line) -> Result<(Text, Text, Text, Text), AllocError>
    ensures { IfOk result (λ texts. texts
        ≡ (decimal line.now.submitted, decimal line.now.start, decimal line.now.end, decimal (wallclock line.now))) }
{
    decimals4(
        alloc,
        u128::from(line.submitted),
        u128::from(line.start),
        u128::from(line.end),
        u128::from(wallclock_of(line)),
    )
}

// What the end of a task reports: whether it failed, its exit status, memory, and input and output.
fn reports(alloc: Global, line: &Line) -> Result<(Text, Text, Text, Text), AllocError>
    ensures { IfOk result (λ texts. texts
        ≡ (decimal line.now.failed, decimal line.now.exit, decimal line.now.mem, decimal line.now.io)) }
{
    decimals4(
        alloc,
        u128::from(line.failed),
        u128::from(line.exit),
        u128::from(line.mem),
        u128::from(line.io),
    )
}

// The numbers of a job and of its task, the slots, and the processor time.
fn numbers(alloc: Global, line: &Line) -> Result<(Text, Text, Text, Text), AllocError>
    ensures { IfOk result (λ texts. texts
        ≡ (decimal line.now.job, decimal line.now.slots, decimal line.now.task, decimal line.now.cpu)) }
{
    decimals4(
        alloc,
        u128::from(line.job),
        u128::from(line.slots),
        u128::from(line.task),
        u128::from(line.cpu),
    )
}

/// An accounting line as `qacct -j` has it, without its line feed: 21 fields with a colon between two. See the manual
/// page accounting.
///
/// The fields are `qname`, `hostname`, `group`, `owner`, `job_name`, `job_number`, `account`, `priority`,
/// `submission_time`, `start_time`, `end_time`, `failed`, `exit_status`, `ru_wallclock`, `project`, `granted_pe`,
/// `slots`, `task_number`, `cpu`, `mem` and `io`. Moments are in seconds, and the wallclock is the end less the start.
/// A queue, a host, a project or a parallel environment that is empty is `NONE`.
#[tactic(auto, unfolding(ge_model_report::specs::Accounting::line_text))]
pub fn line_text(alloc: Global, line: &Line) -> Result<Text, AllocError>
    ensures { IfOk result (λ text. text ≡ line_text line.now) }
{
    let (job, slots, task, cpu) = numbers(alloc, line)?;
    let (submitted, start, end, wallclock) = moments(alloc, line)?;
    let (failed, exit, mem, io) = reports(alloc, line)?;
    let priority = line.priority.to_string(alloc)?;
    let words: [&[u8]; 21] = [
        or_none_text(&line.queue),
        or_none_text(&line.host),
        line.group.bytes(),
        line.owner.bytes(),
        line.name.bytes(),
        job.bytes(),
        line.account.bytes(),
        priority.as_bytes(),
        submitted.bytes(),
        start.bytes(),
        end.bytes(),
        failed.bytes(),
        exit.bytes(),
        wallclock.bytes(),
        or_none_text(&line.project),
        or_none_text(&line.pe),
        slots.bytes(),
        task.bytes(),
        cpu.bytes(),
        mem.bytes(),
        io.bytes(),
    ];
    join_words(alloc, b":", &words)
}
