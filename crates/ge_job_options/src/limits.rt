//! What refuses a submission for its size (qsub).

ghost use Rattle.std.specs.Prelude.{◌≡◌, ◌+◌, nat_lt, length, sum_by};
ghost use Rattle.ge_model_rows.specs.Faults.{after_faults};
ghost use Rattle.ge_model_core.specs.Submitting as submitting;
ghost use Rattle.ge_commands.specs.Shown.{range_shown};

use crate::submitted_tasks::{is_wide, steps_in};
use ge_base::Refusal;
use ge_commands::WideRange;
use ge_limits::{
    COMMAND_WORDS, JOB_SCRIPT_BYTES, LAST_NUMBER, LIVE_JOBS, SCRIPTS_BYTES, TASKS_AND_LINES,
};
use ge_pieces::note;
use ge_rows::{Cluster, JobTable, List, Text};

// Whether so many jobs live, so far go their numbers, or so many words a command has.
fn is_full(c: &Cluster, words: &List<Text>) -> bool
    ensures { result ≡ submitting.is_full c.now words.now }
{
    c.jobs.len() >= LIVE_JOBS || c.next_job > LAST_NUMBER || words.len() > COMMAND_WORDS
}

// Whether the scripts of all live jobs together pass a bound with some bytes more.
#[tactic(auto, using(crate::proofs::Sizes::scripts_over))]
fn scripts_pass(jobs: &JobTable, bytes: u64) -> bool
    ensures { result ≡ nat_lt SCRIPTS_BYTES (sum_by submitting.script_length jobs.now + bytes) }
{
    jobs.totals().1.saturating_add(u128::from(bytes)) > u128::from(SCRIPTS_BYTES)
}

// Whether a script is too long, alone or with those of all live jobs.
fn is_script_over(c: &Cluster, script: &Text) -> bool
    ensures { result ≡ submitting.is_script_over c.now script.now }
{
    script.len() > JOB_SCRIPT_BYTES || scripts_pass(&c.jobs, script.len() as u64)
}

// Whether live tasks pass a bound with some more.
#[tactic(auto, using(crate::proofs::Sizes::tasks_over))]
fn tasks_pass(jobs: &JobTable, lines: usize, steps: u128) -> bool
    ensures { result ≡ nat_lt TASKS_AND_LINES (sum_by submitting.live_count jobs.now + lines
        + (steps + 1)) }
{
    jobs.totals()
        .0
        .saturating_add(lines as u128)
        .saturating_add(steps)
        .saturating_add(1)
        > TASKS_AND_LINES as u128
}

// Whether live tasks, accounting lines and the new tasks are too many together.
fn are_tasks_over(c: &Cluster, tasks: &WideRange) -> bool
    ensures { result ≡ submitting.are_tasks_over c.now (range_shown tasks.now) }
{
    tasks_pass(&c.jobs, c.lines.len(), steps_in(tasks))
}

/// Notes what is too large of a submission: `Limit`. The sums over all live jobs are those that their table keeps.
pub fn note_sizes(
    c: &Cluster,
    tasks: &WideRange,
    words: &List<Text>,
    script: &Text,
    faults: &mut Option<Refusal>,
)
    ensures { faults.new ≡ after_faults faults.old
        (submitting.size_faults c.now (range_shown tasks.now) words.now script.now) }
{
    note(
        faults,
        is_wide(tasks)
            || is_full(c, words)
            || is_script_over(c, script)
            || are_tasks_over(c, tasks),
        Refusal::Limit,
    );
}
