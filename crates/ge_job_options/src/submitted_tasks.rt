//! The tasks of a submission (qsub, -t).

ghost use Rattle.std.specs.Prelude.{◌≡◌, ◌≤◌, ◌-◌, ◌*◌, ◌/◌, IfOk, IfSome, IsTrue, codes};
ghost use Rattle.std.specs.Option.{option_map, option_and_then};
ghost use Rattle.ge_model_rows.specs.Ranges.{range_of, reached as reached_of, range_set};
ghost use Rattle.ge_model_core.specs.OptionValues.{option_word as word_given};
ghost use Rattle.ge_model_core.specs.Submitting.{one_task as one_task_of, submitted_tasks, is_wide as is_wide_span};
ghost use Rattle.ge_commands.specs.Real.{is_real};
ghost use Rattle.ge_commands.specs.Shown.{range_shown};

use crate::option_values::option_word;
use ge_commands::{WideRange, read_range};
use ge_limits::{LAST_TASK, TASKS};
use ge_rows::{Options, TaskSpan};
use std::alloc::AllocError;

// Task 1, which a job that is no array has alone.
fn one_task() -> WideRange
    ensures range { range_shown result ≡ one_task_of }
    ensures real { IsTrue (is_real result) }
{
    WideRange {
        low: 1,
        high: 1,
        by: 1,
    }
}

// How far whole steps reach within a distance.
fn reach(distance: u128, step: u128) -> u128
    requires { 1 ≤ step }
    ensures value { result ≡ distance / step * step }
    ensures within { result ≤ distance }
{
    distance - distance % step
}

// A range up to the last number that its steps reach.
fn reached(range: WideRange) -> WideRange
    requires { IsTrue (is_real range) }
    ensures range { range_shown result ≡ reached_of (range_shown range) }
    ensures real { IsTrue (is_real result) }
{
    WideRange {
        low: range.low,
        high: range.low + reach(range.high - range.low, range.by),
        by: range.by,
    }
}

fn range_given(options: &Options) -> Option<WideRange>
    ensures range { option_map range_shown result
        ≡ option_and_then range_of (word_given options.now.items (codes "-t")) }
    ensures real { IfSome result (λ r. IsTrue (is_real r)) }
{
    match option_word(options, b"-t") {
        None => None,
        Some(word) => read_range(word),
    }
}

/// The tasks of a submission: its range up to the last number that its steps reach, and task 1 without `-t`.
pub fn tasks_submitted(options: &Options) -> WideRange
    ensures range { range_shown result ≡ submitted_tasks options.now.items }
    ensures real { IsTrue (is_real result) }
{
    match range_given(options) {
        None => one_task(),
        Some(range) => reached(range),
    }
}

/// How many steps lead from the least number of a range to the greatest.
pub(crate) fn steps_in(range: &WideRange) -> u128
    ensures { result ≡ (range.now.high - range.now.low) / range.now.by }
{
    range
        .high
        .saturating_sub(range.low)
        .checked_div(range.by)
        .unwrap_or(0)
}

/// Whether a range has more numbers than a job may have tasks, or goes or steps further than their numbers may.
pub(crate) fn is_wide(range: &WideRange) -> bool
    ensures { result ≡ is_wide_span (range_shown range.now) }
{
    steps_in(range) >= u128::from(TASKS)
        || range.high > u128::from(LAST_TASK)
        || range.by > u128::from(LAST_TASK)
}

/// A range that isn't too wide, as a job has it.
pub(crate) fn span_of(range: &WideRange) -> Result<TaskSpan, AllocError>
    ensures { IfOk result (λ span. span ≡ range_shown range.now) }
{
    let first = u32::try_from(range.low).map_err(|_| AllocError)?;
    let last = u32::try_from(range.high).map_err(|_| AllocError)?;
    let step = u32::try_from(range.by).map_err(|_| AllocError)?;
    Ok(TaskSpan { first, last, step })
}
