//! Ranges of task numbers as they are written, of any size.

ghost use Rattle.std.specs.Prelude.{◌≡◌, ◌-◌, ◌%◌, ◌≤◌, ◌<◌, ◌^◌, ◌∷◌, [], IfOk, IfSome, IsTrue};
ghost use Rattle.std.specs.Option.{option_map, option_to_list};
ghost use Rattle.ge_rows.specs.TaskSet.{is_form};
ghost use Rattle.ge_model_rows.specs.Pieces.{number_of};
ghost use Rattle.ge_model_rows.specs.Spans.{span_of};
ghost use Rattle.ge_model_rows.specs.Ranges.{digits_number, range_from, range_of_texts, range_up_to, range_of, range_set};
ghost use Rattle.ge_commands.specs.Shown.{range_shown};
ghost use Rattle.ge_commands.specs.Real.{is_real};

use ge_pieces::{before, behind, has, has_digits};
use ge_rows::{List, TaskSet, TaskSpan};
use std::alloc::{AllocError, Global};

/// A range `n`, `n-m` or `n-m:s`, each number cut at 2^128 - 1 (qsub, -t). The least number and the step are at least 1.
#[derive(Clone, Copy, PartialEq, Eq)]
pub struct WideRange {
    /// The least number.
    pub low: u128,
    /// The greatest number that may be in it.
    pub high: u128,
    /// The step.
    pub by: u128,
}

fn digit_of(b: u8) -> u128
    ensures { result ≡ b - 48 }
{
    u128::from(b.saturating_sub(b'0'))
}

fn wide_worth(digits: &[u8]) -> u128
    ensures { result ≡ number_of digits.now }
{
    let mut worth: u128 = 0;
    for digit in digits {
        worth = worth.saturating_mul(10).saturating_add(digit_of(*digit));
    }
    worth
}

fn wide_number(text: &[u8]) -> Option<u128>
    ensures { result ≡ digits_number text.now }
{
    if has_digits(text) {
        Some(wide_worth(text))
    } else {
        None
    }
}

fn range_of_numbers(low: u128, high: u128, by: u128) -> Option<WideRange>
    ensures range { option_map range_shown result ≡ range_from low high by }
    ensures real { IfSome result (λ r. IsTrue (is_real r)) }
{
    if low >= 1 && low <= high && by >= 1 {
        Some(WideRange { low, high, by })
    } else {
        None
    }
}

fn range_of_parts(low: &[u8], high: &[u8], by: &[u8]) -> Option<WideRange>
    ensures range { option_map range_shown result ≡ range_of_texts low.now high.now by.now }
    ensures real { IfSome result (λ r. IsTrue (is_real r)) }
{
    let low = wide_number(low)?;
    let high = wide_number(high)?;
    let by = wide_number(by)?;
    range_of_numbers(low, high, by)
}

fn range_behind_dash(low: &[u8], rest: &[u8]) -> Option<WideRange>
    ensures range { option_map range_shown result ≡ range_up_to low.now rest.now }
    ensures real { IfSome result (λ r. IsTrue (is_real r)) }
{
    if has(b':', rest) {
        range_of_parts(low, before(b':', rest), behind(b':', rest))
    } else {
        range_of_parts(low, rest, b"1")
    }
}

/// The range that a text is: `n` is the range of n alone (qsub, -t; qdel).
pub fn read_range(text: &[u8]) -> Option<WideRange>
    ensures range { option_map range_shown result ≡ range_of text.now }
    ensures real { IfSome result (λ r. IsTrue (is_real r)) }
{
    if has(b'-', text) {
        range_behind_dash(before(b'-', text), behind(b'-', text))
    } else {
        range_of_parts(text, text, b"1")
    }
}

/// Numbers of tasks are below this.
const TASK_NUMBERS: u128 = 4_294_967_296;

// From a first number to a last one by a step.
fn span_by(first: u128, last: u128, step: u128) -> TaskSpan
    requires ordered { first ≤ last }
    requires small { last < 2 ^ 32 }
    requires above { 1 ≤ first }
    requires moves { 1 ≤ step }
    requires reached { (last - first) % step ≡ 0 }
    ensures span { result ≡ span_of first last step }
    ensures form { IsTrue (is_form (result ∷ [])) }
{
    TaskSpan {
        first: first as u32,
        last: last as u32,
        step: if first == last { 1 } else { step as u32 },
    }
}

// The numbers of a range that a task may have, as one span.
#[tactic(auto, using(crate::proofs::Steps::steps_reach))]
fn span_of_tasks(wide: &WideRange) -> Option<TaskSpan>
    requires { IsTrue (is_real wide.now) }
    ensures span { option_to_list result ≡ range_set (range_shown wide.now) }
    ensures form { IsTrue (is_form (option_to_list result)) }
{
    if wide.low >= TASK_NUMBERS {
        return None;
    }
    let way = wide.high.min(TASK_NUMBERS - 1) - wide.low;
    Some(span_by(wide.low, wide.low + (way - way % wide.by), wide.by))
}

/// The numbers of a range below 2^32, as a set.
pub fn tasks_of_range(alloc: Global, wide: &WideRange) -> Result<TaskSet, AllocError>
    requires { IsTrue (is_real wide.now) }
    ensures { IfOk result (λ set. set ≡ range_set (range_shown wide.now)) }
{
    let mut spans = List::new(alloc);
    if let Some(span) = span_of_tasks(wide) {
        spans.push(span)?;
    }
    spans.shrink();
    Ok(TaskSet::from_spans(spans))
}
