// Ranges as they are written, whose numbers may be of any size.
ghost use Rattle.std.specs.Prelude.{◌≡◌, ◌≤◌, ◌+◌, ◌-◌, ◌*◌, ◌/◌, ◌^◌, ◌<◌, min, IsTrue, codes};
ghost use Rattle.std.specs.Option.{option_to_list};
ghost use Rattle.ge_model_rows.specs.TaskRows.{is_form};
ghost use Rattle.ge_model_rows.specs.Pieces.{number_of};
ghost use Rattle.ge_model_rows.specs.Spans.{steps_of};
ghost use Rattle.ge_model_rows.specs.Ranges.{range_from, digits_number, range_of_texts, range_up_to, range_of, reached, is_within_limits, range_set};

use ge_limits::{LAST_TASK, TASKS};
use ge_pieces::{before, behind, has, has_digits};
use ge_rows::TaskSpan;
use std::marker::Model;

/// A range as it is written. Contracts see the span of its three numbers.
#[derive(Drop)]
pub(crate) struct WrittenRange {
    least: u128,
    bound: u128,
    stride: u128,
}

impl Model for WrittenRange {
    ghost use Rattle.std.specs.Prelude.{◌≤◌};
    ghost use Rattle.ge_model_rows.specs.TaskRows.{TaskSpan};

    ghost Value = { TaskSpan };

    ghost view = { λ r. record { first = r.least; last = r.bound; step = r.stride } };

    ghost invariant = { λ r. (1 ≤ r.least) × (r.least ≤ r.bound) × (1 ≤ r.stride) };
}

fn digit_of(b: u8) -> u128
    ensures { result ≡ b - 48 }
{
    u128::from(b.saturating_sub(b'0'))
}

fn digits_value(digits: &[u8]) -> u128
    ensures { result ≡ number_of digits.now }
{
    let mut worth: u128 = 0;
    for digit in digits {
        worth = worth.saturating_mul(10).saturating_add(digit_of(*digit));
    }
    worth
}

fn number_in(text: &[u8]) -> Option<u128>
    ensures { result ≡ digits_number text.now }
{
    if has_digits(text) {
        Some(digits_value(text))
    } else {
        None
    }
}

fn from_numbers(first: u128, last: u128, step: u128) -> Option<WrittenRange>
    ensures { result ≡ range_from first last step }
{
    if 1 <= first && first <= last && 1 <= step {
        Some(WrittenRange {
            least: first,
            bound: last,
            stride: step,
        })
    } else {
        None
    }
}

fn from_texts(first: &[u8], last: &[u8], step: &[u8]) -> Option<WrittenRange>
    ensures { result ≡ range_of_texts first.now last.now step.now }
{
    let first = number_in(first)?;
    let last = number_in(last)?;
    let step = number_in(step)?;
    from_numbers(first, last, step)
}

fn up_to(first: &[u8], rest: &[u8]) -> Option<WrittenRange>
    ensures { result ≡ range_up_to first.now rest.now }
{
    if has(b':', rest) {
        from_texts(first, before(b':', rest), behind(b':', rest))
    } else {
        from_texts(first, rest, b"1")
    }
}

/// The range of a text (qsub, -t): `n`, `n-m` or `n-m:s`.
pub(crate) fn read_range(text: &[u8]) -> Option<WrittenRange>
    ensures { result ≡ range_of text.now }
{
    if has(b'-', text) {
        up_to(before(b'-', text), behind(b'-', text))
    } else {
        from_texts(text, text, b"1")
    }
}

// How far whole steps reach within a distance.
fn reach(distance: u128, step: u128) -> u128
    requires { 1 ≤ step }
    ensures value { result ≡ distance / step * step }
    ensures within { result ≤ distance }
{
    distance - distance % step
}

// A number of a task's type; a greater one is cut.
fn narrow(n: u128) -> u32
    ensures { result ≡ min n (2 ^ 32 - 1) }
{
    n.min(u128::from(u32::MAX)) as u32
}

impl WrittenRange {
    /// Whether it has no more numbers than a job may have tasks, and none that a task may not have.
    pub(crate) fn is_within_limits(&self) -> bool
        ensures { result ≡ is_within_limits self.now }
    {
        let distance = self.bound - self.least;
        distance / self.stride < u128::from(TASKS)
            && self.least + reach(distance, self.stride) <= u128::from(LAST_TASK)
    }

    /// Its numbers that a task's type has, as a span.
    pub(crate) fn span(&self) -> Option<TaskSpan>
        ensures span { option_to_list result ≡ range_set self.now }
        ensures form { IsTrue (is_form (range_set self.now)) }
    {
        let bound = self.bound.min(u128::from(u32::MAX));
        if bound < self.least {
            return None;
        }
        let last = self.least + reach(bound - self.least, self.stride);
        Some(TaskSpan {
            first: narrow(self.least),
            last: narrow(last),
            step: if last == self.least {
                1
            } else {
                narrow(self.stride)
            },
        })
    }
}
