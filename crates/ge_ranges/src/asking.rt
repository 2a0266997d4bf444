// What is asked of a set.
ghost use Rattle.std.specs.Prelude.{◌≡◌, ◌-◌, ◌+◌, ◌*◌, ◌/◌, ◌%◌, ◌<◌, ◌≤◌, ◌^◌, min, IsTrue, ◌↔◌, []};
ghost use Rattle.ge_model_rows.specs.Spans.{in_span, steps_of};
ghost use Rattle.ge_model_rows.specs.Sets.{has_number, first_number, next_number, add_count, count_of};

use crate::cutting::{above_part, quotient, rest_of};
use ge_rows::{TaskSet, TaskSpan};

/// Whether a span has a number.
pub(crate) fn is_inside(span: &TaskSpan, n: u32) -> bool
    ensures { result ≡ in_span n span.now }
{
    span.first <= n && n <= span.last && rest_of(n.saturating_sub(span.first), span.step) == 0
}

/// Whether a set has a number.
pub fn contains(s: &TaskSet, n: u32) -> bool
    ensures { result ≡ has_number n s.now }
{
    s.spans().iter().any(|span| is_inside(span, n))
}

/// Whether a set has no number.
pub fn is_empty(s: &TaskSet) -> bool
    ensures { IsTrue result ↔ (s.now ≡ []) }
{
    s.spans().is_empty()
}

/// The least number.
pub fn first(s: &TaskSet) -> Option<u32>
    ensures { result ≡ first_number s.now }
{
    match s.spans() {
        [] => None,
        [span, ..] => Some(span.first),
    }
}

/// The least number above one.
pub fn next_after(s: &TaskSet, n: u32) -> Option<u32>
    ensures { result ≡ next_number n s.now }
{
    for span in s.spans() {
        if let Some(part) = above_part(span, n) {
            return Some(part.first);
        }
    }
    None
}

/// How many steps lead from a span's first number to its last.
pub(crate) fn steps(span: &TaskSpan) -> u32
    ensures { result ≡ steps_of span.now }
{
    quotient(span.last.saturating_sub(span.first), span.step)
}

fn count_after(count: u32, span: &TaskSpan) -> u32
    ensures count { result ≡ min (add_count count span.now) (2 ^ 32 - 1) }
    ensures small { span.now.last < 2 ^ 32 }
{
    let distance = span.last.saturating_sub(span.first);
    count
        .saturating_add(quotient(distance, span.step))
        .saturating_add(1)
}

/// How many numbers a set has.
pub fn len(s: &TaskSet) -> u32
    ensures { result ≡ count_of s.now }
{
    let mut count: u32 = 0;
    for span in s.spans() {
        count = count_after(count, span);
    }
    count
}
