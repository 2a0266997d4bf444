// Parts of spans.
ghost use Rattle.std.specs.Prelude.{◌≡◌, ◌-◌, ◌+◌, ◌*◌, ◌/◌, ◌%◌, ◌<◌, ◌^◌};
ghost use Rattle.std.specs.Option.{option_to_list};
ghost use Rattle.ge_model_rows.specs.Spans.{is_one as has_one, span_of, stretch, below_in, above_in};

use ge_rows::TaskSpan;

/// A quotient, 0 by 0.
pub(crate) fn quotient(a: u32, b: u32) -> u32
    ensures { result ≡ a / b }
{
    if b == 0 { 0 } else { a / b }
}

/// What is left of a division, all by 0.
pub(crate) fn rest_of(a: u32, b: u32) -> u32
    ensures { result ≡ a % b }
{
    if b == 0 { a } else { a % b }
}

/// Whether a span has one number.
pub(crate) fn is_one(span: &TaskSpan) -> bool
    ensures { result ≡ has_one span.now }
{
    span.first == span.last
}

/// From a first number to a last one by a step.
pub(crate) fn span_by(first: u32, last: u32, step: u32) -> TaskSpan
    ensures { result ≡ span_of first last step }
{
    TaskSpan {
        first,
        last,
        step: if first == last { 1 } else { step },
    }
}

/// The numbers from a first one that aren't above a bound.
pub(crate) fn stretched(first: u32, bound: u32, step: u32) -> Option<TaskSpan>
    ensures { option_to_list result ≡ stretch first bound step }
{
    if bound < first {
        return None;
    }
    let reach = (bound - first) - rest_of(bound - first, step);
    Some(span_by(first, first + reach, step))
}

/// The part of a span that isn't above a number.
pub(crate) fn part_up_to(span: &TaskSpan, bound: u32) -> Option<TaskSpan>
    ensures { option_to_list result ≡ below_in (bound + 1) span.now }
{
    if span.first <= bound {
        stretched(span.first, span.last.min(bound), span.step)
    } else {
        None
    }
}

/// The part of a span below a number.
pub(crate) fn below_part(span: &TaskSpan, n: u32) -> Option<TaskSpan>
    ensures { option_to_list result ≡ below_in n span.now }
{
    if span.first < n {
        stretched(span.first, span.last.min(n - 1), span.step)
    } else {
        None
    }
}

// The number of a span that is the next behind one, where it fits.
fn next_in(first: u32, step: u32, n: u32) -> u64
    ensures { result ≡ first + ((n - first) / step + 1) * step }
{
    let base = u64::from(n.saturating_sub(first) - rest_of(n.saturating_sub(first), step));
    u64::from(first) + base + u64::from(step)
}

/// The part of a span above a number.
pub(crate) fn above_part(span: &TaskSpan, n: u32) -> Option<TaskSpan>
    ensures { option_to_list result ≡ above_in n span.now }
{
    if n < span.first {
        return Some(*span);
    }
    let next = next_in(span.first, span.step, n);
    if u64::from(span.last) < next {
        None
    } else {
        stretched(next as u32, span.last, span.step)
    }
}
