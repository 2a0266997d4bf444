// The numbers that two sets have both, found span by span.
ghost use Rattle.std.specs.Prelude.{◌≡◌, IfOk, IsTrue};
ghost use Rattle.std.specs.Option.{option_to_list};
ghost use Rattle.ge_model_rows.specs.TaskRows.{is_form};
ghost use Rattle.ge_model_rows.specs.Spans.{in_form};
ghost use Rattle.ge_model_rows.specs.Sets.{meet as meet_of};
ghost use Rattle.ge_ranges.specs.Forming.{have_seconds};
ghost use Rattle.ge_ranges.specs.Meeting.{met};
ghost use Rattle.ge_ranges.specs.Meeting as common;

use crate::asking::is_inside;
use crate::cutting::{above_part, stretched};
use crate::forming::{add_some, finish, nothing};
use crate::putting::one_number;
use ge_rows::{List, TaskSet, TaskSpan};
use std::alloc::{AllocError, Global};

// From a number on, by a step and up to a last one, the first that a span has; so many numbers are looked at.
#[tactic(auto, using(crate::proofs::Looked::found_here, crate::proofs::Looked::ends_here, crate::proofs::Looked::goes_on, crate::proofs::Looked::over))]
fn first_inside(turns: u32, span: &TaskSpan, n: u32, last: u32, step: u32) -> Option<u32>
    ensures { result ≡ common.first_inside turns span.now n last step }
{
    let mut n = n;
    let mut turns = turns;
    while turns > 0 {
        if is_inside(span, n) {
            return Some(n);
        }
        if last.saturating_sub(n) < step {
            return None;
        }
        n += step;
        turns -= 1;
    }
    None
}

// The first number above one that two spans share. The other span's numbers fall on the same places between the steps of the
// first one again after as many of them as its step, so that no more are looked at.
fn next_shared(span: &TaskSpan, other: &TaskSpan, n: u32) -> Option<u32>
    ensures { result ≡ common.next_shared span.now other.now n }
{
    let part = above_part(other, n)?;
    first_inside(span.step, span, part.first, part.last, part.step)
}

// The numbers that two spans share: from the first on, by the distance of the next one.
fn shared_by(span: &TaskSpan, other: &TaskSpan) -> Option<TaskSpan>
    ensures { option_to_list result ≡ common.shared_by span.now other.now }
{
    let first = next_shared(span, other, span.first.saturating_sub(1))?;
    match next_shared(span, other, first) {
        None => Some(one_number(first)),
        Some(second) => stretched(
            first,
            span.last.min(other.last),
            second.saturating_sub(first),
        ),
    }
}

// The numbers that two spans share. Those of the one with the greater step are looked at.
fn shared_part(s: &TaskSpan, t: &TaskSpan) -> Option<TaskSpan>
    ensures part { option_to_list result ≡ common.shared_part s.now t.now }
    ensures seconds { IsTrue (have_seconds (option_to_list result)) }
{
    if s.step <= t.step {
        shared_by(s, t)
    } else {
        shared_by(t, s)
    }
}

// Spans that end first are met with no more of the other set.
#[tactic(auto, using(crate::proofs::SharedSets::ends_first, crate::proofs::SharedSets::ends_later))]
fn met_spans(
    alloc: Global,
    spans: &[TaskSpan],
    others: &[TaskSpan],
) -> Result<List<TaskSpan>, AllocError>
    ensures { IfOk result (λ made. made ≡ in_form (met spans.now others.now)) }
{
    let mut forming = nothing(alloc);
    let mut spans = spans;
    let mut others = others;
    while let Some((s, behind)) = spans.split_first() {
        let Some((t, others_behind)) = others.split_first() else {
            return finish(forming);
        };
        add_some(&mut forming, shared_part(s, t))?;
        if s.last <= t.last {
            spans = behind;
        } else {
            others = others_behind;
        }
    }
    finish(forming)
}

/// The numbers of both sets, in their form. Each span of one is met with those of the other that it reaches to.
#[tactic(auto, using(crate::proofs::SharedSets::meets))]
pub(crate) fn meet_together(
    alloc: Global,
    s: &TaskSet,
    t: &TaskSet,
) -> Result<List<TaskSpan>, AllocError>
    ensures value { IfOk result (λ made. made ≡ meet_of s.now t.now) }
    ensures one { IsTrue (is_form s.now) }
    ensures other { IsTrue (is_form t.now) }
{
    met_spans(alloc, s.spans(), t.spans())
}
