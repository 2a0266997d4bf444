// Sets of tasks.
ghost use Rattle.std.specs.Prelude.{◌≡◌, ◌&&◌};
ghost use Rattle.ge_rows.specs.TaskSet.{is_single, is_run, is_apart, is_form_from, is_form};

use crate::canon::Canon;
use crate::lists::put_items;
use ge_model_codec::TakeFault;
use ge_rows::{List, TaskSet, TaskSpan, Text};
use std::alloc::{AllocError, Global};

// One number, at least 1.
fn is_single(span: &TaskSpan) -> bool
    ensures { result ≡ is_single span.now }
{
    span.first >= 1 && span.last == span.first && span.step == 1
}

// Two or more numbers, from 1 on, with one same difference.
fn is_run(span: &TaskSpan) -> bool
    ensures { result ≡ is_run span.now }
{
    span.first >= 1
        && span.first < span.last
        && span.step >= 1
        && (span.last - span.first) % span.step == 0
}

// Whether the next span stands above this one and doesn't lengthen it.
fn is_apart(span: &TaskSpan, next: &TaskSpan) -> bool
    ensures { result ≡ is_apart span.now next.now }
{
    span.last < next.first && next.first - span.last != span.step
}

// Whether the next span may stand behind this one.
fn may_follow(span: &TaskSpan, next: &TaskSpan) -> bool
    ensures { result ≡ (is_run span.now && is_apart span.now next.now) }
{
    is_run(span) && is_apart(span, next)
}

// Whether a span and those behind it have the form.
fn is_form_from(span: &TaskSpan, rest: &[TaskSpan]) -> bool
    ensures { result ≡ is_form_from span.now rest.now }
{
    let mut last = *span;
    for next in rest {
        if !may_follow(&last, next) {
            return false;
        }
        last = *next;
    }
    is_single(&last) || is_run(&last)
}

// Whether spans have the form of a set.
fn is_form(spans: &[TaskSpan]) -> bool
    ensures { result ≡ is_form spans.now }
{
    match spans.split_first() {
        Some((first, rest)) => is_form_from(first, rest),
        None => true,
    }
}

impl Canon for TaskSet {
    ghost use Rattle.ge_model_codec.specs.Jobs.{task_set_code};
    ghost use Rattle.ge_codec.specs.JobLaws.{task_set_canonical};

    ghost code = { task_set_code };

    ghost canonical = { task_set_canonical };

    fn put(&self, out: &mut Text) -> Result<(), AllocError> {
        let spans = self.spans();
        (spans.len() as u64).put(out)?;
        put_items(spans, out)
    }

    #[tactic(auto, using(crate::specs::Passing::fault_passes))]
    fn take(alloc: Global, bytes: &[u8], at: usize) -> Result<(TaskSet, usize), TakeFault> {
        let (spans, end) = <List<TaskSpan>>::take(alloc, bytes, at)?;
        if !is_form(spans.items()) {
            return Err(TakeFault::Range(at));
        }
        Ok((TaskSet::from_spans(spans), end))
    }
}
