// Numbers put into a set and taken out.
ghost use Rattle.std.specs.Prelude.{◌≡◌, ◌≤◌, ◌++◌, ◌∷◌, [], List as Items, IfOk, OnOk, OnErr, IsTrue};
ghost use Rattle.ge_model_rows.specs.TaskRows.{TaskSpan as SpanOf, is_form};
ghost use Rattle.ge_model_rows.specs.Spans.{one};
ghost use Rattle.ge_model_rows.specs.Sets.{below, above, with_number as with_one, without_number as without_one};
ghost use Rattle.ge_ranges.specs.Forming.{formed_from, have_seconds};

use crate::cutting::{above_part, below_part};
use crate::forming::{Forming, add, add_some, finish, nothing};
use ge_rows::{List, TaskSet, TaskSpan};
use std::alloc::{AllocError, Global};

fn add_below(forming: &mut Forming, spans: &[TaskSpan], n: u32) -> Result<(), AllocError>
    ensures { OnOk result ((rest : Items SpanOf)
        → forming.new.done ++ formed_from forming.new.run rest
        ≡ forming.old.done ++ formed_from forming.old.run (below n spans.now ++ rest)) }
{
    for span in spans {
        add_some(forming, below_part(span, n))?;
    }
    Ok(())
}

fn add_above(forming: &mut Forming, spans: &[TaskSpan], n: u32) -> Result<(), AllocError>
    requires { IsTrue (have_seconds spans.now) }
    ensures { OnOk result ((rest : Items SpanOf)
        → forming.new.done ++ formed_from forming.new.run rest
        ≡ forming.old.done ++ formed_from forming.old.run (above n spans.now ++ rest)) }
{
    for span in spans {
        add_some(forming, above_part(span, n))?;
    }
    Ok(())
}

/// One number, as a span.
pub(crate) fn one_number(n: u32) -> TaskSpan
    ensures { result ≡ one n }
{
    TaskSpan {
        first: n,
        last: n,
        step: 1,
    }
}

fn spans_with(alloc: Global, spans: &[TaskSpan], n: u32) -> Result<List<TaskSpan>, AllocError>
    requires { IsTrue (have_seconds spans.now) }
    ensures { IfOk result (λ made. made ≡ with_one n spans.now) }
{
    let mut forming = nothing(alloc);
    add_below(&mut forming, spans, n)?;
    add(&mut forming, one_number(n))?;
    add_above(&mut forming, spans, n)?;
    finish(forming)
}

fn spans_without(alloc: Global, spans: &[TaskSpan], n: u32) -> Result<List<TaskSpan>, AllocError>
    requires { IsTrue (have_seconds spans.now) }
    ensures { IfOk result (λ made. made ≡ without_one n spans.now) }
{
    let mut forming = nothing(alloc);
    add_below(&mut forming, spans, n)?;
    add_above(&mut forming, spans, n)?;
    finish(forming)
}

/// The set with one number more.
pub fn with_number(alloc: Global, s: &TaskSet, n: u32) -> Result<TaskSet, AllocError>
    requires { 1 ≤ n }
    ensures { IfOk result (λ made. made ≡ with_one n s.now) }
{
    let spans = spans_with(alloc, s.spans(), n)?;
    Ok(TaskSet::from_spans(spans))
}

/// The set with one number less.
pub fn without_number(alloc: Global, s: &TaskSet, n: u32) -> Result<TaskSet, AllocError>
    ensures { IfOk result (λ made. made ≡ without_one n s.now) }
{
    let spans = spans_without(alloc, s.spans(), n)?;
    Ok(TaskSet::from_spans(spans))
}

/// Puts a number of at least 1 in, in one pass over the spans. After want of memory the set is as it was.
pub fn insert(alloc: Global, s: &mut TaskSet, n: u32) -> Result<(), AllocError>
    requires { 1 ≤ n }
    ensures ok { OnOk result (s.new ≡ with_one n s.old) }
    ensures err { OnErr result (s.new ≡ s.old) }
{
    *s = with_number(alloc, s, n)?;
    Ok(())
}

/// Takes a number out, in one pass over the spans. After want of memory the set is as it was.
pub fn remove(alloc: Global, s: &mut TaskSet, n: u32) -> Result<(), AllocError>
    ensures ok { OnOk result (s.new ≡ without_one n s.old) }
    ensures err { OnErr result (s.new ≡ s.old) }
{
    *s = without_number(alloc, s, n)?;
    Ok(())
}
