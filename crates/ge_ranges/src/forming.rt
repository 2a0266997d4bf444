// A set made from spans that come from the least number on.
ghost use Rattle.std.specs.Prelude.{◌≡◌, ◌++◌, ◌∷◌, [], List as Items, IfOk, OnOk, IsTrue};
ghost use Rattle.std.specs.Option.{option_to_list};
ghost use Rattle.ge_model_rows.specs.TaskRows.{TaskSpan as SpanOf};
ghost use Rattle.ge_model_rows.specs.Spans.{run_goes_on, lengthened, runs_from, in_form};
ghost use Rattle.ge_ranges.specs.Forming.{formed_from, has_second, have_seconds};

use crate::cutting::{is_one, span_by};
use ge_rows::{List, TaskSpan};
use std::alloc::{AllocError, Global};

/// Spans that are done, and the run that is being made.
#[derive(Drop)]
pub(crate) struct Forming {
    pub(crate) done: List<TaskSpan>,
    pub(crate) run: Option<TaskSpan>,
}

/// No span so far.
pub(crate) fn nothing(alloc: Global) -> Forming
    ensures { (rest : Items SpanOf) → result.done ++ formed_from result.run rest ≡ in_form rest }
{
    Forming {
        done: List::new(alloc),
        run: None,
    }
}

fn goes_further(run: TaskSpan, n: u32) -> bool
    ensures { result ≡ run_goes_on run n }
{
    is_one(&run) || n.saturating_sub(run.last) == run.step
}

fn longer(run: TaskSpan, n: u32) -> TaskSpan
    ensures { result ≡ lengthened run n }
{
    TaskSpan {
        first: run.first,
        last: n,
        step: n.saturating_sub(run.last),
    }
}

// A run and the next span: what is done, and the run that goes on.
fn join(run: TaskSpan, s: TaskSpan) -> (Option<TaskSpan>, TaskSpan)
    requires { IsTrue (has_second s) }
    ensures { (rest : Items SpanOf) → runs_from run (s ∷ rest) ≡ option_to_list result.0 ++ runs_from result.1 rest }
{
    if !goes_further(run, s.first) {
        (Some(run), s)
    } else if is_one(&s) {
        (None, longer(run, s.first))
    } else if s.first.saturating_sub(run.last) == s.step {
        (
            None,
            TaskSpan {
                first: run.first,
                last: s.last,
                step: s.step,
            },
        )
    } else {
        (
            Some(longer(run, s.first)),
            span_by(s.first + s.step, s.last, s.step),
        )
    }
}

/// One more span.
pub(crate) fn add(forming: &mut Forming, s: TaskSpan) -> Result<(), AllocError>
    requires { IsTrue (has_second s) }
    ensures { OnOk result ((rest : Items SpanOf)
        → forming.new.done ++ formed_from forming.new.run rest
        ≡ forming.old.done ++ formed_from forming.old.run (s ∷ rest)) }
{
    match forming.run {
        None => {
            forming.run = Some(s);
            Ok(())
        }
        Some(run) => {
            let (done, next) = join(run, s);
            if let Some(done) = done {
                forming.done.push(done)?;
            }
            forming.run = Some(next);
            Ok(())
        }
    }
}

/// One more span, if there is one.
pub(crate) fn add_some(forming: &mut Forming, s: Option<TaskSpan>) -> Result<(), AllocError>
    requires { IsTrue (have_seconds (option_to_list s)) }
    ensures { OnOk result ((rest : Items SpanOf)
        → forming.new.done ++ formed_from forming.new.run rest
        ≡ forming.old.done ++ formed_from forming.old.run (option_to_list s ++ rest)) }
{
    match s {
        None => Ok(()),
        Some(s) => add(forming, s),
    }
}

/// Spans more, in their order.
pub(crate) fn add_all(forming: &mut Forming, spans: &[TaskSpan]) -> Result<(), AllocError>
    requires { IsTrue (have_seconds spans.now) }
    ensures { OnOk result ((rest : Items SpanOf)
        → forming.new.done ++ formed_from forming.new.run rest
        ≡ forming.old.done ++ formed_from forming.old.run (spans.now ++ rest)) }
{
    for span in spans {
        add(forming, *span)?;
    }
    Ok(())
}

/// The set that was made.
pub(crate) fn finish(forming: Forming) -> Result<List<TaskSpan>, AllocError>
    ensures { IfOk result (λ spans. spans ≡ forming.done ++ formed_from forming.run []) }
{
    let Forming { mut done, run } = forming;
    if let Some(run) = run {
        done.push(run)?;
    }
    Ok(done)
}
