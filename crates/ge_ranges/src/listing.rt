// Sets and the lists of their numbers.
ghost use Rattle.std.specs.Prelude.{◌≡◌, ◌≤◌, ◌+◌, ◌*◌, ◌++◌, IfOk, OnOk, IsTrue, map, take, List as Items};
ghost use Rattle.ge_model_rows.specs.TaskRows.{TaskSpan as SpanOf};
ghost use Rattle.ge_model_rows.specs.Spans.{one, steps_of, span_numbers};
ghost use Rattle.ge_model_rows.specs.Sets.{numbers_of, set_of as set_of_numbers};
ghost use Rattle.ge_ranges.specs.Forming.{formed_from, has_second, is_rising};

use crate::asking::{len, steps};
use crate::forming::{Forming, add, finish, nothing};
use crate::putting::one_number;
use ge_rows::{List, TaskSet, TaskSpan};
use std::alloc::{AllocError, Global};

// The number of a span that stands so many steps behind the first.
fn number_at(span: &TaskSpan, place: u64) -> u32
    requires span { IsTrue (has_second span.now) }
    requires within { place ≤ steps_of span.now }
    ensures { result ≡ span.now.first + place * span.now.step }
{
    (u64::from(span.first) + place * u64::from(span.step)) as u32
}

// The first numbers of a span, as far as there is room for them.
fn push_span(numbers: &mut List<u32>, span: &TaskSpan, room: u64) -> Result<(), AllocError>
    requires { IsTrue (has_second span.now) }
    ensures { OnOk result (numbers.new ≡ numbers.old ++ take room (span_numbers span.now)) }
{
    let count = room.min(u64::from(steps(span)) + 1);
    for place in 0..count {
        numbers.push(number_at(span, place))?;
    }
    Ok(())
}

/// The first numbers of a set, at most so many.
pub fn first_of(alloc: Global, s: &TaskSet, most: u64) -> Result<List<u32>, AllocError>
    ensures { IfOk result (λ numbers. numbers ≡ take most (numbers_of s.now)) }
{
    let mut numbers = List::new(alloc);
    for span in s.spans() {
        let room = most.saturating_sub(numbers.len() as u64);
        if room == 0 {
            return Ok(numbers);
        }
        push_span(&mut numbers, span, room)?;
    }
    Ok(numbers)
}

/// The numbers of a set, rising.
pub fn numbers(alloc: Global, s: &TaskSet) -> Result<List<u32>, AllocError>
    ensures { IfOk result (λ numbers. numbers ≡ numbers_of s.now) }
{
    let numbers = first_of(alloc, s, u64::from(len(s)))?;
    Ok(numbers)
}

fn add_numbers(forming: &mut Forming, numbers: &[u32]) -> Result<(), AllocError>
    ensures { OnOk result ((rest : Items SpanOf)
        → forming.new.done ++ formed_from forming.new.run rest
        ≡ forming.old.done ++ formed_from forming.old.run (map one numbers.now ++ rest)) }
{
    for number in numbers {
        add(forming, one_number(*number))?;
    }
    Ok(())
}

fn spans_of(alloc: Global, numbers: &[u32]) -> Result<List<TaskSpan>, AllocError>
    ensures { IfOk result (λ spans. spans ≡ set_of_numbers numbers.now) }
{
    let mut forming = nothing(alloc);
    add_numbers(&mut forming, numbers)?;
    finish(forming)
}

/// The set of numbers from 1 on that rise.
pub fn set_of(alloc: Global, numbers: &[u32]) -> Result<TaskSet, AllocError>
    requires { IsTrue (is_rising 0 numbers.now) }
    ensures { IfOk result (λ set. set ≡ set_of_numbers numbers.now) }
{
    let spans = spans_of(alloc, numbers)?;
    Ok(TaskSet::from_spans(spans))
}
