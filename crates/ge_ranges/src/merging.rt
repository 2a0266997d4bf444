// Two sets of spans walked side by side, from the least number on.
ghost use Rattle.std.specs.Prelude.{◌≡◌, ◌+◌, ◌++◌, ◌∷◌, [], ℕ, suc, List as Items, IfOk, OnOk, IfSome, IfNone, Some, None, IsTrue};
ghost use Rattle.std.specs.Option.{option_to_list};
ghost use Rattle.ge_model_rows.specs.TaskRows.{TaskSpan as SpanOf};
ghost use Rattle.ge_model_rows.specs.Spans.{in_form, below_in, above_in};
ghost use Rattle.ge_model_rows.specs.Sets.{kept, shared_end as shared_end_of, merged};
ghost use Rattle.ge_ranges.specs.Forming.{formed_from, has_second, have_seconds, parted};

use crate::cutting::{above_part, below_part, part_up_to};
use crate::forming::{Forming, add_all, add_some, finish, nothing};
use ge_rows::{List, TaskSpan};
use std::alloc::{AllocError, Global};
use std::cmp::Ordering;

/// Which numbers of two sets are wanted: those of the first alone, of both, of the second alone.
#[derive(Clone, Copy)]
pub(crate) struct Wanted {
    pub(crate) alone: bool,
    pub(crate) shared: bool,
    pub(crate) others: bool,
}

// The first of what is left, a part of a span and the spans behind it, and what stands behind that.
fn front(part: Option<TaskSpan>, behind: &[TaskSpan]) -> Option<(TaskSpan, &[TaskSpan])>
    ensures some { IfSome result (λ found. Some (found.0, found.1.now) ≡ parted (option_to_list part ++ behind.now)) }
    ensures none { IfNone result (None ≡ parted (option_to_list part ++ behind.now)) }
{
    match part {
        Some(span) => Some((span, behind)),
        None => match behind.split_first() {
            Some((span, rest)) => Some((*span, rest)),
            None => None,
        },
    }
}

fn keep(forming: &mut Forming, wanted: bool, part: Option<TaskSpan>) -> Result<(), AllocError>
    requires { IsTrue (have_seconds (option_to_list part)) }
    ensures { OnOk result ((rest : Items SpanOf)
        → forming.new.done ++ formed_from forming.new.run rest
        ≡ forming.old.done ++ formed_from forming.old.run (kept wanted (option_to_list part) ++ rest)) }
{
    if wanted {
        add_some(forming, part)
    } else {
        Ok(())
    }
}

fn keep_all(
    forming: &mut Forming,
    wanted: bool,
    part: Option<TaskSpan>,
    behind: &[TaskSpan],
) -> Result<(), AllocError>
    requires part { IsTrue (have_seconds (option_to_list part)) }
    requires behind { IsTrue (have_seconds behind.now) }
    ensures { OnOk result ((rest : Items SpanOf)
        → forming.new.done ++ formed_from forming.new.run rest
        ≡ forming.old.done ++ formed_from forming.old.run (kept wanted (option_to_list part ++ behind.now) ++ rest)) }
{
    if wanted {
        add_some(forming, part)?;
        add_all(forming, behind)
    } else {
        Ok(())
    }
}

// Up to where two spans with one same first number have the same numbers.
fn shared_end(s: &TaskSpan, t: &TaskSpan) -> u32
    ensures { result ≡ shared_end_of s.now t.now }
{
    if s.step == t.step {
        s.last.min(t.last)
    } else {
        s.first
    }
}

// One turn: what is kept of the two first spans, and what is left of them.
fn turn(
    forming: &mut Forming,
    wanted: Wanted,
    s: TaskSpan,
    t: TaskSpan,
) -> Result<(Option<TaskSpan>, Option<TaskSpan>), AllocError>
    requires one { IsTrue (has_second s) }
    requires other { IsTrue (has_second t) }
    ensures merges { IfOk result (λ left. (turns : ℕ) (spans others : Items SpanOf)
        → forming.new.done ++ formed_from forming.new.run (merged wanted.alone wanted.shared wanted.others turns
        (option_to_list left.0 ++ spans) (option_to_list left.1 ++ others))
        ≡ forming.old.done ++ formed_from forming.old.run (merged wanted.alone wanted.shared wanted.others (suc turns)
        (s ∷ spans) (t ∷ others))) }
    ensures one { IfOk result (λ left. IsTrue (have_seconds (option_to_list left.0))) }
    ensures other { IfOk result (λ left. IsTrue (have_seconds (option_to_list left.1))) }
{
    match s.first.cmp(&t.first) {
        Ordering::Less => {
            keep(forming, wanted.alone, below_part(&s, t.first))?;
            Ok((above_part(&s, t.first - 1), Some(t)))
        }
        Ordering::Equal => {
            let end = shared_end(&s, &t);
            keep(forming, wanted.shared, part_up_to(&s, end))?;
            Ok((above_part(&s, end), above_part(&t, end)))
        }
        Ordering::Greater => {
            keep(forming, wanted.others, below_part(&t, s.first))?;
            Ok((Some(s), above_part(&t, s.first - 1)))
        }
    }
}

/// The wanted numbers of two sets, in their form, found in so many turns.
pub(crate) fn merge(
    alloc: Global,
    wanted: Wanted,
    spans: &[TaskSpan],
    others: &[TaskSpan],
    turns: u64,
) -> Result<List<TaskSpan>, AllocError>
    requires spans { IsTrue (have_seconds spans.now) }
    requires others { IsTrue (have_seconds others.now) }
    ensures { IfOk result (λ made. made
        ≡ in_form (merged wanted.alone wanted.shared wanted.others turns spans.now others.now)) }
{
    let mut forming = nothing(alloc);
    let mut left = (None, None);
    let mut spans = spans;
    let mut others = others;
    let mut turns = turns;
    while turns > 0 {
        turns -= 1;
        let Some((s, behind)) = front(left.0, spans) else {
            keep_all(&mut forming, wanted.others, left.1, others)?;
            let made = finish(forming)?;
            return Ok(made);
        };
        let Some((t, other_behind)) = front(left.1, others) else {
            keep_all(&mut forming, wanted.alone, left.0, spans)?;
            let made = finish(forming)?;
            return Ok(made);
        };
        left = turn(&mut forming, wanted, s, t)?;
        spans = behind;
        others = other_behind;
    }
    let made = finish(forming)?;
    Ok(made)
}
