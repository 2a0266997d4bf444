// Two sets together.
ghost use Rattle.std.specs.Prelude.{◌≡◌, ◌+◌, IfOk, IsTrue};
ghost use Rattle.ge_model_rows.specs.TaskRows.{is_form};
ghost use Rattle.ge_model_rows.specs.Sets.{together, count_of, union as union_of, meet as meet_of, difference as difference_of};

use crate::asking::len;
use crate::meeting::meet_together;
use crate::merging::{Wanted, merge};
use ge_rows::{List, TaskSet, TaskSpan};
use std::alloc::{AllocError, Global};

// The wanted numbers of two sets.
fn put_together(
    alloc: Global,
    wanted: Wanted,
    s: &TaskSet,
    t: &TaskSet,
) -> Result<List<TaskSpan>, AllocError>
    ensures value { IfOk result (λ made. made ≡ together wanted.alone wanted.shared wanted.others s.now t.now) }
    ensures one { IsTrue (is_form s.now) }
    ensures other { IsTrue (is_form t.now) }
{
    let turns = u64::from(len(s)) + u64::from(len(t)) + 1;
    merge(alloc, wanted, s.spans(), t.spans(), turns)
}

/// The numbers of either set.
pub fn union(alloc: Global, s: &TaskSet, t: &TaskSet) -> Result<TaskSet, AllocError>
    ensures { IfOk result (λ made. made ≡ union_of s.now t.now) }
{
    let wanted = Wanted {
        alone: true,
        shared: true,
        others: true,
    };
    let spans = put_together(alloc, wanted, s, t)?;
    Ok(TaskSet::from_spans(spans))
}

/// The numbers of both sets.
pub fn meet(alloc: Global, s: &TaskSet, t: &TaskSet) -> Result<TaskSet, AllocError>
    ensures { IfOk result (λ made. made ≡ meet_of s.now t.now) }
{
    let spans = meet_together(alloc, s, t)?;
    Ok(TaskSet::from_spans(spans))
}

// The numbers of the first set that the second doesn't have, walked side by side.
fn without(alloc: Global, s: &TaskSet, t: &TaskSet) -> Result<TaskSet, AllocError>
    ensures { IfOk result (λ made. made ≡ difference_of s.now t.now) }
{
    let wanted = Wanted {
        alone: true,
        shared: false,
        others: false,
    };
    let spans = put_together(alloc, wanted, s, t)?;
    Ok(TaskSet::from_spans(spans))
}

/// The numbers of the first set that the second doesn't have. What both have is found span by span, so that numbers of the second
/// alone cost nothing.
#[tactic(auto, using(crate::proofs::Removed::shared_removed))]
pub fn difference(alloc: Global, s: &TaskSet, t: &TaskSet) -> Result<TaskSet, AllocError>
    ensures { IfOk result (λ made. made ≡ difference_of s.now t.now) }
{
    let _first = s.spans();
    let _second = t.spans();
    let both = meet(alloc, s, t)?;
    let made = without(alloc, s, &both)?;
    Ok(made)
}
