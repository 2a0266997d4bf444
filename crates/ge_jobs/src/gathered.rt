// Sets of tasks that targets of one job name, one after the other.
ghost use Rattle.std.specs.Prelude.{◌≡◌, IfOk, IsTrue, fold};
ghost use Rattle.ge_model_rows.specs.TaskRows.{is_form};
ghost use Rattle.ge_model_rows.specs.Sets.{union as union_of, meet as meet_of, difference as difference_of};

use ge_ranges::difference;
use ge_rows::{List, TaskSet, Twin};
use std::alloc::{AllocError, Global};
use std::marker::Model;

/// Sets of tasks, kept as they came. Contracts see their union, which isn't worked out: a target may name tasks far beyond
/// those of its job.
#[derive(Drop)]
pub(crate) struct Gathered {
    begun: TaskSet,
    further: List<TaskSet>,
}

impl Model for Gathered {
    ghost use Rattle.std.specs.Prelude.{List, fold, IsTrue};
    ghost use Rattle.std.specs.List.{list_all};
    ghost use Rattle.ge_model_rows.specs.TaskRows.{TaskSpan, is_form};
    ghost use Rattle.ge_model_rows.specs.Sets.{union};

    ghost Value = { List TaskSpan };

    ghost view = { λ g. fold union g.begun g.further };

    ghost invariant = { λ g. IsTrue (is_form g.begun) × IsTrue (list_all is_form g.further) };
}

/// One set.
pub(crate) fn one_set(alloc: Global, tasks: &TaskSet) -> Result<Gathered, AllocError>
    ensures { IfOk result (λ all. all ≡ tasks.now) }
{
    let begun = tasks.twin(alloc)?;
    let _form = begun.spans();
    Ok(Gathered {
        begun,
        further: List::new(alloc),
    })
}

/// One set more.
#[tactic(auto, using(crate::proofs::GatheredSets::one_more, crate::proofs::GatheredSets::more_formed))]
pub(crate) fn with_more(
    alloc: Global,
    all: Gathered,
    tasks: &TaskSet,
) -> Result<Gathered, AllocError>
    ensures { IfOk result (λ more. more ≡ union_of all tasks.now) }
{
    let Gathered { begun, mut further } = all;
    let set = tasks.twin(alloc)?;
    let _form = set.spans();
    further.push(set)?;
    Ok(Gathered { begun, further })
}

// A set without these, one after the other: once nothing is left, each further one costs a look.
fn without_each(alloc: Global, set: TaskSet, further: &[TaskSet]) -> Result<TaskSet, AllocError>
    ensures { IfOk result (λ left. left ≡ fold difference_of set further.now) }
{
    let mut left = set;
    for tasks in further {
        left = difference(alloc, &left, tasks)?;
    }
    Ok(left)
}

/// What is left of a set without all of them. A number that one of them has isn't looked at again.
#[tactic(auto, using(crate::proofs::GatheredSets::all_formed, crate::proofs::GatheredSets::each_left))]
pub(crate) fn left_of(alloc: Global, all: &Gathered, set: &TaskSet) -> Result<TaskSet, AllocError>
    ensures left { IfOk result (λ left. left ≡ difference_of set.now all.now) }
    ensures form { IsTrue (is_form all.now) }
    ensures set { IsTrue (is_form set.now) }
{
    let _form = set.spans();
    let first_left = difference(alloc, set, &all.begun)?;
    let left = without_each(alloc, first_left, all.further.items())?;
    Ok(left)
}

/// The part of a set that they have together: what isn't left without them.
#[tactic(auto, using(crate::proofs::GatheredSets::met_by_left))]
pub(crate) fn part_of(alloc: Global, all: &Gathered, set: &TaskSet) -> Result<TaskSet, AllocError>
    ensures part { IfOk result (λ part. part ≡ meet_of set.now all.now) }
    ensures form { IsTrue (is_form all.now) }
{
    let left = left_of(alloc, all, set)?;
    let part = difference(alloc, set, &left)?;
    Ok(part)
}
