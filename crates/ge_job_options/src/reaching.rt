//! Whether a job would wait for itself, over predecessors that live (qalter, -hold_jid, -hold_jid_ad).

ghost use Rattle.std.specs.Prelude.{◌≡◌, ◌++◌, [], IfOk, OnOk, length, reverse, unwrap_or};
ghost use Rattle.std.specs.List.{list_any};
ghost use Rattle.std.specs.Option.{option_copied};
ghost use Rattle.ge_model_core.specs.Reaching.{patched_after, waits_for, meets, all_predecessors as number_of_all, reaches_itself};
ghost use Rattle.ge_job_options.specs.Walking.{FindsPatches, LendsOne};

use ge_rows::{Cluster, Job, List, Patch, job_at};
use std::alloc::{AllocError, Global};
use std::collections::{BTreeMap, BTreeSet};
use std::marker::Model;

/// The patches by the numbers of their jobs, lent.
type ByNumber<'a> = BTreeMap<u32, &'a Patch>;

// Lends a patch for a number, unless one is there.
#[tactic(auto, using(crate::proofs::Patched::lent_one, crate::proofs::Patched::stays_one))]
fn lend_patch<'a>(found: &mut ByNumber<'a>, number: u32, patch: &'a Patch) -> Result<(), AllocError>
    ensures { OnOk result (LendsOne found.old.entries found.new.entries number patch.entry.now) }
{
    if !found.contains_key(&number) {
        found.insert(number, patch)?;
    }
    Ok(())
}

// The first patch of a number stays.
#[tactic(auto, using(crate::proofs::Patched::next_lent))]
fn patches_by_number(alloc: Global, patches: &[(u32, Patch)]) -> Result<ByNumber<'_>, AllocError>
    ensures { IfOk result (λ found. FindsPatches found.entries patches.now) }
{
    let mut found = BTreeMap::new(alloc);
    for (number, patch) in patches {
        lend_patch(&mut found, *number, patch)?;
    }
    Ok(found)
}

/// The predecessors of jobs once some patches are made. Contracts see the cluster and the patches.
#[derive(Drop)]
pub struct Waits<'a> {
    cluster: &'a Cluster,
    patches: &'a [(u32, Patch)],
    by_number: ByNumber<'a>,
}

impl<'a> Model for Waits<'a> {
    ghost use Rattle.std.specs.Prelude.{List as Items, ℕ};
    ghost use Rattle.ge_model_rows.specs.ClusterRows.{Cluster as ClusterRow};
    ghost use Rattle.ge_model_rows.specs.EntryRows.{Patch as PatchRow};
    ghost use Rattle.ge_job_options.specs.Walking.{FindsPatches};

    ghost Value = { ClusterRow × Items (ℕ × PatchRow) };

    ghost view = { λ w. (w.cluster.now, w.patches.now) };

    ghost invariant = { λ w. FindsPatches w.by_number.entries w.patches.now };
}

// The new list where there is one, else the old.
fn chosen<'a>(new: &'a Option<List<u32>>, old: &'a List<u32>) -> &'a [u32]
    ensures { result.now ≡ unwrap_or new.now old.now }
{
    match new {
        Some(new) => new.items(),
        None => old.items(),
    }
}

// The predecessors and the array predecessors of a job once a patch is made.
fn lists_of<'a>(job: &'a Job, patch: Option<&'a Patch>) -> (&'a [u32], &'a [u32])
    ensures { result.0.now ++ result.1.now ≡ patched_after job.now (option_copied patch.entry) }
{
    match patch {
        None => (job.after.items(), job.after_each.items()),
        Some(patch) => (
            chosen(&patch.after, &job.after),
            chosen(&patch.after_each, &job.after_each),
        ),
    }
}

// Puts numbers on a stack, so that the first of them is on top.
fn push_all(stack: &mut Vec<u32>, numbers: &[u32]) -> Result<(), AllocError>
    ensures { OnOk result (reverse stack.new.items ≡ numbers.now ++ reverse stack.old.items) }
{
    let mut at = numbers.len();
    while at > 0 {
        at -= 1;
        stack.push(numbers[at])?;
    }
    Ok(())
}

impl<'a> Waits<'a> {
    pub fn new(
        alloc: Global,
        cluster: &'a Cluster,
        patches: &'a [(u32, Patch)],
    ) -> Result<Waits<'a>, AllocError>
        ensures { IfOk result (λ waits. waits ≡ (cluster.now, patches.now)) }
    {
        let by_number = patches_by_number(alloc, patches)?;
        Ok(Waits {
            cluster,
            patches,
            by_number,
        })
    }

    // The predecessors and the array predecessors of a number; a job that doesn't live has none.
    fn lists(&self, number: u32) -> (&[u32], &[u32])
        ensures { result.0.now ++ result.1.now ≡ waits_for self.now.0 self.now.1 number }
    {
        match job_at(&self.cluster.jobs, number) {
            None => (&[], &[]),
            Some(job) => lists_of(job, self.by_number.get(&number).copied()),
        }
    }

    fn push_waits(&self, stack: &mut Vec<u32>, number: u32) -> Result<(), AllocError>
        ensures { OnOk result (reverse stack.new.items
            ≡ waits_for self.now.0 self.now.1 number ++ reverse stack.old.items) }
    {
        let (after, after_each) = self.lists(number);
        push_all(stack, after_each)?;
        push_all(stack, after)
    }

    fn count(&self, number: u32) -> u128
        ensures { result ≡ length (waits_for self.now.0 self.now.1 number) }
    {
        let (after, after_each) = self.lists(number);
        after.len() as u128 + after_each.len() as u128
    }

    // The number of all predecessors. It fits, so that the test of each step never fails.
    fn all_predecessors(&self) -> Result<u128, AllocError>
        ensures { IfOk result (λ all. all ≡ number_of_all self.now.0 self.now.1) }
    {
        let mut all: u128 = 0;
        for (number, _job) in self.cluster.jobs.iter() {
            match all.checked_add(self.count(*number)) {
                Some(more) => all = more,
                None => return Err(AllocError),
            }
        }
        Ok(all)
    }

    // Whether a job would reach itself within so many steps.
    fn reaches(&self, alloc: Global, goal: u32, all: u128) -> Result<bool, AllocError>
        ensures { IfOk result (λ reaches. reaches
            ≡ meets (waits_for self.now.0 self.now.1) goal all []
            (waits_for self.now.0 self.now.1 goal)) }
    {
        let mut steps = all;
        let mut seen = BTreeSet::new(alloc);
        let mut stack = Vec::new(alloc);
        self.push_waits(&mut stack, goal)?;
        'walk: while let Some(number) = stack.pop() {
            if steps == 0 {
                return Ok(false);
            }
            if number == goal {
                return Ok(true);
            }
            steps -= 1;
            if seen.insert(number)? {
                self.push_waits(&mut stack, number)?;
            }
        }
        Ok(false)
    }

    // Whether a job would reach itself; all predecessors were counted.
    fn reaches_itself(&self, alloc: Global, number: u32, all: u128) -> Result<bool, AllocError>
        requires { all ≡ number_of_all self.now.0 self.now.1 }
        ensures { IfOk result (λ reaches. reaches ≡ reaches_itself self.now.0 self.now.1 number) }
    {
        let reaches = self.reaches(alloc, number, all)?;
        Ok(reaches)
    }
}

/// Whether one of some jobs would wait for itself.
pub fn closes_any(
    alloc: Global,
    waits: &Waits,
    patches: &[(u32, Patch)],
) -> Result<bool, AllocError>
    ensures { IfOk result (λ closes. closes
        ≡ list_any (λ patch. reaches_itself waits.now.0 waits.now.1 patch.0) patches.now) }
{
    let all = waits.all_predecessors()?;
    for (number, _patch) in patches {
        if waits.reaches_itself(alloc, *number, all)? {
            return Ok(true);
        }
    }
    Ok(false)
}
