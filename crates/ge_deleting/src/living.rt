// The live tasks of jobs.
ghost use Rattle.std.specs.Prelude.{◌≡◌, IfOk, map};
ghost use Rattle.std.specs.Option.{option_copied};
ghost use Rattle.ge_collections.specs.Keyed.{at_number};
ghost use Rattle.ge_ranges.specs.Forming.{is_rising};
ghost use Rattle.ge_model_jobs.specs.Holds as holds;
ghost use Rattle.ge_model_jobs.specs.Picks.{named_in};
ghost use Rattle.ge_model_core.specs.Targets.{is_none};
ghost use Rattle.ge_deleting.specs.Live.{live_in};
ghost use Rattle.ge_deleting.specs.Live as live;

use crate::asker::Asker;
use ge_jobs::NamedTasks;
use ge_ranges::{meet, set_of, union};
use ge_rows::{Cluster, Event, Job, List, Running, Table, TaskSet, Twin};
use std::alloc::{AllocError, Global};
use std::collections::BTreeMap;
use std::marker::Model;

// The numbers of the tasks that run.
fn running_numbers(alloc: Global, running: &Table<u32, Running>) -> Result<List<u32>, AllocError>
    ensures { IfOk result (λ numbers. numbers ≡ map (λ task. task.0) running.now) }
{
    let mut numbers = List::new(alloc);
    for (number, _running) in running.iter() {
        numbers.push(*number)?;
    }
    Ok(numbers)
}

// Whether numbers rise above one that lies below them all.
fn rise_above(low: u32, numbers: &[u32]) -> bool
    ensures { result ≡ is_rising low numbers.now }
{
    let mut last = low;
    for number in numbers {
        if *number <= last {
            return false;
        }
        last = *number;
    }
    true
}

// The tasks that run. They are keys of a table and at least 1, so that the test never fails.
fn running_tasks(alloc: Global, job: &Job) -> Result<TaskSet, AllocError>
    ensures { IfOk result (λ set. set ≡ holds.running_tasks job.now) }
{
    let numbers = running_numbers(alloc, &job.running)?;
    if !rise_above(0, numbers.items()) {
        return Err(AllocError);
    }
    set_of(alloc, numbers.items())
}

fn live_tasks(alloc: Global, job: &Job) -> Result<TaskSet, AllocError>
    ensures { IfOk result (λ set. set ≡ holds.live_tasks job.now) }
{
    let waiting = union(alloc, &job.queued, &job.broken)?;
    let running = running_tasks(alloc, job)?;
    union(alloc, &waiting, &running)
}

// The live tasks of a job that may not be there.
fn tasks_of(alloc: Global, job: Option<&Job>) -> Result<TaskSet, AllocError>
    ensures { IfOk result (λ set. set ≡ live_in (option_copied job.entry)) }
{
    match job {
        None => Ok(TaskSet::new(alloc)),
        Some(job) => live_tasks(alloc, job),
    }
}

// The part of a set that a target's tasks have, all where it names none.
fn part_of(alloc: Global, tasks: &Option<TaskSet>, set: &TaskSet) -> Result<TaskSet, AllocError>
    ensures { IfOk result (λ part. part ≡ named_in tasks.now set.now) }
{
    match tasks {
        None => set.twin(alloc),
        Some(tasks) => meet(alloc, set, tasks),
    }
}

fn has_none(set: &TaskSet) -> bool
    ensures { result ≡ is_none set.now }
{
    set.spans().len() == 0
}

/// The live tasks of jobs, for the user of an event. Contracts see the cluster and the event.
///
/// Those of a job are worked out where it is named first, so that naming it again costs no walk over its running tasks.
#[derive(Drop)]
pub(crate) struct LiveTasks<'a> {
    asker: Asker<'a>,
    sets: BTreeMap<u32, TaskSet>,
}

impl<'a> Model for LiveTasks<'a> {
    ghost use Rattle.ge_model_rows.specs.ClusterRows.{Cluster as ClusterRow};
    ghost use Rattle.ge_model_rows.specs.EventRows.{Event as EventRow};
    ghost use Rattle.ge_deleting.specs.Live.{AreLive};

    ghost Value = { ClusterRow × EventRow };

    ghost view = { λ l. l.asker };

    ghost invariant = { λ l. AreLive l.asker.0.jobs l.sets.entries };
}

impl<'a> LiveTasks<'a> {
    /// None are worked out yet, which takes no memory.
    pub(crate) fn new(alloc: Global, cluster: &'a Cluster, event: &'a Event) -> LiveTasks<'a>
        ensures { result ≡ (cluster.now, event.now) }
    {
        LiveTasks {
            asker: Asker::new(cluster, event),
            sets: BTreeMap::new(alloc),
        }
    }

    /// The user who asks.
    pub(crate) fn asker(&self) -> &Asker<'a>
        ensures { result.now ≡ self.now }
    {
        &self.asker
    }

    // Works out the live tasks of a job, unless that is done.
    fn learn(&mut self, alloc: Global, number: u32) -> Result<(), AllocError>
        ensures { self.new ≡ self.old }
    {
        if self.sets.contains_key(&number) {
            return Ok(());
        }
        let tasks = tasks_of(alloc, self.asker.job(number))?;
        self.sets.insert(number, tasks)?;
        Ok(())
    }

    /// The live tasks of a job that targets name together.
    pub(crate) fn picked(
        &mut self,
        alloc: Global,
        number: u32,
        named: &NamedTasks,
    ) -> Result<TaskSet, AllocError>
        ensures part { IfOk result (λ part. part
            ≡ named_in named.now (live.live_at self.old.0.jobs number)) }
        ensures same { self.new ≡ self.old }
    {
        self.learn(alloc, number)?;
        match self.sets.get(&number) {
            Some(set) => named.named_in(alloc, set),
            None => Err(AllocError),
        }
    }

    // Those that one target names.
    fn picked_by_one(
        &mut self,
        alloc: Global,
        number: u32,
        tasks: &Option<TaskSet>,
    ) -> Result<TaskSet, AllocError>
        ensures part { IfOk result (λ part. part
            ≡ named_in tasks.now (live.live_at self.old.0.jobs number)) }
        ensures same { self.new ≡ self.old }
    {
        self.learn(alloc, number)?;
        match self.sets.get(&number) {
            Some(set) => part_of(alloc, tasks, set),
            None => Err(AllocError),
        }
    }

    /// Whether a target names no live task of a job.
    pub(crate) fn names_none(
        &mut self,
        alloc: Global,
        number: u32,
        tasks: &Option<TaskSet>,
    ) -> Result<bool, AllocError>
        ensures none { IfOk result (λ none. none
            ≡ is_none (named_in tasks.now (live.live_at self.old.0.jobs number))) }
        ensures same { self.new ≡ self.old }
    {
        let part = self.picked_by_one(alloc, number, tasks)?;
        Ok(has_none(&part))
    }
}
