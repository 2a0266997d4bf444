// The running task of a serial.
ghost use Rattle.std.specs.Prelude.{◌≡◌, find, is_some};
ghost use Rattle.std.specs.Option.{option_map};
ghost use Rattle.ge_model_jobs.specs.Serials.{has_serial, runs_serial, running_with};

use ge_rows::{Job, JobMark, JobRow, JobTable, MarkSort, Running, Table, Text};
use std::alloc::Global;

// The first job that runs a task with a serial, by the table's mark.
fn job_with(alloc: Global, jobs: &JobTable, serial: u64) -> Option<(&u32, &JobRow)>
    ensures { option_map (λ found. (found.0.now, found.1.now)) result
        ≡ find (runs_serial serial) jobs.now }
{
    let mark = JobMark {
        sort: MarkSort::Serial,
        name: Text::new(alloc),
        other: Text::new(alloc),
        number: serial,
    };
    jobs.find(&mark)
}

// The first running task that has a serial, by a walk over the running tasks of one job.
fn task_with(running: &Table<u32, Running>, serial: u64) -> Option<(&u32, &Running)>
    ensures { option_map (λ found. (found.0.now, found.1.now)) result
        ≡ find (has_serial serial) running.now }
{
    for (number, task) in running.iter() {
        if task.serial == serial {
            return Some((number, task));
        }
    }
    None
}

/// Whether a serial is that of a running task, by the mark of the job that runs it: it takes no memory, and no walk.
pub fn is_running(alloc: Global, jobs: &JobTable, serial: u64) -> bool
    ensures { result ≡ is_some (running_with jobs.now serial) }
{
    job_with(alloc, jobs, serial).is_some()
}

/// The running task that a serial names, with its number, and the job that runs it, with its own; of several the least, by job
/// and task. It takes no memory, and no walk but that over the running tasks of the one job.
pub fn find_running(
    alloc: Global,
    jobs: &JobTable,
    serial: u64,
) -> Option<(u32, &Job, u32, &Running)>
    ensures { option_map (λ found. (found.0, found.1.now, found.2, found.3.now)) result
        ≡ running_with jobs.now serial }
{
    let (number, row) = job_with(alloc, jobs, serial)?;
    let job = row.job();
    let (task, running) = task_with(&job.running, serial)?;
    Some((*number, job, *task, running))
}
