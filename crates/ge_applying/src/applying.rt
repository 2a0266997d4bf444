// Entries.
ghost use Rattle.std.specs.Prelude.{◌≡◌, OnOk};
ghost use Rattle.ge_model_jobs.specs.Applying.{after_change, after_entry};

use crate::accounts::Told;
use crate::bookings::{book, unbook};
use crate::configuring::{put_item, remove_item};
use crate::deletions::delete_tasks;
use crate::ends::end_task;
use crate::hosts::put_report;
use crate::jobs::{add_job, alter_jobs, clear_jobs, hold_jobs, release_jobs};
use crate::runs::run;
use ge_rows::{Change, Cluster, Entry};
use std::alloc::{AllocError, Global};

// Makes a change at a moment.
#[tactic(auto, unfolding(ge_model_jobs::specs::Applying::after_change, ge_model_jobs::specs::Ending::with_end))]
fn make(alloc: Global, c: &mut Cluster, moment: u64, change: Change) -> Result<(), AllocError>
    ensures { OnOk result (c.new ≡ after_change moment c.old change) }
{
    match change {
        Change::Submit(job) => add_job(c, job),
        Change::Alter(altered) => alter_jobs(alloc, c, altered.items()),
        Change::Hold(numbers, bits) => {
            hold_jobs(c, numbers.items(), bits);
            Ok(())
        }
        Change::Release(numbers, bits) => {
            release_jobs(c, numbers.items(), bits);
            Ok(())
        }
        Change::Delete(picks, force) => delete_tasks(alloc, c, moment, picks.items(), force),
        Change::Clear(picks) => clear_jobs(alloc, c, picks.items()),
        Change::Put(item) => put_item(alloc, c, moment, item.get()),
        Change::Drop(key) => {
            remove_item(alloc, c, &key);
            Ok(())
        }
        Change::Load(host, report) => put_report(alloc, c, &host, &report),
        Change::End(serial, exit, cpu, mem, io) => {
            let told = Told {
                failure: 0,
                status: exit,
                time: cpu,
                memory: mem,
                transfer: io,
            };
            end_task(alloc, c, moment, serial, &told)
        }
        Change::Run(starts) => run(alloc, c, moment, starts.items()),
        Change::Book(advance) => book(alloc, c, advance.get()),
        Change::Unbook(numbers) => {
            unbook(c, numbers.items());
            Ok(())
        }
    }
}

/// Makes the cluster the one after an entry, whose job it takes over where it has one. After want of memory the value is
/// given up.
#[tactic(auto, unfolding(ge_model_jobs::specs::Applying::after_entry))]
pub fn apply(alloc: Global, cluster: &mut Cluster, entry: Entry) -> Result<(), AllocError>
    ensures { OnOk result (cluster.new ≡ after_entry cluster.old entry) }
{
    let Entry { moment, change } = entry;
    make(alloc, cluster, moment, change)?;
    cluster.last = moment;
    Ok(())
}
