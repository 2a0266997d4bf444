// Scheduling runs: their starts, and the advance reservations that are over.
ghost use Rattle.std.specs.Prelude.{◌≡◌, ◌≤◌, IfOk, OnOk, fold};
ghost use Rattle.ge_model_jobs.specs.Starting.{start_task, greater_serial, serial_past, is_joined, is_left, left_booked, with_run};
ghost use Rattle.ge_applying.specs.Over.{over_numbers};

use crate::bookings::give_up;
use ge_jobs::start;
use ge_rows::{Advance, Cluster, JobMark, JobTable, List, MarkSort, Start, Table, Text};
use std::alloc::{AllocError, Global};

fn start_all(
    alloc: Global,
    jobs: &mut JobTable,
    moment: u64,
    starts: &[Start],
) -> Result<(), AllocError>
    ensures { OnOk result (jobs.new ≡ fold (start_task moment) jobs.old starts.now) }
{
    for one in starts {
        start(alloc, jobs, one, moment)?;
    }
    Ok(())
}

fn greatest_serial(first: u64, starts: &[Start]) -> u64
    ensures { result ≡ fold greater_serial first starts.now }
{
    let mut most = first;
    for start in starts {
        most = most.max(start.serial);
    }
    most
}

// One past the greatest serial of these starts; without starts it stays.
fn next_serial(next: u64, starts: &[Start]) -> u64
    ensures { result ≡ serial_past next starts.now }
{
    match starts {
        [] => next,
        [first, more @ ..] => greatest_serial(first.serial, more).saturating_add(1),
    }
}

// Whether a live job joined the reservation of a number that isn't 0, by the table's mark.
fn bears_number(alloc: Global, jobs: &JobTable, number: u32) -> bool
    requires { 1 ≤ number }
    ensures { result ≡ is_joined jobs.now number }
{
    let mark = JobMark {
        sort: MarkSort::Advance,
        name: Text::new(alloc),
        other: Text::new(alloc),
        number: u64::from(number),
    };
    jobs.is_borne(&mark)
}

// Whether a live job names none.
fn some_without(jobs: &JobTable) -> bool
    ensures { result ≡ is_joined jobs.now 0 }
{
    for row in jobs.iter() {
        if row.1.job().advance == 0 {
            return true;
        }
    }
    false
}

// Whether a live job names a reservation. No reservation has the number 0, which no mark tells.
fn is_named(alloc: Global, jobs: &JobTable, number: u32) -> bool
    ensures { result ≡ is_joined jobs.now number }
{
    if number == 0 {
        some_without(jobs)
    } else {
        bears_number(alloc, jobs, number)
    }
}

// Whether a run at a moment leaves a reservation.
fn stays(alloc: Global, moment: u64, jobs: &JobTable, number: u32, advance: &Advance) -> bool
    ensures { result ≡ is_left moment jobs.now (number, advance.now) }
{
    moment < advance.until || is_named(alloc, jobs, number)
}

// The numbers of the reservations that it takes out.
fn numbers_over(
    alloc: Global,
    moment: u64,
    jobs: &JobTable,
    advances: &Table<u32, Advance>,
) -> Result<List<u32>, AllocError>
    ensures { IfOk result (λ numbers. numbers ≡ over_numbers moment jobs.now advances.now) }
{
    let mut numbers = List::new(alloc);
    for (number, advance) in advances.iter() {
        if !stays(alloc, moment, jobs, *number, advance) {
            numbers.push(*number)?;
        }
    }
    Ok(numbers)
}

// Reservations go that are over and that no live job joined.
#[tactic(auto, using(crate::proofs::LeftRows::all_left))]
fn drop_over(
    alloc: Global,
    moment: u64,
    jobs: &JobTable,
    advances: &mut Table<u32, Advance>,
) -> Result<(), AllocError>
    ensures { OnOk result (advances.new ≡ left_booked moment jobs.now advances.old) }
{
    advances.orderly();
    let numbers = numbers_over(alloc, moment, jobs, advances)?;
    give_up(advances, numbers.items());
    Ok(())
}

/// A run at a moment starts its tasks; after them reservations go that are over and that no live job joined.
#[tactic(auto, unfolding(ge_model_jobs::specs::Starting::with_run))]
pub(crate) fn run(
    alloc: Global,
    c: &mut Cluster,
    moment: u64,
    starts: &[Start],
) -> Result<(), AllocError>
    ensures { OnOk result (c.new ≡ with_run moment c.old starts.now) }
{
    start_all(alloc, &mut c.jobs, moment, starts)?;
    drop_over(alloc, moment, &c.jobs, &mut c.advances)?;
    c.next_serial = next_serial(c.next_serial, starts);
    c.last_run = moment;
    Ok(())
}
