//! Windows of tasks.

ghost use Rattle.std.specs.Prelude.{◌≡◌, ◌&&◌, ◌||◌, Some, None, codes, cond};
ghost use Rattle.std.specs.Option.{option_copied, option_or};
ghost use Rattle.ge_collections.specs.Keyed.{at_text};
ghost use Rattle.ge_model_place.specs.Windows.{duration_of, lasts_at, least_asked, no_later_than};
ghost use Rattle.ge_model_place.specs.Windows as windows;

use ge_bookings::end_of_window;
use ge_complex::amount_in;
use ge_rows::{Advance, Cluster, Job, Value, is_time_of};

// What was met of a time, or else a value whose name is that of the time.
fn met_or<'a>(met: Option<&'a Value>, is_named: bool, value: &'a Value) -> Option<&'a Value>
    ensures { option_copied result
        ≡ option_or (option_copied met.entry) (cond is_named (Some value.now) None) }
{
    match met {
        Some(first) => Some(first),
        None => { if is_named { Some(value) } else { None } }
    }
}

/// The times that a job asks for.
#[derive(Clone, Copy)]
struct Times<'a> {
    hard: Option<&'a Value>,
    soft: Option<&'a Value>,
}

// Jobs ask for few things, so one walk for both times costs less than texts to look up.
#[tactic(auto, using(crate::proofs::FirstMet::met_more, crate::proofs::FirstMet::met_all))]
fn times_of(job: &Job) -> Times<'_>
    ensures hard { option_copied result.hard ≡ at_text job.now.request.asked (codes "h_rt") }
    ensures soft { option_copied result.soft ≡ at_text job.now.request.asked (codes "s_rt") }
{
    let mut hard: Option<&Value> = None;
    let mut soft: Option<&Value> = None;
    for (key, value) in job.request.asked.iter() {
        hard = met_or(hard, is_time_of(b'h', key), value);
        soft = met_or(soft, is_time_of(b's', key), value);
    }
    Times { hard, soft }
}

fn least_of(hard: Option<&Value>, soft: Option<&Value>, default: u64) -> u64
    ensures { result ≡ least_asked (option_copied hard.entry) (option_copied soft.entry) default }
{
    match (hard, soft) {
        (None, None) => default,
        (Some(hard), None) => amount_in(hard),
        (None, Some(soft)) => amount_in(soft),
        (Some(hard), Some(soft)) => amount_in(hard).min(amount_in(soft)),
    }
}

// How many seconds a task of a job is booked for.
fn duration(cluster: &Cluster, job: &Job) -> u64
    ensures { result ≡ duration_of cluster.now job.now }
{
    let Times { hard, soft } = times_of(job);
    least_of(hard, soft, cluster.sched.default_duration).max(1)
}

fn cut_at(advance: Option<&Advance>, end: u64) -> u64
    ensures { result ≡ no_later_than (option_copied advance.entry) end }
{
    match advance {
        Some(advance) => end.min(advance.until),
        None => end,
    }
}

/// Where the window of a job's task ends that starts at a moment: after the smaller of the times that it asks for, or else
/// the default duration, at least a second, and no later than the reservation that the job is sent into (queue_conf `h_rt`,
/// `s_rt`; sched_conf `default_duration`; qsub `-ar`).
pub fn window_end_from(cluster: &Cluster, job: &Job, from: u64) -> u64
    ensures { result ≡ windows.window_end_from cluster.now job.now from }
{
    let end = end_of_window(from, duration(cluster, job));
    cut_at(cluster.advances.get(&job.advance), end)
}

fn lasts(moment: u64, advance: Option<&Advance>) -> bool
    ensures { result ≡ lasts_at moment (option_copied advance.entry) }
{
    match advance {
        Some(advance) => advance.from <= moment && moment < advance.until,
        None => false,
    }
}

/// Whether a job's task may start at a moment: one that is sent into a reservation only while that lasts (qsub, `-ar`).
pub fn is_in_time(cluster: &Cluster, job: &Job, moment: u64) -> bool
    ensures { result ≡ windows.is_in_time cluster.now job.now moment }
{
    job.advance == 0 || lasts(moment, cluster.advances.get(&job.advance))
}
