// The urgency of a job (complex, sched_conf, sge_pe).
ghost use Rattle.std.specs.Prelude.{◌≡◌, ◌-◌, ◌/◌, ◌==◌, if◌then◌else◌, max};
ghost use Rattle.ge_base.specs.Fixed.{cut_product};
ghost use Rattle.ge_model_order.specs.Urgency.{urgency_of};
ghost use Rattle.ge_order.specs.Kinds as kinds;
ghost use Rattle.ge_order.specs.Standings.{AreUnits};

use crate::asked::{Units, resources_urgency, units_of};
use ge_base::{product_of, sum_of};
use ge_rows::{Cluster, Job};

/// The greatest urgency.
const GREATEST: u128 = (1 << 100) - 1;

fn waiting_urgency(c: &Cluster, submitted: u64, now: u64) -> u128
    ensures { result ≡ cut_product c.now.sched.w_waiting (now - submitted) }
{
    product_of(
        u128::from(c.sched.w_waiting),
        u128::from(now.saturating_sub(submitted)),
    )
}

fn deadline_urgency(c: &Cluster, deadline: u64, now: u64) -> u64
    ensures { result ≡ (if deadline == 0 then 0
        else c.now.sched.w_deadline / max 1 (deadline - now)) }
{
    if deadline == 0 {
        0
    } else {
        c.sched.w_deadline / deadline.saturating_sub(now).max(1)
    }
}

/// The urgency by what a request adds, the moment of the submission and the deadline, 0 for none.
pub(crate) fn urgency_by(c: &Cluster, asked: u128, submitted: u64, deadline: u64, now: u64) -> u128
    ensures { result ≡ kinds.urgency_by c.now asked submitted deadline now }
{
    let waiting = waiting_urgency(c, submitted, now);
    let nearing = u128::from(deadline_urgency(c, deadline, now));
    sum_of(sum_of(asked, waiting), nearing).min(GREATEST)
}

/// The urgency of a job, given what complexes tell.
#[tactic(auto, unfolding(ge_model_order::specs::Urgency::urgency_of))]
pub(crate) fn urgency_with(c: &Cluster, units: Units<'_>, job: &Job, now: u64) -> u128
    ensures { AreUnits c.now units.entry → result ≡ urgency_of c.now job.now now }
{
    let asked = resources_urgency(c, units, &job.request);
    urgency_by(c, asked, job.submitted, job.deadline, now)
}

/// The urgency of a job at a moment, in millionths: what each resource that it asks for adds (complex, urgency) for each unit and
/// assumed slot (sge_pe, urgency_slots), what waiting adds (sched_conf, weight_waiting_time), and what its deadline adds the
/// more the nearer it is (weight_deadline). At most 2^100 - 1. It takes no memory.
pub fn urgency(c: &Cluster, job: &Job, now: u64) -> u128
    ensures { result ≡ urgency_of c.now job.now now }
{
    urgency_with(c, units_of(c), job, now)
}
