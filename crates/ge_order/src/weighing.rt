// What is worked out for a job, kept for the next one: jobs of a site are mostly alike.
ghost use Rattle.std.specs.Prelude.{◌≡◌, IsTrue};
ghost use Rattle.ge_model_order.specs.Priority as priorities;
ghost use Rattle.ge_order.specs.Weighed as weighed;
ghost use Rattle.ge_order.specs.Weighed.{worked_by, IsWorked};

use crate::gathering::Candidate;
use crate::parts::{priority_part, tickets_part, urgency_part, weighted_sum};
use crate::priority::Scale;
use ge_rows::Sched;

/// Three numbers of a job, and what is worked out from them: the parts of its priority, and their weighted sum.
#[derive(Clone, Copy)]
pub(crate) struct Worked {
    /// `-p`.
    pub priority: i32,
    /// Its urgency.
    pub urgency: u128,
    /// Its tickets.
    pub tickets: u64,
    /// The part of `-p`.
    pub np: u64,
    /// That of its urgency.
    pub nu: u64,
    /// That of its tickets.
    pub nt: u64,
    /// The three, weighted.
    pub total: u128,
}

// The numbers of a job with the parts of its priority, which are weighted here.
fn with_parts(sched: &Sched, candidate: &Candidate, parts: (u64, u64, u64)) -> Worked
    ensures { result ≡ weighed.with_parts sched.now candidate.now.priority candidate.now.urgency
        candidate.now.tickets parts.0 parts.1 parts.2 }
{
    let (np, nu, nt) = parts;
    Worked {
        priority: candidate.priority,
        urgency: candidate.urgency,
        tickets: candidate.tickets,
        np,
        nu,
        nt,
        total: weighted_sum(sched, np, nu, nt),
    }
}

/// What is worked out from the numbers of a candidate.
#[tactic(auto, using(crate::proofs::Reworked::worked_anew))]
pub(crate) fn work_out(sched: &Sched, scale: &Scale, candidate: &Candidate) -> Worked
    ensures { result ≡ worked_by sched.now scale.now candidate.now.priority candidate.now.urgency
        candidate.now.tickets }
{
    let np = priority_part(candidate.priority);
    let nu = urgency_part(scale.low, scale.high, candidate.urgency);
    let nt = tickets_part(scale.most, candidate.tickets);
    with_parts(sched, candidate, (np, nu, nt))
}

fn np_after(last: &Worked, priority: i32) -> u64
    ensures { last.now.np ≡ priorities.priority_part last.now.priority
        → result ≡ priorities.priority_part priority }
{
    if last.priority == priority {
        last.np
    } else {
        priority_part(priority)
    }
}

fn nu_after(scale: &Scale, last: &Worked, urgency: u128) -> u64
    ensures { last.now.nu ≡ priorities.urgency_part scale.now.low scale.now.high last.now.urgency
        → result ≡ priorities.urgency_part scale.now.low scale.now.high urgency }
{
    if last.urgency == urgency {
        last.nu
    } else {
        urgency_part(scale.low, scale.high, urgency)
    }
}

fn nt_after(scale: &Scale, last: &Worked, tickets: u64) -> u64
    ensures { last.now.nt ≡ priorities.tickets_part scale.now.most last.now.tickets
        → result ≡ priorities.tickets_part scale.now.most tickets }
{
    if last.tickets == tickets {
        last.nt
    } else {
        tickets_part(scale.most, tickets)
    }
}

/// The same after another job: a part whose number hasn't changed is kept.
#[tactic(auto, using(crate::proofs::Reworked::worked_anew))]
pub(crate) fn work_after(sched: &Sched, scale: &Scale, last: &mut Worked, candidate: &Candidate)
    ensures { IsWorked sched.now scale.now last.old
        → last.new ≡ worked_by sched.now scale.now candidate.now.priority candidate.now.urgency
        candidate.now.tickets }
{
    let np = np_after(last, candidate.priority);
    let nu = nu_after(scale, last, candidate.urgency);
    let nt = nt_after(scale, last, candidate.tickets);
    *last = with_parts(sched, candidate, (np, nu, nt));
}

fn is_of(last: &Worked, candidate: &Candidate) -> bool
    ensures priority { IsTrue result → last.now.priority ≡ candidate.now.priority }
    ensures urgency { IsTrue result → last.now.urgency ≡ candidate.now.urgency }
    ensures tickets { IsTrue result → last.now.tickets ≡ candidate.now.tickets }
{
    let candidate = *candidate;
    last.tickets == candidate.tickets
        && last.urgency == candidate.urgency
        && last.priority == candidate.priority
}

/// Works on to the next candidate, from what was worked out for the last one.
#[tactic(auto, using(crate::proofs::Reworked::worked_again))]
pub(crate) fn work_on(sched: &Sched, scale: &Scale, last: &mut Worked, candidate: &Candidate)
    ensures { IsWorked sched.now scale.now last.old
        → last.new ≡ worked_by sched.now scale.now candidate.now.priority candidate.now.urgency
        candidate.now.tickets }
{
    if !is_of(last, candidate) {
        work_after(sched, scale, last, candidate);
    }
}
