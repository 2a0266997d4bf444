// The requests of the script, one by one.
ghost use Rattle.std.specs.Prelude.{◌≡◌, ℕ, [], ◌+◌, ◌-◌, ◌++◌, ◌∷◌, ◌≤◌, drop, if◌then◌else◌, IfOk, OnErr};
ghost use Rattle.ge_model_grammar.specs.Generated.{opening_requests, submit_request, state_behind_job, run_request, end_request, has_run, has_end, requests_from, generated_requests};
ghost use Rattle.ge_outside.specs.Draws.{next_state};
ghost use Rattle.ge_script.specs.Left.{left, left_at, behind_run, IsNext};

use crate::wording::{end_request, next_state, opening_request, run_request, submit_request};
use ge_rows::Text;
use std::alloc::{AllocError, Global};

/// Which request comes next behind the opening ones, with the number of its job.
#[derive(Clone, Copy)]
pub(crate) enum Turn {
    /// The job itself, unless it is past the last one.
    Submit(u64),
    /// The run behind the job.
    Run(u32),
    /// The end report behind the job.
    End(u32),
}

/// Gives the requests of the script that is made up from a number, in order.
#[derive(Drop)]
pub struct Generator {
    alloc: Global,
    // how many of the opening requests were given
    opened: usize,
    // the number of the last job
    last: u32,
    // the state of the draws
    state: u32,
    turn: Turn,
}

// What comes behind a job.
fn turn_behind_job(job: u32) -> Turn
    ensures { (last state : ℕ) → left_at last state result
        ≡ (if has_run job then run_request job ∷ [] else [])
        ++ ((if has_end job then end_request job state ∷ [] else [])
        ++ requests_from (last - job) (job + 1) (if has_end job then next_state state else state)) }
{
    if job % 4 == 0 {
        Turn::Run(job)
    } else {
        turn_behind_run(job)
    }
}

// What comes behind a run.
fn turn_behind_run(job: u32) -> Turn
    ensures { (last state : ℕ) → left_at last state result ≡ behind_run last job state }
{
    if job % 2 == 0 {
        Turn::End(job)
    } else {
        Turn::Submit(u64::from(job) + 1)
    }
}

impl Generator {
    /// The generator of the script of a number, which is that of its last job too.
    #[tactic(auto, using(crate::proofs::Steps::left_first))]
    pub fn new(alloc: Global, number: u32) -> Generator
        ensures { left result ≡ generated_requests number }
    {
        Generator {
            alloc,
            opened: 0,
            last: number,
            state: number,
            turn: Turn::Submit(1),
        }
    }

    fn next_job(&mut self, job: u32) -> Result<Option<Text>, AllocError>
        requires { job ≤ self.old.last }
        ensures next { IfOk result (λ next. IsNext (requests_from (self.old.last
            + 1 - job) job self.old.state) (left_at self.new.last self.new.state self.new.turn)
            next) }
        ensures opened { self.new.opened ≡ self.old.opened }
        ensures stays { OnErr result (self.new ≡ self.old) }
    {
        let first = next_state(self.state);
        let second = next_state(first);
        let third = next_state(second);
        let request = submit_request(self.alloc, job, first, second, third)?;
        self.state = third;
        self.turn = turn_behind_job(job);
        Ok(Some(request))
    }

    fn next_turn(&mut self) -> Result<Option<Text>, AllocError>
        ensures next { IfOk result (λ next. IsNext (left_at self.old.last self.old.state
            self.old.turn) (left_at self.new.last self.new.state self.new.turn) next) }
        ensures opened { self.new.opened ≡ self.old.opened }
        ensures stays { OnErr result (self.new ≡ self.old) }
    {
        match self.turn {
            Turn::Submit(job) => {
                if job > u64::from(self.last) {
                    return Ok(None);
                }
                self.next_job(job as u32)
            }
            Turn::Run(job) => {
                let request = run_request(self.alloc, job)?;
                self.turn = turn_behind_run(job);
                Ok(Some(request))
            }
            Turn::End(job) => {
                let request = end_request(self.alloc, job, self.state)?;
                self.state = next_state(self.state);
                self.turn = Turn::Submit(u64::from(job) + 1);
                Ok(Some(request))
            }
        }
    }

    /// The next request of the script, or none behind the last. Want of memory leaves the generator where it is.
    pub fn next(&mut self) -> Result<Option<Text>, AllocError>
        ensures next { IfOk result (λ next. IsNext (left self.old) (left self.new) next) }
        ensures stays { OnErr result (self.new ≡ self.old) }
    {
        match opening_request(self.opened) {
            Some(request) => {
                let text = Text::from_bytes(self.alloc, request)?;
                self.opened += 1;
                Ok(Some(text))
            }
            None => self.next_turn(),
        }
    }
}
