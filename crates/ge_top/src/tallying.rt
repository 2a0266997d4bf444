// What became of requests, counted.
ghost use Rattle.std.specs.Prelude.{◌≡◌, if◌then◌else◌, ◌==◌, ◌+◌, ◌-◌, ◌*◌, ◌<◌, ◌≤◌, ◌^◌, ◌++◌, IfOk, codes, decimal, count_by, nat_eq};
ghost use Rattle.std.specs.List.{starts_with};
ghost use Rattle.ge_model_program.specs.Trials.{is_accepted, is_start, starts_in};
ghost use Rattle.ge_top.specs.Tallies.{HasRoom, Adds, tally_line};

use ge_rows::{Reply, Text};
use std::alloc::{AllocError, Global};

/// How many requests were answered, how many of them accepted, and how many tasks were started.
#[derive(Clone, Copy)]
pub(crate) struct Tally {
    pub(crate) requests: u64,
    pub(crate) accepted: u64,
    pub(crate) starts: u128,
}

fn is_start(line: &Text) -> bool
    ensures { result ≡ is_start line.now }
{
    line.bytes().starts_with(b"start ")
}

fn starts_in(reply: &Reply) -> usize
    ensures { result ≡ starts_in reply.now }
{
    reply
        .lines
        .items()
        .iter()
        .filter(|line| is_start(*line))
        .count()
}

impl Tally {
    pub(crate) fn new() -> Tally
        ensures requests { result.requests ≡ 0 }
        ensures accepted { result.accepted ≡ 0 }
        ensures starts { result.starts ≡ 0 }
    {
        Tally {
            requests: 0,
            accepted: 0,
            starts: 0,
        }
    }

    /// Counts a request with this code, and as many starts.
    pub(crate) fn count(&mut self, code: u8, starts: usize)
        requires { HasRoom self.old }
        ensures requests { self.new.requests ≡ self.old.requests + 1 }
        ensures accepted { self.new.accepted ≡ self.old.accepted + (if code == 0 then 1 else 0) }
        ensures starts { self.new.starts ≡ self.old.starts + starts }
    {
        self.requests += 1;
        if code == 0 {
            self.accepted += 1;
        }
        self.starts += starts as u128;
    }

    /// Counts a request that was answered so.
    pub(crate) fn add(&mut self, reply: &Reply)
        requires { HasRoom self.old }
        ensures { Adds self.old self.new reply.now }
    {
        self.count(reply.code, starts_in(reply))
    }

    /// The line that tells the counts.
    pub(crate) fn line(&self, alloc: Global) -> Result<Text, AllocError>
        requires { self.now.accepted ≤ self.now.requests }
        ensures { IfOk result (λ line. line ≡ tally_line self.now) }
    {
        let mut line = Text::from_bytes(alloc, b"requests ")?;
        line.append(self.requests.to_string(alloc)?.as_bytes())?;
        line.append(b" accepted ")?;
        line.append(self.accepted.to_string(alloc)?.as_bytes())?;
        line.append(b" refused ")?;
        line.append((self.requests - self.accepted).to_string(alloc)?.as_bytes())?;
        line.append(b" starts ")?;
        line.append(self.starts.to_string(alloc)?.as_bytes())?;
        line.append(b"\n")?;
        Ok(line)
    }
}
