// A clock in memory.
ghost use Rattle.std.specs.Prelude.{◌≡◌, ◌≤◌, List, vec_len, drop, Some};

use crate::Clock;

/// A clock in memory, which gives chosen answers, and then the last of them for ever.
#[derive(Drop)]
pub struct MemClock {
    moments: Vec<u64>,
    at: usize,
    at_last: u64,
    ghost within: { at ≤ vec_len moments },
}

impl MemClock {
    ghost use Rattle.ge_outside.specs.MemoryClocks.{clock_answers, last_or_zero};

    /// A clock with these answers. It repeats the last, and gives 0 where there is none.
    pub fn new(moments: Vec<u64>) -> Self
        ensures { clock_answers result ≡ record { coming = moments.items; at_last = last_or_zero moments.items } }
    {
        let at_last = moments.as_slice().last().copied().unwrap_or(0);
        MemClock {
            moments,
            at: 0,
            at_last,
        }
    }
}

impl Clock for MemClock {
    ghost use Rattle.ge_outside.specs.MemoryClocks.{clock_answers};

    ghost answers = { λ c. Some (clock_answers c) };

    fn now(&mut self) -> u64 {
        if self.at == self.moments.len() {
            return self.at_last;
        }
        let moment = self.moments[self.at];
        self.at += 1;
        moment
    }
}
