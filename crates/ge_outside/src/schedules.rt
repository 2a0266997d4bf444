// Which calls of a form in memory fail.
ghost use Rattle.std.specs.Prelude.{◌≡◌, ◌↔◌, min, length, take, drop, IsTrue};

/// The calls that fail, by their numbers from 1 on, and how many calls were made.
#[derive(Drop)]
pub struct Schedule {
    pub fails: Vec<u64>,
    pub calls: u64,
}

impl Schedule {
    ghost use Rattle.ge_outside.specs.Schedules.{IsDue, next_call};

    pub fn new(fails: Vec<u64>) -> Self
        ensures { result ≡ record { fails = fails; calls = 0 } }
    {
        Schedule { fails, calls: 0 }
    }

    /// Counts one call more, and says whether that call fails.
    pub fn next_fails(&mut self) -> bool
        ensures due { IsTrue result ↔ IsDue self.old }
        ensures next { self.new ≡ next_call self.old }
    {
        self.calls = self.calls.saturating_add(1);
        let call = self.calls;
        self.fails.as_slice().contains(&call)
    }
}

/// Fills the front of `buf` from the front of `from`, as far as both go, and says how far that is.
pub fn fill(from: &[u8], buf: &mut [u8]) -> usize
    ensures count { result ≡ min (length buf.old) (length from.now) }
    ensures filled { take result buf.new ≡ take result from.now }
    ensures others { drop result buf.new ≡ drop result buf.old }
{
    let count = buf.len().min(from.len());
    let (front, _) = from.split_at(count);
    buf[..count].copy_from_slice(front);
    count
}
