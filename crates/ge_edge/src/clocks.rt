// The system's clock.
ghost use Rattle.std.specs.Prelude.{None};

use ge_outside::Clock;
use std::time;

/// The system's clock: seconds since 1970. A clock that can't be read, or that is before 1970, says 0.
#[derive(Drop)]
pub struct SystemClock<'a, R: time::Clock> {
    clock: &'a R,
}

impl<'a, R: time::Clock> SystemClock<'a, R> {
    /// The clock of this runtime.
    pub fn new(clock: &'a R) -> Self {
        SystemClock { clock }
    }
}

impl<'a, R: time::Clock> Clock for SystemClock<'a, R> {
    ghost answers = { λ _. None };

    fn now(&mut self) -> u64 {
        match self.clock.since_1970() {
            Ok(since) => since.as_secs(),
            Err(_) => 0,
        }
    }
}
