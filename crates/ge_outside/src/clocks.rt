// A clock.
ghost use Rattle.std.specs.Prelude.{Option};
ghost use Rattle.ge_outside.specs.Clocks.{Answers, Ticks};

/// A clock, whose answers are any numbers, in no order. It can't fail.
pub trait Clock {
    /// The answers to come, where the clock tells them.
    ghost answers: { Self → Option Answers };

    /// The moment, in seconds.
    fn now(&mut self) -> u64
        ensures { Ticks (answers self.old) (answers self.new) result };
}
