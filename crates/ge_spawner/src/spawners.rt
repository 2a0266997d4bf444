// Programs that are started, asked and killed.
ghost use Rattle.std.specs.Prelude.{◌≡◌, ℕ, Option, IfOk, OnOk, OnErr};
ghost use Rattle.ge_outside.specs.Faults.{HasCause};
ghost use Rattle.ge_spawner.specs.Spawning.{Told, Starts, Kills, Polls, IsNamed};

use ge_collections::{List, Text};
use ge_outside::Failed;

/// The exit of a program that was never begun, or that vanished without an exit.
pub const VANISHED: u8 = 100;

/// What a program may be told of the task that it is.
#[derive(Clone, Copy)]
pub struct Description {
    /// The number that it is started under.
    pub id: u64,
    /// Its job's number.
    pub job: u32,
    /// Its own among the job's tasks.
    pub task: u32,
    /// How many slots it has.
    pub slots: u32,
}

/// Other programs, each under the number that its first word writes.
pub trait Spawner {
    /// The starts, the kills and the ends, where the spawner tells them.
    ghost told: { Self → Option Told };

    /// How often a call has failed. A call that answers `Ok` leaves it.
    ghost spawn_faults: { Self → ℕ };

    /// Takes note of what the program that is started next under a number may be told. Nothing is started, and nothing need
    /// be noted.
    fn describe(&mut self, _description: Description)
        ensures told { told self.new ≡ told self.old }
        ensures faults { spawn_faults self.new ≡ spawn_faults self.old }
    {}

    /// Starts a program and doesn't wait for it. The first word is its number in decimal, the others are the program and
    /// its arguments.
    fn start(&mut self, words: &List<Text>) -> Result<u64, Failed>
        ensures named { IfOk result (λ id. IsNamed words.now id) }
        ensures started { IfOk result (λ id. Starts (told self.old) (told self.new) id words.now) }
        ensures kept { OnErr result (told self.new ≡ told self.old) }
        ensures cause { HasCause (spawn_faults self.old) (spawn_faults self.new) result }
        ensures no_fault { OnOk result (spawn_faults self.new ≡ spawn_faults self.old) };

    /// How the program of this number ended; None while it runs. One that was never begun ended with [`VANISHED`].
    fn poll(&mut self, id: u64) -> Result<Option<u8>, Failed>
        ensures polled { IfOk result (λ exit. Polls (told self.old) (told self.new) id exit) }
        ensures kept { OnErr result (told self.new ≡ told self.old) }
        ensures cause { HasCause (spawn_faults self.old) (spawn_faults self.new) result }
        ensures no_fault { OnOk result (spawn_faults self.new ≡ spawn_faults self.old) };

    /// Ends the program of this number.
    fn kill(&mut self, id: u64) -> Result<(), Failed>
        ensures killed { OnOk result (Kills (told self.old) (told self.new) id) }
        ensures kept { OnErr result (told self.new ≡ told self.old) }
        ensures cause { HasCause (spawn_faults self.old) (spawn_faults self.new) result }
        ensures no_fault { OnOk result (spawn_faults self.new ≡ spawn_faults self.old) };
}
