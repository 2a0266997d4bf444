//! Other programs, as the execution daemon sees them: each is started under a number, asked whether it has ended, and killed.
//! A spawner counts its faults, so that a failure always has a cause, and tells what it started and killed and how that ended.
//!
//! - [`Spawner`]: the trait. [`Description`]: what a program may be told of its task. [`VANISHED`]: the exit of what was never begun.
//! - [`read_id`]: the number that words name.
//! - [`MemSpawner`]: programs in memory, which tell.
#![tactic(auto)]

mod ids;
mod memory;
mod spawners;

pub use ids::read_id;
pub use memory::{MemSpawner, Program};
pub use spawners::{Description, Spawner, VANISHED};
