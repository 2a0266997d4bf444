//! The system's programs, each behind a shell that outlives the daemon, as the spawner that [`ge_spawner`] speaks of. It tells
//! nothing of what runs; that a failing call is counted, and that a program is started under the number that its words name,
//! is proved.
//!
//! - [`ShellSpawner`]: starts, asks and kills.
#![tactic(auto)]

mod files;
mod shells;
mod shepherds;
mod sights;

pub use shells::ShellSpawner;
