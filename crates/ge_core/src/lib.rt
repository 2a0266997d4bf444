//! The core of the master: what an event is answered with and changes, and what an entry does to the cluster.
//!
//! - [`plan`]: the reply to an event, the entry that it has where it changes something, and whether it stops the master.
//! - [`apply`]: the cluster after an entry.
//! - [`render`]: a reply as it is written.
//!
//! Nothing here reads or writes. Each call is the definition that its clause names, or wants memory. The plans of commands are
//! written in crates of their own, by family.
#![tactic(auto)]

mod booking;
mod planning;
mod rendering;
mod showing;

pub use ge_applying::apply;
pub use ge_rows::Planned;
pub use planning::plan;
pub use rendering::render;
