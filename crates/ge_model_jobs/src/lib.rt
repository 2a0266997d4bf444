//! Jobs: their tasks, holds and eligible tasks; usage; the cluster after an entry.
//!
//! Definitions alone, without code.
//!
//! - `Holds`: which tasks live, are held, are eligible. `Picks`: the tasks that a target names. `Serials`: the running task of a serial.
//! - `Usage`: epochs, decay, and the usage of a user and project. `Accounts`: the accounting line of an end.
//! - `Orderly`: jobs by number, each with its tasks in one place; advance reservations by number.
//! - `Applying`: the cluster after an entry; `Altering`, `Ending`, `Configuring`, `Starting` have it by kind of change.
//!
//! Among the proofs: each entry leaves each task in at most one place, and sets in their form (`Orderly`); the tasks that array
//! predecessors hold are those that are held one by one (`HeldTasks`); targets joined job by job do what they do one after the
//! other (`JoinedPicks`); the task of a serial is the first that a walk meets (`WalkedSerials`); holds are bits set (`SetHolds`).
#![tactic(auto)]

/// What becomes of a running task that ends.
#[derive(Clone, Copy, PartialEq, Eq)]
pub enum After {
    /// The task is gone.
    Gone,
    /// It waits again.
    Again,
    /// It is in error.
    Broken,
}
