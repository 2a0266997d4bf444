//! Tickets of jobs: functional and override tickets (sched_conf, `weight_tickets_functional`; user and project, `fshare` and `oticket`; qsub, `-js`
//! and `-ot`), and share tickets (share_tree; sched_conf, `weight_tickets_share` and `halftime`).
//!
//! Contracts say by `ge_model_order` and `ge_model_jobs` what each call gives.
//!
//! - [`tickets`]: the functional and override tickets of each job of a list. The jobs of each user and of each project are counted once, and the
//!   shares are added up once; then each job's tickets are a few look-ups. [`has_own_alone`]: whether jobs have none but those that each was given.
//! - [`share_tickets`]: the share tickets of each job of a list: what the root of the share tree has goes down the tree, more of it to those that
//!   used less. The tree is walked once; usage and jobs are added along the line of each leaf, and the sums of children once for each parent.
//! - [`usage_at`]: the usage of a user and project at a moment.
#![tactic(auto)]

mod adding;
mod counting;
mod decaying;
mod dividing;
mod dividing_shares;
mod finding;
mod leveling;
mod listing;
mod nodes;
mod owning;
mod sharing;
mod summing;
mod walking;

pub use decaying::usage_at;
pub use listing::tickets;
pub use owning::has_own_alone;
pub use sharing::share_tickets;
