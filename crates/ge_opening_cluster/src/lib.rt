//! The cluster before the first command: [`opening`].
#![tactic(auto)]

mod cluster;
mod complexes;

pub use cluster::opening;
