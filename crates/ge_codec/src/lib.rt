//! Canonical bytes: each value is written to one list of bytes and read back from it, and no other bytes are read.
//!
//! - [`Canon`]: writing and reading, with the laws that every type keeps.
//! - `numbers`, `texts`, `pairs`, `lists`: the impls that all others are made of.
//! - [`TakeFault`]: why no value was read.
#![tactic(auto)]

mod canon;
mod lists;
mod maps;
mod numbers;
mod pairs;
mod rows;
mod tables;
mod texts;

pub use canon::{Canon, Format, Format1, Format2};
pub use ge_model_codec::TakeFault;
