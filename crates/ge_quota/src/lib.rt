//! Resource quotas: which rule of a rule set matches, and what it counts a grant by (sge_resource_quota).
//!
//! Contracts say by `ge_model_place` what each call gives, and see a [`Who`] as the model's. The groups are those of the
//! cluster, spelled out.
//!
//! - [`limit_key`]: the key of one rule set, by the first of its rules that matches.
//! - [`keys`]: the keys of all rule sets, one for each resource that the first rule names.
//! - [`matching_rule`] and [`key`]: the first rule of one rule set that matches, and its key of one resource.
#![tactic(auto)]

mod asking;
mod counting;
mod filtering;
mod ruling;

pub use asking::Who;
pub use counting::{keys, limit_key, rule_key};
pub use ruling::{Numbered, matching_rule};
