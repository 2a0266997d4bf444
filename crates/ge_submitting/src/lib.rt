//! The plans of qsub and qalter: what refuses a submission or an alteration, and what it makes.
//!
//! Contracts say by the definitions of `ge_model_core` what each call gives. Everything is read, also where one part is refused;
//! of the refusals whose conditions hold the first by its code answers. What the options ask for stands below, in `ge_job_options`.
//!
//! - [`plan_submission`]: the plan of qsub.
//! - [`plan_alteration`]: the plan of qalter.
#![tactic(auto)]

mod altering;
mod submitting;

pub use altering::plan_alteration;
pub use submitting::plan_submission;
