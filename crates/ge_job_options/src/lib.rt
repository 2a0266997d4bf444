//! What the options of qsub, qalter and qrsub ask of a job: their words as values, and what refuses them.
//!
//! Contracts say by the definitions of `ge_model_core` and `ge_model_config` what each call gives. Everything is read, also where one
//! part is refused: the refusals are gathered, and the first by its code answers.
//!
//! - [`read_options`]: what the options ask for, with its refusals, for a [`Holder`]; [`Holds`]: the jobs of their hold lists.
//!   [`numbers_once`]: the numbers of jobs that targets name. [`tasks_submitted`]: the tasks of an array. [`note_sizes`]: what is too much.
//! - [`job_of_parts`], [`submitted_line`]: the job of a submission and its line; [`patch_of_parts`]: what an alteration changes;
//!   [`asks`], [`both_known`].
//! - [`Waits`], [`closes_any`]: whether hold lists would make jobs wait for one another for ever.
//! - [`note_advance`], [`note_join`]: what refuses the reservation that `-ar` names; [`no_request`]: a request that
//!   asks for nothing.
//! - [`option_word`], [`text_given`], [`number_given`]: the words of options as values.
#![tactic(auto)]

mod advances;
mod hold_lists;
mod holders;
mod job_options;
mod jobs;
mod limits;
mod numbers;
mod option_values;
mod owners;
mod reaching;
mod submitted_tasks;

pub use advances::{no_request, note_advance, note_join};
pub use holders::Holder;
pub use job_options::{Holds, asks, both_known, patch_of_parts, read_options};
pub use jobs::{job_of_parts, submitted_line};
pub use limits::note_sizes;
pub use numbers::numbers_once;
pub use option_values::{number_given, option_word, text_given};
pub use reaching::{Waits, closes_any};
pub use submitted_tasks::tasks_submitted;
