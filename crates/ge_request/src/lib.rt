//! What a job asks for: `-l`, `-q` and `-pe` (qsub, qalter).
//!
//! Contracts say by the definitions of `ge_model_config` what is read, or which refusal answers. All three options are
//! read, also where one of them is refused; of the refusals whose conditions hold the first by its code answers.
//!
//! - [`read_request`]: the request of a new job.
//! - [`change_request`]: the request of a job that asked for another one before.
//! - [`request_over`]: the request, whatever refuses it, with its refusals noted beside others.
//! - [`words_of_option`]: the words of an option that a command has.
#![tactic(auto)]

mod asking;
mod options;
mod places;
mod requesting;
mod slots;

pub use options::words_of_option;
pub use requesting::{change_request, read_request, request_over};
