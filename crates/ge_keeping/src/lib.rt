//! A value that is kept in a journal: each change is a record, or a snapshot of the whole value where too many records stand. A
//! stop at any moment leaves the value before the change or the one after it.
//!
//! - [`keep`]: keeps a value whose records are each the whole of it.
//! - [`is_compacting`], [`keep_record`], [`keep_snapshot`]: the same by parts, for a value whose records say what changed.
//! - [`KeepFault`]: why bytes were not kept.
//!
//! `specs/Keeping` says what is written and when, `specs/Homes` when a journal holds a value, `specs/Reading` and `specs/Opening` what
//! is read back of one, `specs/Changing` what keeping a whole value comes to. `proofs` has the laws for those who keep a value.
#![tactic(auto)]

mod faults;
mod storing;

pub use faults::KeepFault;
pub use storing::{is_compacting, keep, keep_record, keep_snapshot};
