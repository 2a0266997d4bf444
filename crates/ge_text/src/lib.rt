//! How a text is read: the words of a line, the names that a pattern stands for, and the amounts that a
//! text is worth.
//!
//! Commands, bodies and spooled lines all come as bytes, and everything above reads them by these calls.
//! What each gives is defined in `ge_model_text`, in the grammar's own words. Only [`words`] takes memory,
//! for its list: a pattern is tried in place, and an amount is read byte by byte.
//!
//! - [`words`], [`TextFault`]: the words of a line, lent from it.
//! - [`matches`]: whether a pattern stands for a name.
//! - [`read_int`], [`read_time`], [`read_memory`], [`read_fixed`], [`ValueFault`]: amounts below 2^48.
//! - [`amount`], [`Form`]: the same of a text of any length, without telling why it has none.
#![tactic(auto)]

mod amounts;
mod lending;
mod patterns;
mod progress;
mod splitting;

pub use amounts::{amount, read_fixed, read_int, read_memory, read_time};
pub use ge_model_text::{Form, ValueFault};
pub use lending::words;
pub use patterns::matches;
pub use splitting::TextFault;
