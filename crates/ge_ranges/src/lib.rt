//! Sets of task numbers (qsub, -t): read and printed, asked and changed.
//!
//! A set is a row of `ge_rows`, [`TaskSet`](ge_rows::TaskSet): its spans in their one form, which contracts see. What each call
//! gives is defined in `ge_model_rows`. No set is ever spelled out number by number, but where numbers are what is asked for:
//! putting in and taking out take one pass over the spans, and two sets are walked side by side.
//!
//! - [`parse_set`], [`RangeFault`], [`text`]: a set of a text, and its text.
//! - [`contains`], [`first`], [`next_after`], [`len`], [`is_empty`]: what is asked. These take no memory.
//! - [`insert`], [`remove`]; [`with_number`], [`without_number`] beside the set that they leave.
//! - [`union`], [`meet`], [`difference`]: two sets together.
//! - [`numbers`], [`first_of`]: all numbers, and the first so many; [`set_of`]: the set of rising numbers.
#![tactic(auto)]

mod asking;
mod combining;
mod cutting;
mod forming;
mod listing;
mod meeting;
mod merging;
mod parsing;
mod putting;
mod ranges;
mod spelling;

pub use asking::{contains, first, is_empty, len, next_after};
pub use combining::{difference, meet, union};
pub use ge_model_rows::RangeFault;
pub use listing::{first_of, numbers, set_of};
pub use parsing::parse_set;
pub use putting::{insert, remove, with_number, without_number};
pub use spelling::text;
