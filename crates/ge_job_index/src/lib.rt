//! A table that is asked what its rows have in common, and answers without a walk.
//!
//! - [`Index`]: a map in the order of its keys; contracts see the list of its pairs, as of a plain table.
//! - [`Row`]: what an index keeps beside its rows: weights to sum, marks to find by and short rows to walk over.
//! - [`ShortRow`], [`Shorts`]: what a walk over all rows reads in place of the rows.
//! - [`Edit`], [`TryEdit`]: an edit in place of one row, which tells what it moves.
#![tactic(auto)]

mod counts;
mod edit;
mod finding;
mod gathering;
mod index;
mod kept;
mod keys;
mod ledger;
mod moved;
mod pairs;
mod row;
mod short;
mod short_row;
mod short_rows;
mod sums;

pub use edit::{Edit, TryEdit};
pub use index::Index;
pub use row::Row;
pub use short_row::{ShortRow, Shorts};
