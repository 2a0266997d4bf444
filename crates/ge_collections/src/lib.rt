//! The collections that every row is made of, each seen by contracts as one plain value.
//!
//! - [`Text`]: bytes; contracts see a list of numbers below 256.
//! - [`List`]: items in their order; contracts see a list.
//! - [`Table`]: a map in the order of its keys; contracts see the list of its pairs, whose keys strictly rise.
//! - [`walk`], [`next_at`], [`row_at`]: a walk over the rows of a table by number, beside numbers that rise.
//! - [`Edit`], [`TryEdit`]: an edit in place of one value of a table, without and with memory.
//! - [`Twin`]: an equal copy, which may want memory.
//!
//! A call that finds no memory answers `AllocError` and leaves the collection as it was.
#![tactic(auto)]

mod bytes;
mod comparing;
mod edit;
mod head;
mod inline_bytes;
mod list;
mod meeting;
mod table;
mod text;
mod twin;

pub use edit::{Edit, TryEdit};
pub use list::List;
pub use meeting::{next_at, row_at, walk};
pub use table::Table;
pub use text::Text;
pub use twin::{Twin, twins2, twins3, twins4};
