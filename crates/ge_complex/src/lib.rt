//! Values of resources and the table of complexes (complex, sge_types).
//!
//! Contracts see the rows of `ge_rows`, and say by the definitions of `ge_model_rows` what each call gives. Texts may
//! have any length. Reading and printing want memory; what compares or looks up takes none, and lends rows of the table.
//!
//! - Read: [`value_of_text`], [`read_value`] with [`ValueError`].
//! - Printed: [`value_text`], [`amount_text`], [`fixed_text`], [`pair_text`].
//! - Compared: [`admits`], [`holds_between`], [`amounts_hold`].
//! - Looked up: [`complex_at`], [`complex_named`], [`is_consumable`], [`kind_for`]; many words by a [`ComplexFinder`].
//! - Of a value, a kind or a row: [`amount_in`], [`is_number_kind`], [`is_consumed`].
#![tactic(auto)]

mod comparing;
mod finding;
mod lookups;
mod printing;
mod reading;

pub use comparing::{admits, amounts_hold, holds_between};
pub use finding::ComplexFinder;
pub use ge_rows::amount_in;
pub use lookups::{complex_at, complex_named, is_consumable, is_consumed, kind_for};
pub use printing::{amount_text, fixed_text, pair_text, value_text};
pub use reading::{ValueError, is_number_kind, read_value, value_of_text};
