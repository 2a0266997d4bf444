//! Words and numbers put together into the lines of replies, and configured objects printed, as `qconf -s` and its kin show them (qconf).
//!
//! Contracts see texts as the lists of their bytes, and say by the definitions of `ge_model_rows` and `ge_model_config` what is made. Nothing here
//! changes the cluster, and the only fault is want of memory.
//!
//! - [`join_words`]: texts that are lent, with one between each two. [`join_columns`]: columns, each a text, a number or millionths, written into
//!   one line. [`decimal_text`], [`append_decimal`], [`decimals4`]: numbers in decimal; [`number_list`]: as a list of them is printed. [`fixed`]:
//!   millionths with six decimals.
//! - [`print_item`]: the lines of an object. [`values_text`]: a list of `name=value`, as `complex_values` has it.
//! - `values`: values by the kinds of their complexes. `lines`: an attribute with its value. `attributes`: attributes of queues, with their
//!   overrides. `complexes`, `queues`, `pes`, `quotas`, `people`, `shares`, `settings`: one kind of object each.
//!
//! Each attribute stands on a line of its own, in the order of the object's manual page, with a blank before its value. Lists are joined by commas,
//! and an empty one is `NONE`.
#![tactic(auto)]

mod attributes;
mod columns;
mod complexes;
mod items;
mod joining;
mod lines;
mod numbers;
mod people;
mod pes;
mod queues;
mod quotas;
mod settings;
mod shares;
mod values;

pub use columns::{Column, join_columns};
pub use items::print_item;
pub use joining::join_words;
pub use numbers::{append_decimal, decimal_text, decimals4, fixed, number_list};
pub use values::values_text;
