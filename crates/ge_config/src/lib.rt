//! The body of a qconf command made into a configured object, or the refusal that answers.
//!
//! Every part of a body is read, also where another one is refused, and of the refusals whose conditions hold one alone
//! is kept: the first in the order of their codes. A reader gives a value in any case; where something refuses it,
//! nothing comes of it.
//!
//! - [`read_body`]: what a text is answered with; [`read_item`]: what a body makes that was cut before.
//! - `values`, `pairs`, `overrides`: readers of amounts, names, lists of name=value, and values of a queue by host.
//! - `named`: the name of an object, and what this system doesn't have. `sets`: whether something comes twice.
//! - `hosts`, `environments`, `user_sets`, `people`, `settings`, `queues`, `groups`, `quotas`: one kind of object each, made of the attributes
//!   of its body.
//! - `complexes`: the table of complexes; `columns` has the words of its columns, `uses` what a new table would break.
//! - `shares`: the share tree; `share_lines` has its nodes as they are written, `share_tree` its shape, `share_scopes` whether names differ.
#![tactic(auto)]

mod columns;
mod complexes;
mod environments;
mod groups;
mod hosts;
mod named;
mod overrides;
mod pairs;
mod people;
mod queues;
mod quotas;
mod reading;
mod sets;
mod settings;
mod share_lines;
mod share_scopes;
mod share_tree;
mod shares;
mod user_sets;
mod uses;
mod values;

pub use reading::{read_body, read_item};
