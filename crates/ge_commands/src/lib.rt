//! Texts to commands: what the first line and the lines behind it ask for (qsub, qalter, qdel, qhold, qrls, qmod, qconf, qstat, qacct, qrsub, qrdel,
//! qrstat), and the options of commands.
//!
//! [`parse`] meets the grammar of `ge_model_grammar` exactly: `parsed` of its `Parsing` says what each text is answered with. The words of a line are
//! lent from it, and each is copied once, into the command. No option and no target is looked at twice. `specs/Lent` and `specs/Shown` say how a
//! contract sees what is lent.
//!
//! - [`parse`]: the command of a text. [`option_words`], [`has_option`]: what options say.
//! - [`name_of_command`]: the name of a job that is made of its command. [`read_range`], [`tasks_of_range`]: a range of tasks of any size, and the
//!   tasks that it has.
//! - `merging`: of options as they are given, those that count.
//! - [`body`]: the body of a qconf command, cut into its parts without a look at the cluster: attributes, a rule set, the nodes of a share tree or
//!   rows of the table of complexes. [`value_in`], [`has_attribute`], [`value_or`] look an attribute up in those that a body gives.
//! - `submitting`: qsub, with the options of its script's `#$` lines. `targets`: qalter, qdel, qmod, qhold, qrls; `booking`: qrsub, qrdel;
//!   `showing`: qstat, qacct, qrstat. `configuring`: qconf; `reporting`: what daemons send and ask.
//! - `items`: readers of what commas join; `parsing`: all of them together.
#![tactic(auto)]

mod attributes;
mod bodies;
mod booking;
mod complexes;
mod configuring;
mod filters;
mod forms;
mod items;
mod known;
mod merging;
mod naming;
mod nodes;
mod parsing;
mod ranges;
mod reading;
mod reporting;
mod rule_sets;
mod rules;
mod shapes;
mod showing;
mod submitting;
mod targets;
mod wording;

pub use attributes::{has_attribute, value_in, value_or};
pub use bodies::body;
pub use naming::{has_option, name_of_command, option_words};
pub use parsing::parse;
pub use ranges::{WideRange, read_range, tasks_of_range};
