//! What the crates of trials share: rows and their answers, bytes in hex, scripts that a few lines make.
//!
//! - [`tell_rows`]: a page of rows, by what answers them ([`Rows`]); [`no_such_row`]: the answer to a name that none has.
//! - [`at_bar`], [`bytes`], [`words_at`]: what a row gives. [`push_bytes`]: bytes as an answer has them.
//! - [`bytes_of`], [`append_hex`]: bytes as words of hex. [`area`], [`area_of`]: an area that holds some. [`append_all`]: parts of a text.
//! - [`failing`], [`moments`], [`append_closed`]: other devices in memory. [`times_borne`]: how often jobs bear a mark.
//! - [`made`]: a script that is made from a few lines. [`read_events`], [`first_event`]: its events. [`checksum`]: of what is told.
#![tactic(auto)]

mod appending;
mod areas;
mod bearing;
mod devices;
mod events;
mod making;
mod rows;
mod sums;
mod telling;
mod words;

pub use appending::{append_all, append_hex};
pub use areas::{area, area_of, bytes_of};
pub use bearing::times_borne;
pub use devices::{append_closed, failing, moments};
pub use events::{first_event, read_events};
pub use making::made;
pub use rows::{at_bar, bytes, push_bytes};
pub use sums::checksum;
pub use telling::{Rows, no_such_row, tell_rows};
pub use words::words_at;
