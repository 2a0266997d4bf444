//! Journals in memory: areas that are opened, records and snapshots that are written, and calls
//! that fail.

use crate::{journal_areas, journal_calls, journal_steps, made_up_areas};
use ge_outside::MemDisk;
use ge_pieces::is_word;
use ge_rows::Text;
use ge_trials_rows::{Rows, append_hex, no_such_row};
use std::alloc::{AllocError, Global};

/// Both areas in hex, a blank before each.
pub(crate) fn append_areas(
    alloc: Global,
    line: &mut Text,
    a: &MemDisk,
    b: &MemDisk,
) -> Result<(), AllocError> {
    line.append(b" ")?;
    append_hex(alloc, line, a.bytes())?;
    line.append(b" ")?;
    append_hex(alloc, line, b.bytes())
}

/// The rows of a page `journals`: what is tried, a blank, and what it is given, with bars
/// between.
pub(crate) struct Journals;

impl Rows for Journals {
    fn answer(&self, alloc: Global, name: &[u8], given: &[u8]) -> Result<Text, AllocError> {
        if is_word(name, b"opens") {
            journal_areas::opened_twice(alloc, given)
        } else if is_word(name, b"blames") {
            journal_areas::blamed(alloc, given)
        } else if is_word(name, b"counts") {
            journal_areas::counted(alloc, given)
        } else if is_word(name, b"journal") {
            journal_steps::stepped(alloc, given)
        } else if is_word(name, b"fails") {
            journal_calls::failed(alloc, given)
        } else if is_word(name, b"made_up") {
            made_up_areas::answered(alloc, given)
        } else {
            no_such_row(alloc)
        }
    }
}
