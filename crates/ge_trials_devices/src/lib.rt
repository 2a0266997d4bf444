//! Pages of the journal, the forms of devices in memory, entries applied, and frames.
//!
//! [`told`] tells a page of one of these kinds; what its body is stands at the kind's function. The pages stand in the stored run of
//! ge_trials_pages, whose lines were worked out by hand, or are those of an independent reading of the rules.
#![tactic(auto)]

mod changes;
mod changes_told;
mod device_disks;
mod device_links;
mod devices;
mod frames;
mod journal_areas;
mod journal_calls;
mod journal_steps;
mod journals;
mod made_up_areas;

use ge_pieces::is_word;
use ge_trials_rows::tell_rows;
use std::alloc::{AllocError, Global};

/// What is told of a page behind its name; nothing where its kind is none of these.
pub fn told(alloc: Global, kind: &[u8], body: &[u8]) -> Option<Result<Vec<u8>, AllocError>> {
    if is_word(kind, b"journals") {
        Some(tell_rows(alloc, &journals::Journals, body))
    } else if is_word(kind, b"devices") {
        Some(tell_rows(alloc, &devices::Devices, body))
    } else if is_word(kind, b"frames") {
        Some(tell_rows(alloc, &frames::Frames, body))
    } else if is_word(kind, b"changes") {
        Some(changes::changes_page(alloc, body))
    } else {
        None
    }
}
