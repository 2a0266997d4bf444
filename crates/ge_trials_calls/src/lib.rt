//! Pages of calls alone: events, figures of a run, bookings, the table of jobs, texts, canonical bytes, a page each; and rows of single
//! calls: what texts are worth, texts cut and joined, values, who may, requests, groups of hosts, instances.
//!
//! [`told`] tells a page of one of these kinds, and [`render`] is lent; what a page's body is stands at the kind's function. The pages stand in the stored run of
//! ge_trials_pages, whose lines were worked out by hand, or are those of an independent reading of the rules.
#![tactic(auto)]

mod access;
mod amounts;
mod answers;
mod bookings;
mod canonical;
mod clusters;
mod cutting;
mod events;
mod figures;
mod groups;
mod named;
mod naming;
mod planning;
mod queues;
mod quotas;
mod refusals;
mod requests;
mod sites;
mod tables;
mod texts;
mod values;
mod windows;
mod worlds;
mod writing;

pub use ge_core::render;
use ge_pieces::{is_in, is_word};
use std::alloc::{AllocError, Global};

// Whether the pages of a kind are rows of single calls.
fn has_rows(kind: &[u8]) -> bool {
    is_in(
        kind,
        &[
            b"amounts",
            b"cuts",
            b"names",
            b"numbers",
            b"refusals",
            b"values",
            b"groups",
            b"access",
            b"requests",
            b"instances",
            b"named",
        ],
    )
}

/// What is told of a page behind its name; nothing where its kind is none of these.
pub fn told(alloc: Global, kind: &[u8], body: &[u8]) -> Option<Result<Vec<u8>, AllocError>> {
    if is_word(kind, b"script") {
        Some(events::requests_page(alloc, body))
    } else if is_word(kind, b"plan") {
        Some(events::plan_page(alloc, body))
    } else if is_word(kind, b"reply") {
        Some(events::reply_page(alloc, body))
    } else if is_word(kind, b"figures") {
        Some(figures::figures_page(alloc, body))
    } else if is_word(kind, b"bookings") {
        Some(bookings::bookings_page(alloc, body))
    } else if is_word(kind, b"windows") {
        Some(windows::windows_page(alloc, body))
    } else if is_word(kind, b"texts") {
        Some(texts::texts_page(alloc, body))
    } else if is_word(kind, b"table") {
        Some(tables::table_page(alloc, body))
    } else if is_word(kind, b"holds") {
        Some(tables::holds_page(alloc, body))
    } else if is_word(kind, b"bytes") {
        Some(canonical::bytes_page(alloc, body))
    } else if is_word(kind, b"cluster") {
        Some(clusters::cluster_page(alloc, body))
    } else if is_word(kind, b"world") {
        Some(worlds::world_page(alloc, body))
    } else if has_rows(kind) {
        Some(answers::rows_page(alloc, kind, body))
    } else {
        None
    }
}
