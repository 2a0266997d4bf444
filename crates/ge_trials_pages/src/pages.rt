//! The kinds of pages.

use crate::areas::Areas;
use crate::links::Links;
use crate::{
    command_lines, generating, keeping, large, masters, parsing, reopening, running, stepping,
    streaming,
};
use ge_pieces::{before, behind, behind_word, first_word, is_word};
use ge_trials_rows::tell_rows;
use std::alloc::{AllocError, Global};
use std::io;
use std::io::ErrorKind;

// What is told of a page behind its name; nothing where its kind is none.
fn told(
    alloc: Global,
    kind: &[u8],
    body: &[u8],
    areas: &mut Areas,
) -> Option<Result<Vec<u8>, AllocError>> {
    if is_word(kind, b"areas") {
        Some(keeping::areas_page(alloc, body, areas))
    } else if is_word(kind, b"kept") {
        Some(keeping::kept_page(alloc, body, areas))
    } else if let Some(text) = told_of_run(alloc, kind, body) {
        Some(text)
    } else if let Some(text) = ge_trials_calls::told(alloc, kind, body) {
        Some(text)
    } else if let Some(text) = ge_trials_accounts::told(alloc, kind, body) {
        Some(text)
    } else {
        ge_trials_devices::told(alloc, kind, body)
    }
}

// The same of the kinds that begin with areas of their own, or with none.
fn told_of_run(alloc: Global, kind: &[u8], body: &[u8]) -> Option<Result<Vec<u8>, AllocError>> {
    if is_word(kind, b"simulate") {
        Some(running::script_page(alloc, body))
    } else if is_word(kind, b"calls") {
        Some(stepping::calls_page(alloc, body))
    } else if is_word(kind, b"streams") {
        Some(streaming::streams_page(alloc, body))
    } else if is_word(kind, b"fronts") {
        Some(streaming::fronts_page(alloc, body))
    } else if is_word(kind, b"words") {
        Some(command_lines::words_page(alloc, body))
    } else if is_word(kind, b"generated") {
        Some(generating::generated_page(alloc, body))
    } else if is_word(kind, b"open") {
        Some(masters::open_page(alloc, body))
    } else if is_word(kind, b"event") {
        Some(masters::event_page(alloc, body))
    } else if is_word(kind, b"batch") {
        Some(masters::batch_page(alloc, body))
    } else if is_word(kind, b"reopening") {
        Some(reopening::reopening_page(alloc, body))
    } else if is_word(kind, b"links") {
        Some(tell_rows(alloc, &Links, body))
    } else {
        None
    }
}

/// What is told of a page.
pub(crate) fn report(alloc: Global, page: &[u8], areas: &mut Areas) -> io::Result<Vec<u8>> {
    let (head, body) = (before(b'\n', page), behind(b'\n', page));
    let (kind, name) = (first_word(head), behind_word(head));
    if is_word(kind, b"large") {
        let text = large::line(alloc, name, body)?;
        return Ok(text);
    }
    if is_word(kind, b"command") {
        let text = parsing::line(alloc, body)?;
        return Ok(text);
    }
    let Some(told) = told(alloc, kind, body, areas) else {
        return Err(io::Error::from(ErrorKind::InvalidInput));
    };
    let mut text = Vec::from_slice(alloc, b"== ")?;
    text.extend_from_slice(name)?;
    text.extend_from_slice(b"\n")?;
    text.extend_from_slice(told?.as_slice())?;
    Ok(text)
}
