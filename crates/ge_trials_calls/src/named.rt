//! Calls of the libraries that no program makes, each by its name: a body of the page's cluster is read, a job is placed.

use crate::answers::{is_named, no_call};
use crate::sites::Site;
use ge_base::code;
use ge_config::read_body;
use ge_listing::grants_text;
use ge_pieces::{before, behind, digits_worth, join};
use ge_place::place;
use ge_printing::print_item;
use ge_rows::{ObjectKind, TaskId, Text};
use ge_timeline::Timeline;
use ge_windows::base_bookings;
use std::alloc::{AllocError, Global};

// The sort of object that a word names: a host, a project, or else the complexes.
fn kind_of(word: &[u8]) -> ObjectKind {
    if is_named(word, b"host") {
        ObjectKind::Host
    } else if is_named(word, b"project") {
        ObjectKind::Project
    } else {
        ObjectKind::Complexes
    }
}

// What a body makes that is added, printed with `;` between its lines, or the code of its refusal.
fn read(alloc: Global, site: &Site, word: &[u8], body: &[u8]) -> Result<Text, AllocError> {
    let body = Text::from_bytes(alloc, body)?;
    match read_body(alloc, &site.cluster, kind_of(word), true, &body) {
        Ok(item) => join(
            alloc,
            b";",
            print_item(alloc, &site.cluster, &item)?.items(),
        ),
        Err(refusal) => Text::from_bytes(alloc, code(refusal).to_string(alloc)?.as_bytes()),
    }
}

// The grants of a job's first task over what is booked at a moment, or `none`.
fn placed(alloc: Global, site: &Site, job: u64, moment: u64) -> Result<Text, AllocError> {
    let bookings = base_bookings(alloc, &site.cluster, &site.groups, moment)?;
    let booked = Timeline::from_bookings(alloc, bookings)?;
    let task = TaskId {
        job: job.min(1_000_000) as u32,
        task: 1,
    };
    match place(alloc, &site.cluster, &site.groups, &booked, task, moment)? {
        Some(grants) => grants_text(alloc, grants.items()),
        None => Text::from_bytes(alloc, b"none"),
    }
}

/// What a call answers: `body KIND|TEXT` the object that a body makes, or the code of its refusal; `place JOB|MOMENT` the grants
/// of a job's first task at a moment.
pub(crate) fn answer(
    alloc: Global,
    site: &Site,
    name: &[u8],
    given: &[u8],
) -> Result<Text, AllocError> {
    let (first, second) = (before(b'|', given), behind(b'|', given));
    if is_named(name, b"body") {
        read(alloc, site, first, second)
    } else if is_named(name, b"place") {
        placed(alloc, site, digits_worth(first), digits_worth(second))
    } else {
        no_call(alloc)
    }
}
