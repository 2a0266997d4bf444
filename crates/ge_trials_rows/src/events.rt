//! Events of a script.

use ge_rows::{Event, List};
use ge_script::{next_request, read_event};
use std::alloc::{AllocError, Global};

/// The first event of a script.
pub fn first_event(alloc: Global, script: &[u8]) -> Result<Event, AllocError> {
    match next_request(script) {
        Some((request, _)) => read_event(alloc, request),
        None => read_event(alloc, script),
    }
}

/// The events of a script.
pub fn read_events(alloc: Global, script: &[u8]) -> Result<List<Event>, AllocError> {
    let mut events = List::new(alloc);
    let mut rest = script;
    for _ in 0..script.len() {
        match next_request(rest) {
            Some((request, after)) => {
                events.push(read_event(alloc, request)?)?;
                rest = after;
            }
            None => return Ok(events),
        }
    }
    Ok(events)
}
