// The event of a request's payload.
ghost use Rattle.std.specs.Prelude.{◌≡◌, IfOk};
ghost use Rattle.std.specs.List.{before_first, after_first};
ghost use Rattle.ge_model_grammar.specs.Events.{unread};
ghost use Rattle.ge_model_grammar.specs.Header.{header_field, after_field};
ghost use Rattle.ge_model_wire.specs.Payloads.{event_in_payload, event_within, with_first_line, with_names};

use ge_pieces::{before, behind, behind_word, first_word, has, is_a_name, is_too_long_text};
use ge_rows::{Event, Form, Text};
use std::alloc::{AllocError, Global};

// The event of a payload that can't be read.
fn unread_event(alloc: Global, form: Form) -> Event
    ensures { result ≡ unread form }
{
    Event {
        moment: 0,
        user: Text::new(alloc),
        group: Text::new(alloc),
        text: Text::new(alloc),
        form,
    }
}

// The event of a user, a group and a text.
fn event_with_names(
    alloc: Global,
    moment: u64,
    user: &[u8],
    group: &[u8],
    text: &[u8],
) -> Result<Event, AllocError>
    ensures { IfOk result (λ event. event ≡ with_names moment user.now group.now text.now) }
{
    if is_a_name(user) && is_a_name(group) {
        Ok(Event {
            moment,
            user: Text::from_bytes(alloc, user)?,
            group: Text::from_bytes(alloc, group)?,
            text: Text::from_bytes(alloc, text)?,
            form: Form::Good,
        })
    } else {
        Ok(unread_event(alloc, Form::BadHeader))
    }
}

// The event of a payload with a first line.
fn event_with_line(alloc: Global, moment: u64, payload: &[u8]) -> Result<Event, AllocError>
    ensures { IfOk result (λ event. event ≡ with_first_line moment payload.now) }
{
    let line = before(b'\n', payload);
    let text = behind(b'\n', payload);
    event_with_names(alloc, moment, first_word(line), behind_word(line), text)
}

// The event of a payload that isn't too long.
fn event_in(alloc: Global, moment: u64, payload: &[u8]) -> Result<Event, AllocError>
    ensures { IfOk result (λ event. event ≡ event_within moment payload.now) }
{
    if has(b'\n', payload) {
        event_with_line(alloc, moment, payload)
    } else {
        Ok(unread_event(alloc, Form::BadHeader))
    }
}

/// The event of a payload, at a moment. A payload that is too long, or whose first line has no user and group, gives an
/// event whose form says so, at moment 0.
pub fn frame_event(alloc: Global, payload: &Text, moment: u64) -> Result<Event, AllocError>
    ensures { IfOk result (λ event. event ≡ event_in_payload moment payload.now) }
{
    if is_too_long_text(payload.bytes()) {
        Ok(unread_event(alloc, Form::TooLong))
    } else {
        event_in(alloc, moment, payload.bytes())
    }
}
