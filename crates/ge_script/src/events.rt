// The events of a script.
ghost use Rattle.std.specs.Prelude.{◌≡◌, ◌∷◌, ◌<◌, [], length, IfOk, IfSome, MatchOption};
ghost use Rattle.ge_model_grammar.specs.ScriptLines.{text_of, lines_of, requests_of};
ghost use Rattle.ge_model_grammar.specs.Header.{header_parts};
ghost use Rattle.ge_model_grammar.specs.Events.{unread, with_header, event_of, events_of};
ghost use Rattle.ge_script.specs.Shows.{says_header};

use crate::header::{Header, read_header};
use crate::requests::request_len;
use crate::texts::text_of_lines;
use ge_pieces::{bytes_from, first_bare_line, is_too_long_text};
use ge_rows::{Event, Form, Text};
use std::alloc::{AllocError, Global};

// The event of a request that can't be read.
fn unread_event(alloc: Global, form: Form) -> Event
    ensures { result ≡ unread form }
{
    Event {
        moment: 0,
        user: Text::new(alloc),
        group: Text::new(alloc),
        text: Text::new(alloc),
        form,
    }
}

fn event_with_header(
    alloc: Global,
    header: Option<Header<'_>>,
    texts: &[u8],
) -> Result<Event, AllocError>
    ensures { IfOk result (λ event. event ≡ with_header (says_header header.entry)
        (lines_of texts.now)) }
{
    match header {
        None => Ok(unread_event(alloc, Form::BadHeader)),
        Some(header) => Ok(Event {
            moment: header.moment,
            user: Text::from_bytes(alloc, header.user)?,
            group: Text::from_bytes(alloc, header.group)?,
            text: text_of_lines(alloc, texts)?,
            form: Form::Good,
        }),
    }
}

/// The event of a request, which is given with all its bytes.
pub fn read_event(alloc: Global, request: &[u8]) -> Result<Event, AllocError>
    ensures { IfOk result (λ event. event ≡ event_of request.now) }
{
    if is_too_long_text(request) {
        return Ok(unread_event(alloc, Form::TooLong));
    }
    if request.is_empty() {
        return Ok(unread_event(alloc, Form::BadHeader));
    }
    let (header, taken) = first_bare_line(request);
    let texts = bytes_from(request, taken);
    event_with_header(alloc, read_header(header), texts)
}

/// The bytes of the first request of a script and those of the script after it, or nothing where the script is empty.
#[tactic(auto, unfolding(ge_model_grammar::specs::Events::events_of))]
pub fn next_request(script: &[u8]) -> Option<(&[u8], &[u8])>
    ensures events { MatchOption result (events_of script.now ≡ []) (λ parts. events_of script.now
        ≡ event_of parts.0.now ∷ events_of parts.1.now) }
    ensures shorter { IfSome result (λ parts. length parts.1.now < length script.now) }
{
    if script.is_empty() {
        return None;
    }
    Some(script.split_at(request_len(script)))
}
