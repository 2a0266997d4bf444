// Accepted events.
ghost use Rattle.std.specs.Prelude.{◌≡◌, ◌∷◌, [], IfOk};
ghost use Rattle.ge_model_core.specs.Answers.{changed, shown, done_lines};

use crate::refusing::one_line;
use ge_rows::{Change, Entry, Event, List, Planned, Reply, Text};
use std::alloc::{AllocError, Global};

/// The plan of an accepted event: what it changes, at its moment, and the one line of its reply.
pub fn accept(alloc: Global, e: &Event, change: Change, line: Text) -> Result<Planned, AllocError>
    ensures { IfOk result (λ planned. planned ≡ changed e.now change (line ∷ [])) }
{
    let lines = one_line(alloc, line)?;
    Ok(Planned {
        entry: Some(Entry {
            moment: e.moment,
            change,
        }),
        reply: Reply { code: 0, lines },
        stop: false,
    })
}

/// The plan of an accepted event that says nothing more than `done`.
pub fn done(alloc: Global, e: &Event, change: Change) -> Result<Planned, AllocError>
    ensures { IfOk result (λ planned. planned ≡ changed e.now change done_lines) }
{
    let line = Text::from_bytes(alloc, b"done")?;
    accept(alloc, e, change, line)
}

/// The plan of an accepted query: it shows lines and changes nothing.
pub fn show(lines: List<Text>) -> Planned
    ensures { result ≡ shown lines }
{
    Planned {
        entry: None,
        reply: Reply { code: 0, lines },
        stop: false,
    }
}
