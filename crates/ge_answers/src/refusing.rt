// Refused events.
ghost use Rattle.std.specs.Prelude.{◌≡◌, ◌∷◌, [], IfOk};
ghost use Rattle.ge_model_core.specs.Refusals.{refusal_text, refused};

use ge_base::{Refusal, code};
use ge_rows::{List, Planned, Reply, Text};
use std::alloc::{AllocError, Global};

fn text_of(refusal: Refusal) -> &'static [u8]
    ensures { result.now ≡ refusal_text refusal }
{
    match refusal {
        Refusal::Syntax => b"syntax error",
        Refusal::TooLong => b"text too long",
        Refusal::TimeBack => b"moment before the last one",
        Refusal::NoSuchObject => b"no such object",
        Refusal::NotPermitted => b"not permitted",
        Refusal::Exists => b"exists already",
        Refusal::InUse => b"in use",
        Refusal::BadValue => b"bad value",
        Refusal::NotRequestable => b"not requestable",
        Refusal::Cycle => b"cycle",
        Refusal::Limit => b"limit reached",
        Refusal::StaleReport => b"stale report",
        Refusal::NoMemory => b"no memory",
    }
}

/// A list of one text.
pub fn one_line(alloc: Global, text: Text) -> Result<List<Text>, AllocError>
    ensures { IfOk result (λ lines. lines ≡ text ∷ []) }
{
    let mut lines = Vec::with_capacity(alloc, 1)?;
    lines.push(text)?;
    Ok(List::from_vec(lines))
}

/// The plan of an event that is refused: it changes nothing.
pub fn refuse(alloc: Global, refusal: Refusal) -> Result<Planned, AllocError>
    ensures { IfOk result (λ planned. planned ≡ refused refusal) }
{
    let text = Text::from_bytes(alloc, text_of(refusal))?;
    Ok(Planned {
        entry: None,
        reply: Reply {
            code: code(refusal),
            lines: one_line(alloc, text)?,
        },
        stop: false,
    })
}
