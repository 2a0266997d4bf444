// The reply that a text is.
ghost use Rattle.std.specs.Prelude.{◌≡◌, ◌++◌, ◌∷◌, [], decimal, IfOk};
ghost use Rattle.ge_collections.specs.Keyed.{text_eq};
ghost use Rattle.ge_model_rows.specs.Pieces.{before_byte, number_of};
ghost use Rattle.ge_wire.specs.Replies.{ParsesReply, Reads, lines_from, reply_head, reply_in, reply_with};

use ge_pieces::{before, digits_worth};
use ge_rows::{List, Reply, Text};
use std::alloc::{AllocError, Global};
use thiserror::Error;

/// Why a text isn't read as a reply.
#[derive(Clone, Copy, Debug, PartialEq, Eq, Error)]
pub enum ReplyFault {
    /// No reply is written so.
    #[error("this is no reply")]
    Bad,
    /// Memory ran out.
    #[error("out of memory")]
    NoMemory,
}

impl From<AllocError> for ReplyFault {
    ghost use Rattle.std.specs.Prelude.{◌≡◌};
    ghost use Rattle.ge_wire.specs.declared.parsing.ReplyFault.TheVariants.{NoMemory};

    ghost from_gives = { λ _ fault. fault ≡ NoMemory };

    fn from(_: AllocError) -> Self {
        ReplyFault::NoMemory
    }
}

// The lines of a text, each with a line feed behind it; none where bytes stand behind the last one.
fn cut_lines(alloc: Global, text: &[u8]) -> Result<Option<List<Text>>, AllocError>
    ensures { IfOk result (λ lines. lines ≡ lines_from [] text.now) }
{
    let mut lines = List::new(alloc);
    let mut line = Text::new(alloc);
    for byte in text {
        if *byte == b'\n' {
            lines.push(line)?;
            line = Text::new(alloc);
        } else {
            line.push(*byte)?;
        }
    }
    if line.is_empty() {
        Ok(Some(lines))
    } else {
        Ok(None)
    }
}

// Whether a line is the first one of a reply of a code and so many lines.
fn is_head(alloc: Global, head: &[u8], code: u8, count: usize) -> Result<bool, AllocError>
    ensures { IfOk result (λ is. is ≡ text_eq head.now (reply_head code count)) }
{
    let text = format!(in alloc; "{} {}", code, count)?;
    Ok(head == text.as_bytes())
}

// The reply of a first line and the lines behind it.
fn reply_of_lines(alloc: Global, head: &[u8], lines: List<Text>) -> Result<Reply, ReplyFault>
    ensures { Reads result
        (reply_with (number_of (before_byte 32 head.now)) head.now lines) }
{
    let code = digits_worth(before(b' ', head));
    if code >= 256 {
        return Err(ReplyFault::Bad);
    }
    let code = code as u8;
    if is_head(alloc, head, code, lines.len())? {
        Ok(Reply { code, lines })
    } else {
        Err(ReplyFault::Bad)
    }
}

#[tactic(auto, unfolding(crate::specs::Replies::reply_in))]
fn read_text(alloc: Global, text: &[u8]) -> Result<Reply, ReplyFault>
    ensures { Reads result (reply_in text.now) }
{
    let Some(mut lines) = cut_lines(alloc, text)? else {
        return Err(ReplyFault::Bad);
    };
    if lines.is_empty() {
        return Err(ReplyFault::Bad);
    }
    let head = lines.remove(0);
    reply_of_lines(alloc, head.bytes(), lines)
}

/// The reply, without a line feed in any of its lines, that is written as a text. `Bad` comes exactly where there is none.
pub fn parse_reply(alloc: Global, text: &Text) -> Result<Reply, ReplyFault>
    ensures { ParsesReply result text.now }
{
    match read_text(alloc, text.bytes()) {
        Ok(reply) => Ok(reply),
        Err(fault) => Err(fault),
    }
}
