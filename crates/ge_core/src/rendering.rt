// Replies as they are written.
ghost use Rattle.std.specs.Prelude.{◌≡◌, [], ◌∷◌, ◌++◌, IfOk, OnOk, length, flat_map, decimal};
ghost use Rattle.ge_model_core.specs.Render.{rendered_line, rendered};

use ge_printing::append_decimal;
use ge_rows::{Reply, Text};
use std::alloc::{AllocError, Global};

/// Room for a reply of one line, in bytes; a longer one grows.
const REPLY_ROOM: usize = 100;

fn append_line(text: &mut Vec<u8>, line: &Text) -> Result<(), AllocError>
    ensures { OnOk result (text.new.items ≡ text.old.items ++ rendered_line line.now) }
{
    text.extend_from_slice(line.bytes())?;
    text.push(b'\n')?;
    Ok(())
}

fn append_lines(text: &mut Vec<u8>, lines: &[Text]) -> Result<(), AllocError>
    ensures { OnOk result (text.new.items ≡ text.old.items ++ flat_map rendered_line lines.now) }
{
    for line in lines {
        append_line(text, line)?;
    }
    Ok(())
}

fn append_head(text: &mut Vec<u8>, code: u8, lines: usize) -> Result<(), AllocError>
    ensures { OnOk result (text.new.items
        ≡ text.old.items ++ decimal code ++ 32 ∷ [] ++ decimal lines ++ 10 ∷ []) }
{
    append_decimal(text, u128::from(code))?;
    text.push(b' ')?;
    append_decimal(text, lines as u128)?;
    text.push(b'\n')?;
    Ok(())
}

/// The reply as it is written: its code, a blank, the number of its lines and a line feed, and then each line with a line
/// feed.
#[tactic(auto, unfolding(ge_model_core::specs::Render::rendered))]
pub fn render(alloc: Global, reply: &Reply) -> Result<Text, AllocError>
    ensures { IfOk result (λ text. text ≡ rendered reply.now) }
{
    let mut text = Vec::with_capacity(alloc, REPLY_ROOM)?;
    append_head(&mut text, reply.code, reply.lines.len())?;
    append_lines(&mut text, reply.lines.items())?;
    Ok(Text::from_vec(text))
}
