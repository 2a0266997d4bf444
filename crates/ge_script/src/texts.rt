// The text of a request.
ghost use Rattle.std.specs.Prelude.{◌≡◌, ◌<◌, ◌≤◌, ◌∷◌, ◌++◌, IfOk, OnOk, nat_eq};
ghost use Rattle.std.specs.List.{starts_with};
ghost use Rattle.ge_model_grammar.specs.ScriptLines.{lines_of, unescaped, text_of};

use ge_pieces::{bytes_from, first_bare_line};
use ge_rows::Text;
use std::alloc::{AllocError, Global};

// A text line that begins with two at signs stands for itself without the first of them.
fn unescape(line: &[u8]) -> &[u8]
    ensures { result.now ≡ unescaped line.now }
{
    match line {
        [b'@', b'@', ..] => bytes_from(line, 1),
        _ => line,
    }
}

fn append_line(text: &mut Text, line: &[u8]) -> Result<(), AllocError>
    ensures { OnOk result (text.new ≡ text.old ++ 10 ∷ unescaped line.now) }
{
    text.push(b'\n')?;
    text.append(unescape(line))
}

/// The text that the lines after a header stand for.
pub(crate) fn text_of_lines(alloc: Global, lines: &[u8]) -> Result<Text, AllocError>
    ensures { IfOk result (λ text. text ≡ text_of (lines_of lines.now)) }
{
    if lines.is_empty() {
        return Ok(Text::new(alloc));
    }
    let (line, taken) = first_bare_line(lines);
    let mut at = taken;
    let mut text = Text::from_bytes(alloc, unescape(line))?;
    while at < lines.len() {
        let (line, taken) = first_bare_line(bytes_from(lines, at));
        append_line(&mut text, line)?;
        at += taken;
    }
    Ok(text)
}
