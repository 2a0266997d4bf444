//! The lines of a body that count, each joined with those that it goes on with.

ghost use Rattle.std.specs.Prelude.{◌≡◌, ◌++◌, ◌∷◌, [], IfOk, OnOk, filter};
ghost use Rattle.std.specs.List.{list_all};
ghost use Rattle.std.specs.Int.{is_in_range};
ghost use Rattle.ge_model_rows.specs.Pieces.{is_empty, trimmed};
ghost use Rattle.ge_model_grammar.specs.Lines.{is_plain_byte, is_plain_line, text_lines};
ghost use Rattle.ge_model_grammar.specs.Bodies.{counts, body_lines};
ghost use Rattle.ge_pieces.specs.BodyLines.{plain_or_feed, TakesUp};

use crate::comparing::{begins, ends};
use crate::cutting::{slices_at, trimmed_text};
use ge_rows::{List, Text};
use std::alloc::{AllocError, Global};

fn prints(b: u8) -> bool
    ensures { result ≡ is_in_range 32 126 b }
{
    b >= 32 && b <= 126
}

fn is_a_plain_byte(b: u8) -> bool
    ensures { result ≡ is_plain_byte b }
{
    b == b'\t' || prints(b)
}

/// Whether a line has bytes alone that print, blanks and tabs.
pub fn is_a_plain_line(line: &[u8]) -> bool
    ensures { result ≡ is_plain_line line.now }
{
    line.iter().all(|b| is_a_plain_byte(*b))
}

fn is_plain_or_feed(b: u8) -> bool
    ensures { result ≡ plain_or_feed b }
{
    b == b'\n' || is_a_plain_byte(b)
}

fn has_plain_bytes_and_feeds(text: &[u8]) -> bool
    ensures { result ≡ list_all plain_or_feed text.now }
{
    text.iter().all(|b| is_plain_or_feed(*b))
}

/// Whether each line of a text has such bytes alone.
#[tactic(auto, using(crate::proofs::PlainLines::plain_lines))]
pub fn has_plain_lines(text: &[u8]) -> bool
    ensures { result ≡ list_all is_plain_line (text_lines text.now) }
{
    has_plain_bytes_and_feeds(text)
}

fn is_blank_line(line: &[u8]) -> bool
    ensures { result ≡ is_empty (trimmed line.now) }
{
    trimmed_text(line).is_empty()
}

fn is_counted(line: &[u8]) -> bool
    ensures { result ≡ counts line.now }
{
    !is_blank_line(line) && !begins(b"#", line)
}

fn keep(lines: &mut List<Text>, line: Text) -> Result<(), AllocError>
    ensures { OnOk result (lines.new ≡ lines.old ++ filter counts (line ∷ [])) }
{
    if is_counted(line.bytes()) {
        lines.push(line)
    } else {
        Ok(())
    }
}

// One more line of the text: it goes on with the line before, or begins a new one.
fn go_on(alloc: Global, lines: &mut List<Text>, line: Text, next: &[u8]) -> Result<Text, AllocError>
    ensures { IfOk result (λ after. TakesUp next.now lines.old line lines.new after) }
{
    if ends(b"\\", line.bytes()) {
        let mut joined = line;
        joined.truncate(joined.len() - 1);
        joined.append(next)?;
        Ok(joined)
    } else {
        keep(lines, line)?;
        Text::from_bytes(alloc, next)
    }
}

/// The lines of a body that count: blank ones and those that begin with `#` don't. A line that ends with `\` is one
/// with the line behind it, and nothing stands in place of the `\`.
pub fn lines_of_body(alloc: Global, body: &[u8]) -> Result<List<Text>, AllocError>
    ensures { IfOk result (λ lines. lines ≡ body_lines body.now) }
{
    let mut lines = List::new(alloc);
    let mut line = Text::new(alloc);
    for next in slices_at(alloc, b'\n', body)?.as_slice() {
        line = go_on(alloc, &mut lines, line, next)?;
    }
    keep(&mut lines, line)?;
    Ok(lines)
}
