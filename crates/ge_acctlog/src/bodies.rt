// The bodies of records: lines one behind the other.
ghost use Rattle.std.specs.Prelude.{◌≡◌, ◌≤◌, length, IfOk, OnOk};
ghost use Rattle.ge_model_log.specs.Lines.{lines_in, bytes_of_lines, AreFit};
ghost use Rattle.ge_acctlog.specs.Bodies.{HasLines, HasCount};

use crate::codes::{put_line, take_line};
use ge_rows::{Line, List, Text};
use std::alloc::{AllocError, Global};

/// The lines that a body is; nothing where it isn't whole lines.
pub(crate) fn lines_of(alloc: Global, bytes: &[u8]) -> Result<Option<List<Line>>, AllocError>
    ensures { IfOk result (λ lines. HasLines lines (lines_in bytes.now) (length bytes.now)) }
{
    let mut lines = List::new(alloc);
    let mut at = 0;
    'walk: loop {
        match take_line(alloc, bytes, at) {
            Ok(Some(found)) => {
                let (line, end) = found;
                lines.push(line)?;
                if end == bytes.len() {
                    return Ok(Some(lines));
                }
                at = end;
            }
            Ok(None) => return Ok(None),
            Err(want) => return Err(want),
        }
    }
}

/// How many lines a body is.
pub(crate) fn count_in(alloc: Global, bytes: &[u8]) -> Result<Option<usize>, AllocError>
    ensures { IfOk result (λ count. HasCount count (lines_in bytes.now) (length bytes.now)) }
{
    match lines_of(alloc, bytes) {
        Ok(Some(lines)) => Ok(Some(lines.len())),
        Ok(None) => Ok(None),
        Err(want) => Err(want),
    }
}

/// The body that lines are.
pub(crate) fn bytes_of(alloc: Global, lines: &[Line]) -> Result<Text, AllocError>
    ensures body { IfOk result (λ body. body ≡ bytes_of_lines lines.now) }
    ensures fits { OnOk result (AreFit lines.now) }
    ensures long { IfOk result (λ body. length lines.now ≤ length body) }
{
    let mut body = Text::new(alloc);
    for line in lines {
        put_line(line, &mut body)?;
    }
    Ok(body)
}
