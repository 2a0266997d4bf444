// The line of a text, with its line feed.
ghost use Rattle.std.specs.Prelude.{◌≡◌, IfOk};
ghost use Rattle.ge_model_core.specs.Render.{rendered_line};
ghost use Rattle.ge_model_report.specs.Accounting.{line_text};

use ge_listing::line_text;
use ge_rows::{Line, Text};
use std::alloc::{AllocError, Global};

/// A text with a line feed behind it.
pub(crate) fn fed(mut text: Text) -> Result<Text, AllocError>
    ensures { IfOk result (λ line. line ≡ rendered_line text) }
{
    text.push(b'\n')?;
    Ok(text)
}

/// An accounting line with a line feed behind it.
pub(crate) fn shown_line(alloc: Global, line: &Line) -> Result<Text, AllocError>
    ensures { IfOk result (λ text. text ≡ rendered_line (line_text line.now)) }
{
    fed(line_text(alloc, line)?)
}
