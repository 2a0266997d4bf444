// Lines as bytes.
ghost use Rattle.std.specs.Prelude.{◌≡◌, ◌++◌, ◌≤◌, length, IfOk, OnOk, IsTrue};
ghost use Rattle.ge_model_codec.specs.Reading.{ReadsAs};
ghost use Rattle.ge_model_log.specs.Lines.{line_bytes, line_fits, line_reading};
ghost use Rattle.ge_acctlog.specs.Bodies.{TakesLine, EndsWithin};

use ge_codec::{Canon, TakeFault};
use ge_rows::{Line, Text};
use std::alloc::{AllocError, Global};

/// Puts the bytes of a line behind others.
#[tactic(auto, unfolding(ge_model_log::specs::Lines::line_bytes, ge_model_log::specs::Lines::line_fits))]
pub(crate) fn put_line(line: &Line, out: &mut Text) -> Result<(), AllocError>
    ensures bytes { OnOk result (out.new ≡ out.old ++ line_bytes line.now) }
    ensures fits { OnOk result (IsTrue (line_fits line.now)) }
{
    line.put(out)
}

// The line at a place of bytes, and where it ends.
#[tactic(auto, unfolding(ge_model_log::specs::Lines::line_reading))]
fn read_line(alloc: Global, bytes: &[u8], at: usize) -> Result<(Line, usize), TakeFault>
    requires { at ≤ length bytes.now }
    ensures read { ReadsAs result (line_reading bytes.now at) }
    ensures within { IfOk result (λ p. p.1 ≤ length bytes.now) }
{
    Line::take(alloc, bytes, at)
}

/// The line at a place of bytes, and where it ends; nothing where none can be read.
pub(crate) fn take_line(
    alloc: Global,
    bytes: &[u8],
    at: usize,
) -> Result<Option<(Line, usize)>, AllocError>
    requires { at ≤ length bytes.now }
    ensures read { IfOk result (λ found. TakesLine found (line_reading bytes.now at)) }
    ensures within { IfOk result (λ found. EndsWithin found (length bytes.now)) }
{
    match read_line(alloc, bytes, at) {
        Ok((line, end)) => Ok(Some((line, end))),
        Err(TakeFault::Memory) => Err(AllocError),
        Err(TakeFault::Short) => Ok(None),
        Err(TakeFault::Tag(_)) => Ok(None),
        Err(TakeFault::Range(_)) => Ok(None),
    }
}
