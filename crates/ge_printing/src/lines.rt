//! An attribute with its value.

ghost use Rattle.std.specs.Prelude.{◌≡◌, ◌++◌, ◌∷◌, [], IfOk, OnOk, codes, decimal};
ghost use Rattle.ge_model_rows.specs.Pieces.{list_text};
ghost use Rattle.ge_model_rows.specs.Values.{fixed_text};
ghost use Rattle.ge_model_config.specs.Cited.{printed_attribute, number_text};

use crate::numbers::decimal_text;
use ge_complex::{amount_text, fixed_text};
use ge_pieces::join_list;
use ge_rows::{Kind, List, Text};
use std::alloc::{AllocError, Global};

fn attribute_line(alloc: Global, attribute: &[u8], value: &[u8]) -> Result<Text, AllocError>
    ensures { IfOk result (λ line. line ≡ printed_attribute attribute.now value.now) }
{
    let mut line = Text::from_bytes(alloc, attribute)?;
    line.push(b' ')?;
    line.append(value)?;
    Ok(line)
}

/// The line of an attribute whose value is a text.
pub(crate) fn put(
    alloc: Global,
    lines: &mut List<Text>,
    attribute: &[u8],
    value: &[u8],
) -> Result<(), AllocError>
    ensures { OnOk result (lines.new ≡ lines.old ++ printed_attribute attribute.now value.now
        ∷ []) }
{
    lines.push(attribute_line(alloc, attribute, value)?)
}

/// The line of an attribute whose value is a number.
pub(crate) fn put_number(
    alloc: Global,
    lines: &mut List<Text>,
    attribute: &[u8],
    n: u64,
) -> Result<(), AllocError>
    ensures { OnOk result (lines.new ≡ lines.old ++ printed_attribute attribute.now (decimal n)
        ∷ []) }
{
    let value = decimal_text(alloc, u128::from(n))?;
    put(alloc, lines, attribute, value.bytes())
}

/// The line of an attribute whose value is a DOUBLE, in millionths.
pub(crate) fn put_fixed(
    alloc: Global,
    lines: &mut List<Text>,
    attribute: &[u8],
    millionths: u64,
) -> Result<(), AllocError>
    ensures { OnOk result (lines.new ≡ lines.old ++ printed_attribute attribute.now
        (fixed_text millionths) ∷ []) }
{
    let value = fixed_text(alloc, millionths)?;
    put(alloc, lines, attribute, value.bytes())
}

/// The line of an attribute whose value is a TIME, in seconds.
pub(crate) fn put_time(
    alloc: Global,
    lines: &mut List<Text>,
    attribute: &[u8],
    seconds: u64,
) -> Result<(), AllocError>
    ensures { OnOk result (lines.new
        ≡ lines.old ++ printed_attribute attribute.now (number_text Kind.Time seconds) ∷ []) }
{
    let value = amount_text(alloc, Kind::Time, seconds)?;
    put(alloc, lines, attribute, value.bytes())
}

/// The line of an attribute whose value is a list of names.
pub(crate) fn put_names(
    alloc: Global,
    lines: &mut List<Text>,
    attribute: &[u8],
    names: &List<Text>,
) -> Result<(), AllocError>
    ensures { OnOk result (lines.new ≡ lines.old ++ printed_attribute attribute.now
        (list_text names.now) ∷ []) }
{
    let value = join_list(alloc, names.items())?;
    put(alloc, lines, attribute, value.bytes())
}
