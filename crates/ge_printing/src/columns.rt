//! Columns of a line.

ghost use Rattle.std.specs.Prelude.{◌≡◌, ◌++◌, IfOk, OnOk, codes, flat_map, map};
ghost use Rattle.ge_model_rows.specs.Pieces.{joined_by};
ghost use Rattle.ge_printing.specs.Columns.{column_text};

use crate::joining::LINE_ROOM;
use crate::numbers::{append_decimal, append_fixed};
use ge_rows::Text;
use std::alloc::{AllocError, Global};

/// What a column of a line shows. Contracts see by `column_text` the words of it.
#[derive(Clone, Copy)]
pub enum Column<'a> {
    /// A word as it stands.
    Word(&'a [u8]),
    /// A number in decimal.
    Number(u128),
    /// Millionths with six decimals.
    Fixed(u128),
}

fn append_column(line: &mut Vec<u8>, column: &Column<'_>) -> Result<(), AllocError>
    ensures { OnOk result (line.new.items ≡ line.old.items ++ column_text column.now) }
{
    match column {
        Column::Word(word) => line.extend_from_slice(word),
        Column::Number(n) => append_decimal(line, *n),
        Column::Fixed(millionths) => append_fixed(line, *millionths),
    }
}

fn append_next(line: &mut Vec<u8>, column: &Column<'_>) -> Result<(), AllocError>
    ensures { OnOk result (line.new.items
        ≡ line.old.items ++ (codes " " ++ column_text column.now)) }
{
    line.push(b' ')?;
    append_column(line, column)
}

fn append_others(line: &mut Vec<u8>, columns: &[Column<'_>]) -> Result<(), AllocError>
    ensures { OnOk result (line.new.items
        ≡ line.old.items ++ flat_map (λ next. codes " " ++ next) (map column_text columns.now)) }
{
    for column in columns {
        append_next(line, column)?;
    }
    Ok(())
}

/// Columns with a blank between each two, each written into the line itself.
pub fn join_columns(alloc: Global, columns: &[Column<'_>]) -> Result<Text, AllocError>
    ensures { IfOk result (λ line. line ≡ joined_by (codes " ") (map column_text columns.now)) }
{
    let [first, others @ ..] = columns else {
        return Ok(Text::new(alloc));
    };
    let mut line = Vec::with_capacity(alloc, LINE_ROOM)?;
    append_column(&mut line, first)?;
    append_others(&mut line, others)?;
    Ok(Text::from_vec(line))
}
