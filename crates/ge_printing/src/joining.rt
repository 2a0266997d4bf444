//! Words joined.

ghost use Rattle.std.specs.Prelude.{◌≡◌, ◌++◌, IfOk, OnOk, flat_map, map};
ghost use Rattle.ge_model_rows.specs.Pieces.{joined_by};

use ge_rows::Text;
use std::alloc::{AllocError, Global};

/// Room for a line, in bytes; a longer one grows.
pub(crate) const LINE_ROOM: usize = 64;

fn append_next(line: &mut Text, between: &[u8], word: &[u8]) -> Result<(), AllocError>
    ensures { OnOk result (line.new ≡ line.old ++ (between.now ++ word.now)) }
{
    line.append(between)?;
    line.append(word)
}

fn append_others(line: &mut Text, between: &[u8], words: &[&[u8]]) -> Result<(), AllocError>
    ensures { OnOk result (line.new
        ≡ line.old ++ flat_map (λ next. between.now ++ next) (map (λ word. word.now) words.now)) }
{
    for word in words {
        append_next(line, between, word)?;
    }
    Ok(())
}

/// Words with a text between each two, as the columns of a line.
pub fn join_words(alloc: Global, between: &[u8], words: &[&[u8]]) -> Result<Text, AllocError>
    ensures { IfOk result (λ text. text ≡ joined_by between.now (map
        (λ word. word.now) words.now)) }
{
    match words {
        [] => Ok(Text::new(alloc)),
        [first, others @ ..] => {
            let mut line = Text::from_vec(Vec::with_capacity(alloc, LINE_ROOM)?);
            line.append(first)?;
            append_others(&mut line, between, others)?;
            Ok(line)
        }
    }
}
