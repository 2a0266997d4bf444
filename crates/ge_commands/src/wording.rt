//! The words of a line, each lent from it.

ghost use Rattle.std.specs.Prelude.{◌≡◌, ◌<◌, ◌^◌, take, length, IfOk};
ghost use Rattle.ge_model_text.specs.Words.{texts_of};
ghost use Rattle.ge_model_grammar.specs.Commands.{line_words};
ghost use Rattle.ge_commands.specs.Lent.{texts, GivesAs};

use ge_pieces::{ReadFault, is_a_plain_line};
use ge_rows::{List, Text};
use ge_text::{TextFault, words};
use std::alloc::{AllocError, Global};

/// Lines of this length and more aren't read. No line of a request is as long as this.
const LINE_END: usize = 4_294_967_296;

/// The first bytes, at most all of them.
pub(crate) fn first_bytes(count: usize, text: &[u8]) -> &[u8]
    ensures { result.now ≡ take count text.now }
{
    text.split_at(count.min(text.len())).0
}

fn split_line(alloc: Global, line: &[u8]) -> Result<Vec<&[u8]>, ReadFault>
    requires { length line.now < 2 ^ 32 }
    ensures { GivesAs (λ found. texts found.items) result (texts_of line.now) }
{
    match words(alloc, line) {
        Ok(found) => Ok(found),
        Err(TextFault::Quote(_)) => Err(ReadFault::Syntax),
        Err(TextFault::NoMemory) => Err(ReadFault::Memory),
    }
}

/// The words of a line, each lent from it: a syntax error where it has a byte that neither prints nor is a blank
/// or a tab, and where a quote isn't closed.
pub fn words_of_line(alloc: Global, line: &[u8]) -> Result<Vec<&[u8]>, ReadFault>
    ensures { GivesAs (λ found. texts found.items) result (line_words line.now) }
{
    if !is_a_plain_line(line) {
        return Err(ReadFault::Syntax);
    }
    if line.len() >= LINE_END {
        return Err(ReadFault::Memory);
    }
    split_line(alloc, line)
}

/// Lent words, copied.
pub fn owned(alloc: Global, lent: &[&[u8]]) -> Result<List<Text>, AllocError>
    ensures { IfOk result (λ copy. copy ≡ texts lent.now) }
{
    let mut copy = Vec::with_capacity(alloc, lent.len())?;
    for word in lent {
        copy.push(Text::from_bytes(alloc, word)?)?;
    }
    Ok(List::from_vec(copy))
}
