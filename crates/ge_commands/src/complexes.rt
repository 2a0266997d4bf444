//! The body of the table of complexes: eight words a line (complex(5)).

ghost use Rattle.std.specs.Prelude.{◌≡◌, [], option_map};
ghost use Rattle.ge_model_grammar.specs.Lines.{read_each};
ghost use Rattle.ge_model_grammar.specs.Bodies.{complex_with, complex_line, complex_body};
ghost use Rattle.ge_pieces.specs.Gives.{Gives};

use ge_model_grammar::{Body, ComplexLine};
use ge_pieces::{ReadFault, words_between};
use ge_rows::{List, Text, twins4};
use std::alloc::Global;

// The complex of its eight words.
fn read_words(alloc: Global, words: &[Text]) -> Result<ComplexLine, ReadFault>
    ensures { Gives result (complex_with words.now) }
{
    if words.len() != 8 {
        return Err(ReadFault::Syntax);
    }
    let (name, shortcut, kind, relop) = twins4(alloc, &words[0], &words[1], &words[2], &words[3])?;
    let (requestable, consumable, fallback, urgency) = twins4(
        alloc, &words[4], &words[5], &words[6], &words[7],
    )?;
    Ok(ComplexLine {
        name,
        shortcut,
        kind,
        relop,
        requestable,
        consumable,
        fallback,
        urgency,
    })
}

fn read_line(alloc: Global, line: &[u8]) -> Result<ComplexLine, ReadFault>
    ensures { Gives result (complex_line line.now) }
{
    let words = words_between(alloc, line)?;
    read_words(alloc, words.items())
}

fn read_rows(alloc: Global, lines: &[Text]) -> Result<List<ComplexLine>, ReadFault>
    ensures { Gives result (read_each complex_line lines.now) }
{
    let mut rows = List::new(alloc);
    for line in lines {
        match read_line(alloc, line.bytes()) {
            Ok(row) => rows.push(row)?,
            Err(fault) => return Err(fault),
        }
    }
    Ok(rows)
}

/// The body of the table of complexes.
#[tactic(auto, unfolding(ge_model_grammar::specs::Bodies::complex_body))]
pub(crate) fn read_complex_body(alloc: Global, lines: &[Text]) -> Result<Body, ReadFault>
    ensures { Gives result (complex_body lines.now) }
{
    let rows = read_rows(alloc, lines)?;
    Ok(Body::ComplexRows(rows))
}
