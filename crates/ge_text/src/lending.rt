//! The words of a line, each lent from it.

ghost use Rattle.std.specs.Prelude.{◌≡◌, ℕ, List, ◌<◌, ◌^◌, ◌++◌, length, map, take, drop, Ok, Err, IfOk, IfErr, OnOk};
ghost use Rattle.std.specs.Option.{option_to_list};
ghost use Rattle.ge_model_text.specs.declared.Span.{Span};
ghost use Rattle.ge_model_text.specs.Words.{text_at, texts_of, words_of};
ghost use Rattle.ge_model_text.specs.Line.{HasWords, HasOpenQuote};
ghost use Rattle.ge_text.specs.Lending.{lent_texts, texts_at, SplitsInto, Lends, AreItsWords};

use crate::splitting::{TextFault, word_at};
use ge_model_text::Span;
use std::alloc::Global;

/// Room for the words that most lines have, so that their list is asked for once.
const USUAL_WORDS: usize = 8;

fn first_bytes(count: usize, text: &[u8]) -> &[u8]
    ensures { result.now ≡ take count text.now }
{
    text.split_at(count.min(text.len())).0
}

fn bytes_behind(count: usize, text: &[u8]) -> &[u8]
    ensures { result.now ≡ drop count text.now }
{
    text.split_at(count.min(text.len())).1
}

fn in_span(line: &[u8], span: Span) -> &[u8]
    ensures { result.now ≡ text_at line.now span }
{
    first_bytes(
        span.to.saturating_sub(span.from) as usize,
        bytes_behind(span.from as usize, line),
    )
}

/// Adds a word, if there is one.
fn push_lent<'a>(
    words: &mut Vec<&'a [u8]>,
    line: &'a [u8],
    found: Option<Span>,
) -> Result<(), TextFault>
    ensures ok { OnOk result (lent_texts words.new.items ≡ lent_texts words.old.items
        ++ map (text_at line.now) (option_to_list found)) }
    ensures err { IfErr result (λ fault. fault ≡ TextFault.NoMemory) }
{
    if let Some(span) = found {
        words.push(in_span(line, span))?;
    }
    Ok(())
}

/// Lends the words of a line.
fn lent_words<'a>(alloc: Global, line: &'a [u8]) -> Result<Vec<&'a [u8]>, TextFault>
    requires { length line.now < 2 ^ 32 }
    ensures { SplitsInto result (texts_at line.now (words_of line.now)) }
{
    let mut words = Vec::with_capacity(alloc, USUAL_WORDS)?;
    let mut place = 0;
    while place < line.len() {
        let (_, rest) = line.split_at(place + 1);
        let (found, taken) = word_at(place as u32, line[place], rest)?;
        push_lent(&mut words, line, found)?;
        place += 1 + taken;
    }
    Ok(words)
}

/// The words of a line in their order, as parts of it, or the first quote that begins a word and isn't
/// closed, with the quotes of a command line (qsub, the command line) and no escapes.
///
/// They are those that `words_of` computes (`computed`). The other clauses say by the cases of a line alone
/// what these are: which texts and which quote are answered, and that each line's words or open quote are.
/// Only [`TextFault::NoMemory`] is left open.
#[tactic(auto, using(crate::proofs::LineLemmas::splits_texts, crate::proofs::LineLemmas::splits_spans, crate::proofs::LineLemmas::splits_quote, crate::proofs::LineCompleteLemmas::splits_found, crate::proofs::LineCompleteLemmas::splits_open))]
pub fn words<'a>(alloc: Global, line: &'a [u8]) -> Result<Vec<&'a [u8]>, TextFault>
    requires { length line.now < 2 ^ 32 }
    ensures computed { SplitsInto result (texts_at line.now (words_of line.now)) }
    ensures texts { Lends result (texts_of line.now) }
    ensures spans { IfOk result (λ words. AreItsWords line.now (lent_texts words.items)) }
    ensures quote { (place : ℕ) → result ≡ Err (TextFault.Quote place)
        → HasOpenQuote 0 line.now place }
    ensures all_spans { (spans : List Span) → HasWords 0 line.now spans
        → SplitsInto result (Ok (map (text_at line.now) spans)) }
    ensures each_quote { (place : ℕ) → HasOpenQuote 0 line.now place
        → SplitsInto result (Err place) }
{
    lent_words(alloc, line)
}
