//! The word at a place of a line. Blanks part words, and one that begins with a quote reaches to the next
//! same quote.

ghost use Rattle.std.specs.Prelude.{◌≡◌, ◌+◌, ◌^◌, ◌<◌, length, ◌==◌, ◌≤◌, position, IfSome};
ghost use Rattle.ge_model_text.specs.Words.{is_blank, is_quote, ends_word, before_blank, quoted_word, quoted_taken, word_here, taken_here};
ghost use Rattle.ge_text.specs.Splitting.{IsWordHere};

use ge_model_text::Span;
use std::alloc::{AllocError, AllocFailed};

/// Why a line has no words.
#[derive(Clone, Copy, PartialEq, Eq)]
pub enum TextFault {
    /// A word begins with a quote, and the next same quote is missing or no blank and no end follows it.
    /// It holds the place, from 0, of the first such quote that begins a word.
    Quote(u32),
    /// Memory ran out.
    NoMemory,
}

impl From<AllocError> for TextFault {
    ghost use Rattle.ge_text.specs.declared.splitting.TextFault.TheVariants.{NoMemory};

    ghost from_gives = { λ _ e. e ≡ NoMemory };

    fn from(_: AllocError) -> Self {
        TextFault::NoMemory
    }
}

impl<T: Drop> From<AllocFailed<T>> for TextFault {
    ghost use Rattle.ge_text.specs.declared.splitting.TextFault.TheVariants.{NoMemory};

    ghost from_gives = { λ _ e. e ≡ NoMemory };

    fn from(_: AllocFailed<T>) -> Self {
        TextFault::NoMemory
    }
}

/// A space or a tab.
fn parts_words(b: u8) -> bool
    ensures { result ≡ is_blank b }
{
    b == b' ' || b == b'\t'
}

fn quotes_word(b: u8) -> bool
    ensures { result ≡ is_quote b }
{
    b == b'\'' || b == b'"'
}

/// Whether a word may end before these bytes.
fn may_end_before(rest: &[u8]) -> bool
    ensures { result ≡ ends_word rest.now }
{
    match rest {
        [] => true,
        [b, ..] => parts_words(*b),
    }
}

/// Where a blank stands first.
fn place_of_blank(rest: &[u8]) -> Option<usize>
    ensures place { result ≡ position is_blank rest.now }
    ensures bound { IfSome result (λ before. before < length rest.now) }
{
    rest.iter().position(|c| parts_words(*c))
}

/// How many bytes stand before the first blank.
fn length_before_blank(rest: &[u8]) -> usize
    ensures length { result ≡ before_blank rest.now }
    ensures bound { result ≤ length rest.now }
{
    match place_of_blank(rest) {
        Some(before) => before,
        None => rest.len(),
    }
}

/// Where a quote stands first.
fn place_of_quote(quote: u8, rest: &[u8]) -> Option<usize>
    ensures place { result ≡ position (λ c. c == quote) rest.now }
    ensures bound { IfSome result (λ inside. inside < length rest.now) }
{
    rest.iter().position(|c| *c == quote)
}

/// The word between a quote at a place and the next same quote, and how many bytes of `rest` belong to it.
fn word_in_quotes(place: u32, quote: u8, rest: &[u8]) -> Result<(Option<Span>, usize), TextFault>
    requires { place + 1 + length rest.now < 2 ^ 32 }
    ensures { IsWordHere result rest.now (quoted_word place rest.now (position (λ c. c == quote) rest.now)) (quoted_taken (position (λ c. c == quote) rest.now)) }
{
    let Some(inside) = place_of_quote(quote, rest) else {
        return Err(TextFault::Quote(place));
    };
    if !may_end_before(&rest[inside + 1..]) {
        return Err(TextFault::Quote(place));
    }
    let from = place + 1;
    Ok((
        Some(Span {
            from,
            to: from + inside as u32,
        }),
        inside + 1,
    ))
}

/// The word that begins with `first` at a place, and how many bytes of `rest` belong to it: no word where
/// `first` is a blank.
pub(crate) fn word_at(
    place: u32,
    first: u8,
    rest: &[u8],
) -> Result<(Option<Span>, usize), TextFault>
    requires { place + 1 + length rest.now < 2 ^ 32 }
    ensures { IsWordHere result rest.now (word_here place first rest.now) (taken_here first rest.now) }
{
    if parts_words(first) {
        return Ok((None, 0));
    }
    if quotes_word(first) {
        return word_in_quotes(place, first, rest);
    }
    let taken = length_before_blank(rest);
    Ok((
        Some(Span {
            from: place,
            to: place + 1 + taken as u32,
        }),
        taken,
    ))
}
