//! Texts compared.

ghost use Rattle.std.specs.Prelude.{◌≡◌, map};
ghost use Rattle.std.specs.BTreeMap.{is_at};
ghost use Rattle.ge_collections.specs.Keyed.{text_eq, text_cmp};
ghost use Rattle.ge_model_rows.specs.Pieces.{is_one_of};
ghost use Rattle.ge_model_grammar.specs.Lines.{begins_with, ends_in};

use ge_rows::Text;
use std::cmp::Ordering;

/// Whether two texts are one.
pub fn is_same(a: &Text, b: &Text) -> bool
    ensures { result ≡ text_eq a.now b.now }
{
    a == b
}

/// Whether a text is this word.
pub fn is_word(text: &[u8], word: &[u8]) -> bool
    ensures { result ≡ text_eq text.now word.now }
{
    text == word
}

/// Whether a text is the key of a table.
pub fn same_key(a: &Text, b: &Text) -> bool
    ensures { result ≡ is_at (text_cmp a.now) b.now }
{
    a.cmp(b) == Ordering::Equal
}

/// Whether a text is one of these texts.
pub fn is_among(text: &Text, texts: &[Text]) -> bool
    ensures { result ≡ is_one_of text.now texts.now }
{
    texts.iter().any(|other| is_same(text, other))
}

/// Whether a text is one of these words.
pub fn is_in(text: &[u8], words: &[&[u8]]) -> bool
    ensures { result ≡ is_one_of text.now (map (λ word. word.now) words.now) }
{
    for word in words {
        if is_word(text, word) {
            return true;
        }
    }
    false
}

/// Whether a text begins with this front.
pub fn begins(front: &[u8], text: &[u8]) -> bool
    ensures { result ≡ begins_with front.now text.now }
{
    text.starts_with(front)
}

/// Whether a text ends with this back.
pub fn ends(back: &[u8], text: &[u8]) -> bool
    ensures { result ≡ ends_in back.now text.now }
{
    text.ends_with(back)
}
