// What the words of a command line say.
ghost use Rattle.std.specs.Prelude.{◌≡◌, map, string_bytes};
ghost use Rattle.ge_gridacct.specs.Words.{word_alone, word_with_name, word_of, name_in};

use ge_pieces::{is_a_name, is_word};

/// What is written of the log's lines.
#[derive(Clone, Copy)]
pub enum Look {
    /// Each of them.
    Lines,
    /// The sums of all.
    Total,
    /// Those of an owner.
    Owner,
}

/// What the words after the program's name say.
#[derive(Clone, Copy)]
pub enum Word {
    /// The lines that the log hasn't are appended to it.
    Flush,
    /// Something is written of its lines.
    Look(Look),
}

fn read_alone(word: &[u8]) -> Option<Word>
    ensures { result ≡ word_alone word.now }
{
    if is_word(word, b"flush") {
        Some(Word::Flush)
    } else if is_word(word, b"show") {
        Some(Word::Look(Look::Lines))
    } else if is_word(word, b"sum") {
        Some(Word::Look(Look::Total))
    } else {
        None
    }
}

fn read_with_name(word: &[u8], name: &[u8]) -> Option<Word>
    ensures { result ≡ word_with_name word.now name.now }
{
    if is_word(word, b"sum") && is_a_name(name) {
        Some(Word::Look(Look::Owner))
    } else {
        None
    }
}

/// What the words say, or nothing where they are no line of the table of words.
pub(crate) fn read_words(words: &[String]) -> Option<Word>
    ensures { result ≡ word_of (map string_bytes words.now) }
{
    match words {
        [] => None,
        [word] => read_alone(word.as_bytes()),
        [word, name] => read_with_name(word.as_bytes(), name.as_bytes()),
        [_, _, _, ..] => None,
    }
}

/// The second of two words, and no byte elsewhere.
pub(crate) fn name_of(words: &[String]) -> &[u8]
    ensures { result.now ≡ name_in (map string_bytes words.now) }
{
    match words {
        [_, name] => name.as_bytes(),
        _ => b"",
    }
}
