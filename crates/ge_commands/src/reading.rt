//! The options at the front of words.

ghost use Rattle.std.specs.Prelude.{◌≡◌, ◌∷◌, ◌++◌, [], IfOk, OnOk, length, map, codes};
ghost use Rattle.ge_model_grammar.specs.Lines.{begins_with};
ghost use Rattle.ge_model_grammar.specs.Shapes.{shape, words_for, words_behind, qsub_shapes, qalter_shapes, qrsub_shapes, read_options};
ghost use Rattle.ge_commands.specs.Lent.{texts, GivesAs};
ghost use Rattle.ge_commands.specs.Shown.{shape_shown, known_in, given_shown, all_shown};

use crate::forms::fits;
use crate::shapes::{OptionShape, Taker, find_shape, job_shapes, reservation_shapes};
use ge_model_grammar::{Effect, WordForm};
use ge_pieces::{ReadFault, begins};
use std::alloc::{AllocError, Global};

/// An option as it is given, its name and its words lent from a text.
#[derive(Clone, Copy)]
pub struct GivenOption<'a> {
    /// Its name.
    pub word: &'a [u8],
    /// Its first word, where it has one.
    pub first: Option<&'a [u8]>,
    /// Its second word.
    pub second: Option<&'a [u8]>,
}

impl<'a> GivenOption<'a> {
    pub(crate) fn count(&self) -> usize
        ensures { result ≡ length (given_shown self.now).1 }
    {
        match (self.first, self.second) {
            (None, None) => 0,
            (Some(_), None) | (None, Some(_)) => 1,
            (Some(_), Some(_)) => 2,
        }
    }
}

fn is_option(word: &[u8]) -> bool
    ensures { result ≡ begins_with (codes "-") word.now }
{
    begins(b"-", word)
}

// The word of an option of one word, at the front of these.
fn read_one<'a>(
    alloc: Global,
    word: &'a [u8],
    form: WordForm,
    words: &[&'a [u8]],
) -> Result<GivenOption<'a>, ReadFault>
    ensures words { GivesAs (λ g. (given_shown g).1) result (words_for (texts words.now) (shape []
        (form ∷ []) Effect.Idle)) }
    ensures name { IfOk result (λ g. g.word.now ≡ word.now) }
{
    match words {
        [] => Err(ReadFault::Syntax),
        [first, ..] => {
            if fits(alloc, form, first)? {
                Ok(GivenOption {
                    word,
                    first: Some(*first),
                    second: None,
                })
            } else {
                Err(ReadFault::Syntax)
            }
        }
    }
}

// The words of an option of two words, at the front of these.
fn read_two<'a>(
    alloc: Global,
    word: &'a [u8],
    form: WordForm,
    other: WordForm,
    words: &[&'a [u8]],
) -> Result<GivenOption<'a>, ReadFault>
    ensures words { GivesAs (λ g. (given_shown g).1) result (words_for (texts words.now) (shape []
        (form ∷ other ∷ []) Effect.Idle)) }
    ensures name { IfOk result (λ g. g.word.now ≡ word.now) }
{
    match words {
        [] => Err(ReadFault::Syntax),
        [_] => Err(ReadFault::Syntax),
        [first, second, ..] => {
            if fits(alloc, form, first)? && fits(alloc, other, second)? {
                Ok(GivenOption {
                    word,
                    first: Some(*first),
                    second: Some(*second),
                })
            } else {
                Err(ReadFault::Syntax)
            }
        }
    }
}

// The words of an option, at the front of those behind it.
fn read_words<'a>(
    alloc: Global,
    word: &'a [u8],
    shape: &OptionShape,
    words: &[&'a [u8]],
) -> Result<GivenOption<'a>, ReadFault>
    ensures words { GivesAs (λ g. (given_shown g).1) result (words_for (texts words.now)
        (shape_shown shape.now)) }
    ensures name { IfOk result (λ g. g.word.now ≡ word.now) }
{
    match (shape.first, shape.second) {
        (None, None) => Ok(GivenOption {
            word,
            first: None,
            second: None,
        }),
        (Some(form), None) | (None, Some(form)) => read_one(alloc, word, form, words),
        (Some(form), Some(other)) => read_two(alloc, word, form, other, words),
    }
}

// The option that a word names, with its words at the front of those behind it.
fn read_named<'a>(
    alloc: Global,
    taker: Taker,
    table: &[OptionShape],
    word: &'a [u8],
    words: &[&'a [u8]],
) -> Result<GivenOption<'a>, ReadFault>
    ensures words { GivesAs (λ g. (given_shown g).1) result (words_behind (known_in taker
        (map shape_shown table.now)) word.now (texts words.now)) }
    ensures name { IfOk result (λ g. g.word.now ≡ word.now) }
{
    match find_shape(taker, table, word) {
        None => Err(ReadFault::Syntax),
        Some(shape) => read_words(alloc, word, &shape, words),
    }
}

fn push<'a>(given: &mut Vec<GivenOption<'a>>, option: GivenOption<'a>) -> Result<(), AllocError>
    ensures { OnOk result (all_shown given.new.items ≡ all_shown given.old.items
        ++ given_shown option.entry ∷ []) }
{
    given.push(option)?;
    Ok(())
}

// The options of a table that a command takes at the front of words, each with its words, and the words behind them.
#[tactic(auto, unfolding(ge_model_grammar::specs::Shapes::read_options))]
fn read_front<'w, 'a>(
    alloc: Global,
    taker: Taker,
    table: &[OptionShape],
    words: &'w [&'a [u8]],
) -> Result<(Vec<GivenOption<'a>>, &'w [&'a [u8]]), ReadFault>
    ensures { GivesAs (λ front. (all_shown front.0.items, texts front.1.now)) result (read_options
        (known_in taker (map shape_shown table.now)) (texts words.now)) }
{
    let mut given = Vec::new(alloc);
    let mut at: usize = 0;
    while at < words.len() && is_option(words[at]) {
        let (_, behind) = words.split_at(at + 1);
        let option = match read_named(alloc, taker, table, words[at], behind) {
            Ok(option) => option,
            Err(fault) => return Err(fault),
        };
        push(&mut given, option)?;
        at += 1 + option.count().min(behind.len());
    }
    Ok((given, words.split_at(at).1))
}

/// The options of qsub at the front of words, each with its words, and the words behind them: the first word that
/// doesn't begin with `-` ends them. A syntax error where qsub doesn't take one of them, and where a word of one isn't
/// as it must be (qsub).
pub fn read_submission_options<'w, 'a>(
    alloc: Global,
    words: &'w [&'a [u8]],
) -> Result<(Vec<GivenOption<'a>>, &'w [&'a [u8]]), ReadFault>
    ensures { GivesAs (λ front. (all_shown front.0.items, texts front.1.now)) result
        (read_options qsub_shapes (texts words.now)) }
{
    read_front(alloc, Taker::Submission, &job_shapes(), words)
}

/// The same of qalter, which takes no `-t`, no `-h` and no `-ar` (qalter).
pub fn read_alteration_options<'w, 'a>(
    alloc: Global,
    words: &'w [&'a [u8]],
) -> Result<(Vec<GivenOption<'a>>, &'w [&'a [u8]]), ReadFault>
    ensures { GivesAs (λ front. (all_shown front.0.items, texts front.1.now)) result
        (read_options qalter_shapes (texts words.now)) }
{
    read_front(alloc, Taker::Alteration, &job_shapes(), words)
}

/// The same of qrsub, which has options of its own (qrsub).
pub fn read_reservation_options<'w, 'a>(
    alloc: Global,
    words: &'w [&'a [u8]],
) -> Result<(Vec<GivenOption<'a>>, &'w [&'a [u8]]), ReadFault>
    ensures { GivesAs (λ front. (all_shown front.0.items, texts front.1.now)) result
        (read_options qrsub_shapes (texts words.now)) }
{
    read_front(alloc, Taker::Reservation, &reservation_shapes(), words)
}
