//! The options that count.

ghost use Rattle.std.specs.Prelude.{◌≡◌, ◌++◌, ◌∷◌, [], false, None, IfOk, OnOk, filter, filter_map, map};
ghost use Rattle.std.specs.Option.{option_map};
ghost use Rattle.ge_model_grammar.specs.Shapes.{words_after, words_in, is_effective, item_in, merged_by, merged_options, qrsub_shapes};
ghost use Rattle.ge_commands.specs.Shown.{shape_shown, given_shown, all_shown, is_adding};

use crate::reading::GivenOption;
use crate::shapes::{OptionShape, job_shapes, reservation_shapes};
use ge_model_grammar::Effect;
use ge_pieces::is_word;
use ge_rows::{List, Options, Text};
use std::alloc::{AllocError, Global};

fn adds(shape: &OptionShape) -> bool
    ensures { result ≡ is_adding (shape_shown shape.now) }
{
    match shape.counts_as {
        Effect::Adds => true,
        Effect::Replaces | Effect::Idle => false,
    }
}

fn counts(shape: &OptionShape) -> bool
    ensures { result ≡ is_effective (shape_shown shape.now) }
{
    match shape.counts_as {
        Effect::Replaces | Effect::Adds => true,
        Effect::Idle => false,
    }
}

// Whether one of these has the option's name. Most options of the table aren't given, and are passed over by this alone.
fn is_given(shape: &OptionShape, given: &[GivenOption]) -> bool
    ensures { result ≡ false → words_in (all_shown given.now) (shape_shown shape.now) ≡ None }
{
    for option in given {
        if is_word(shape.word, option.word) {
            return true;
        }
    }
    false
}

fn push_words(alloc: Global, words: &mut Vec<Text>, given: &GivenOption) -> Result<(), AllocError>
    ensures { OnOk result (words.new.items ≡ words.old.items ++ (given_shown given.now).1) }
{
    if let Some(word) = given.first {
        words.push(Text::from_bytes(alloc, word)?)?;
    }
    if let Some(word) = given.second {
        words.push(Text::from_bytes(alloc, word)?)?;
    }
    Ok(())
}

// The words of an option, after one more that was given.
fn words_with(
    alloc: Global,
    shape: &OptionShape,
    so_far: Option<Vec<Text>>,
    given: &GivenOption,
) -> Result<Option<Vec<Text>>, AllocError>
    ensures { IfOk result (λ after. option_map (λ words. words.items) after
        ≡ words_after (shape_shown shape.now) (option_map (λ words. words.items) so_far)
        (given_shown given.now)) }
{
    if !is_word(shape.word, given.word) {
        return Ok(so_far);
    }
    let mut words = match so_far {
        None => Vec::with_capacity(alloc, given.count())?,
        Some(before) => before,
    };
    if !adds(shape) {
        words.clear();
    }
    push_words(alloc, &mut words, given)?;
    Ok(Some(words))
}

// The words that count of an option.
fn words_of(
    alloc: Global,
    shape: &OptionShape,
    given: &[GivenOption],
) -> Result<Option<Vec<Text>>, AllocError>
    ensures { IfOk result (λ words. option_map (λ ws. ws.items) words
        ≡ words_in (all_shown given.now) (shape_shown shape.now)) }
{
    let mut words = None;
    for option in given {
        words = words_with(alloc, shape, words, option)?;
    }
    Ok(words)
}

fn push_item(
    alloc: Global,
    items: &mut Vec<(Text, List<Text>)>,
    shape: &OptionShape,
    given: &[GivenOption],
) -> Result<(), AllocError>
    ensures { OnOk result (items.new.items ≡ items.old.items ++ filter_map (item_in
        (all_shown given.now)) (filter is_effective (shape_shown shape.now ∷ []))) }
{
    if counts(shape) && is_given(shape, given) {
        if let Some(words) = words_of(alloc, shape, given)? {
            let name = Text::from_bytes(alloc, shape.word)?;
            items.push((name, List::from_vec(words)))?;
        }
    }
    Ok(())
}

fn merge(alloc: Global, table: &[OptionShape], given: &[GivenOption]) -> Result<Options, AllocError>
    ensures { IfOk result (λ options. options.items
        ≡ merged_by (map shape_shown table.now) (all_shown given.now)) }
{
    let mut items = Vec::with_capacity(alloc, given.len())?;
    for shape in table {
        push_item(alloc, &mut items, shape, given)?;
    }
    Ok(Options {
        items: List::from_vec(items),
    })
}

/// The options of a job that count, each once and with copies of its words: of the ones of a name the last that is
/// given, but of `-l` all of them (qsub, qalter).
#[tactic(auto, unfolding(ge_model_grammar::specs::Shapes::merged_options))]
pub fn merged_job_options(alloc: Global, given: &[GivenOption]) -> Result<Options, AllocError>
    ensures { IfOk result (λ options. options.items ≡ merged_options (all_shown given.now)) }
{
    merge(alloc, &job_shapes(), given)
}

/// The same of an advance reservation (qrsub).
pub fn merged_reservation_options(
    alloc: Global,
    given: &[GivenOption],
) -> Result<Options, AllocError>
    ensures { IfOk result (λ options. options.items
        ≡ merged_by qrsub_shapes (all_shown given.now)) }
{
    merge(alloc, &reservation_shapes(), given)
}
