//! The name of a job that is made of its command, and the words of an option that a command has.

ghost use Rattle.std.specs.Prelude.{◌≡◌, IfOk, map};
ghost use Rattle.std.specs.Option.{option_map};
ghost use Rattle.std.specs.BTreeMap.{is_at};
ghost use Rattle.ge_collections.specs.Keyed.{text_cmp};
ghost use Rattle.ge_model_rows.specs.Pieces.{pieces_at};
ghost use Rattle.ge_model_grammar.specs.Options.{last_of, name_byte as named_byte, before_digit, or_stdin, command_name, option_words as words_of_option, has_option as option_is_there};
ghost use Rattle.ge_commands.specs.Lent.{texts};

use crate::wording::first_bytes;
use ge_pieces::{may_stand_in_job_name, slices_at, starts_with_digit};
use ge_rows::{List, Options, Text};
use std::alloc::{AllocError, Global};

fn last_slice<'a>(slices: &[&'a [u8]]) -> &'a [u8]
    ensures { result.now ≡ last_of (texts slices.now) }
{
    match slices.last() {
        None => &[],
        Some(last) => last,
    }
}

// What stands behind the last slash.
fn behind_slashes(alloc: Global, command: &[u8]) -> Result<&[u8], AllocError>
    ensures { IfOk result (λ last. last.now ≡ last_of (pieces_at 47 command.now)) }
{
    let slices = slices_at(alloc, b'/', command)?;
    Ok(last_slice(&slices))
}

fn name_byte(b: u8) -> u8
    ensures { result ≡ named_byte b }
{
    if may_stand_in_job_name(b) { b } else { b'_' }
}

fn with_name_bytes(alloc: Global, text: &[u8]) -> Result<Text, AllocError>
    ensures { IfOk result (λ name. name ≡ map named_byte text.now) }
{
    let mut name = Text::new(alloc);
    for b in text {
        name.push(name_byte(*b))?;
    }
    Ok(name)
}

fn led_by_letter(alloc: Global, name: Text) -> Result<Text, AllocError>
    ensures { IfOk result (λ led. led ≡ before_digit name) }
{
    if !starts_with_digit(name.bytes()) {
        return Ok(name);
    }
    let mut led = Text::from_bytes(alloc, b"J")?;
    led.append(name.bytes())?;
    Ok(led)
}

fn or_default_name(alloc: Global, name: Text) -> Result<Text, AllocError>
    ensures { IfOk result (λ named. named ≡ or_stdin name) }
{
    if name.is_empty() {
        Text::from_bytes(alloc, b"STDIN")
    } else {
        Ok(name)
    }
}

/// The name of a job that is made of its command: what stands behind the last `/`, with `_` in place of each byte that
/// a job name may not have, `J` before a leading digit, its first 128 bytes, and `STDIN` where that is nothing (qsub, -N).
pub fn name_of_command(alloc: Global, command: &[u8]) -> Result<Text, AllocError>
    ensures { IfOk result (λ name. name ≡ command_name command.now) }
{
    let last = behind_slashes(alloc, command)?;
    let name = with_name_bytes(alloc, first_bytes(128, last))?;
    let mut name = led_by_letter(alloc, name)?;
    name.truncate(128);
    or_default_name(alloc, name)
}

/// Whether a word is the key of a table by text. Asking whether they are one text is far cheaper than their order.
#[tactic(auto, using(crate::proofs::OneText::one_text))]
pub fn is_key(word: &[u8], key: &[u8]) -> bool
    ensures { result ≡ is_at (text_cmp word.now) key.now }
{
    word == key
}

fn words_in<'a>(items: &'a [(Text, List<Text>)], name: &[u8]) -> Option<&'a [Text]>
    ensures { option_map (λ words. words.now) result ≡ words_of_option items.now name.now }
{
    for (key, words) in items {
        if is_key(name, key.bytes()) {
            return Some(words.items());
        }
    }
    None
}

/// The words of an option that a command has.
pub fn option_words<'a>(options: &'a Options, name: &[u8]) -> Option<&'a [Text]>
    ensures { option_map (λ words. words.now) result ≡ words_of_option options.now.items name.now }
{
    words_in(options.items.items(), name)
}

/// Whether a command has an option.
pub fn has_option(options: &Options, name: &[u8]) -> bool
    ensures { result ≡ option_is_there options.now.items name.now }
{
    option_words(options, name).is_some()
}
