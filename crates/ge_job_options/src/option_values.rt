//! The words of options as values (qsub, qalter, qrsub), and what refuses them.

ghost use Rattle.std.specs.Prelude.{◌≡◌, ◌-◌, IfOk, IfSome};
ghost use Rattle.std.specs.Option.{option_copied, option_map};
ghost use Rattle.ge_model_rows.specs.Faults.{after_faults};
ghost use Rattle.ge_model_rows.specs.Pieces.{number_of};
ghost use Rattle.ge_model_core.specs.OptionValues as values;
ghost use Rattle.ge_model_core.specs.JobOptions.{faults_in, width_faults, moment_faults, deadline_faults};

use ge_base::Refusal;
use ge_commands::option_words;
use ge_limits::MOMENTS;
use ge_pieces::{is_word, note};
use ge_rows::{Options, Text};
use std::alloc::{AllocError, Global};

/// Job shares and tickets are below this.
const WIDTH: u128 = 4_294_967_296;

fn first_text(words: &[Text]) -> Option<&Text>
    ensures { option_copied result ≡ values.first_word words.now }
{
    match words {
        [] => None,
        [word, ..] => Some(word),
    }
}

/// The one word of an option, where the command has it; of several words the first.
pub fn option_text<'a>(options: &'a Options, name: &[u8]) -> Option<&'a Text>
    ensures { option_copied result ≡ values.option_word options.now.items name.now }
{
    match option_words(options, name) {
        None => None,
        Some(words) => first_text(words),
    }
}

/// The bytes of that word.
pub fn option_word<'a>(options: &'a Options, name: &[u8]) -> Option<&'a [u8]>
    ensures { option_map (λ word. word.now) result ≡ values.option_word options.now.items name.now }
{
    match option_text(options, name) {
        None => None,
        Some(word) => Some(word.bytes()),
    }
}

fn digit_of(b: u8) -> u128
    ensures { result ≡ b - 48 }
{
    u128::from(b.saturating_sub(b'0'))
}

/// What digits are worth, cut at 2^128 - 1.
pub fn wide_worth(digits: &[u8]) -> u128
    ensures { result ≡ number_of digits.now }
{
    let mut worth: u128 = 0;
    for digit in digits {
        worth = worth.saturating_mul(10).saturating_add(digit_of(*digit));
    }
    worth
}

/// The number that an option gives, cut at 2^128 - 1, where the command has it.
pub fn number_given(options: &Options, name: &[u8]) -> Option<u128>
    ensures { result ≡ values.number_given options.now.items name.now }
{
    match option_word(options, name) {
        None => None,
        Some(word) => Some(wide_worth(word)),
    }
}

/// The number that an option gives, as its row has room for it. A wider number is refused before it is asked for here, so that
/// the one failure is want of memory.
pub fn small_number_given(options: &Options, name: &[u8]) -> Result<Option<u64>, AllocError>
    ensures { IfOk result (λ number. number ≡ values.number_given options.now.items name.now) }
{
    match number_given(options, name) {
        None => Ok(None),
        Some(number) => match u64::try_from(number) {
            Ok(number) => Ok(Some(number)),
            Err(_) => Err(AllocError),
        },
    }
}

/// Whether the text of a whole number has a dash (qsub, -p).
pub fn is_negative(text: &[u8]) -> bool
    ensures { result ≡ values.is_negative text.now }
{
    match text {
        [] => false,
        [first, ..] => *first == b'-',
    }
}

/// The number of such a text without its dash.
pub fn magnitude(text: &[u8]) -> u128
    ensures { result ≡ values.magnitude text.now }
{
    match text {
        [] => 0,
        [first, digits @ ..] => {
            if *first == b'-' {
                wide_worth(digits)
            } else {
                wide_worth(text)
            }
        }
    }
}

/// A whole number, perhaps with a dash, where it has room in 32 bits.
pub fn small_integer(text: &[u8]) -> Option<i32>
    ensures { IfSome result (λ number. number ≡ values.integer_of text.now) }
{
    let Ok(size) = i32::try_from(magnitude(text)) else {
        return None;
    };
    if is_negative(text) {
        Some(-size)
    } else {
        Some(size)
    }
}

/// Whether a word is `y` or `yes` (qsub, -R).
pub fn is_yes(word: &[u8]) -> bool
    ensures { result ≡ values.is_yes word.now }
{
    is_word(word, b"y") || is_word(word, b"yes")
}

/// Whether an option is given with `y` or `yes`, where the command has it.
pub fn yes_given(options: &Options, name: &[u8]) -> Option<bool>
    ensures { result ≡ option_map values.is_yes (values.option_word options.now.items name.now) }
{
    match option_word(options, name) {
        None => None,
        Some(word) => Some(is_yes(word)),
    }
}

/// A copy of the one word of an option, where the command has it.
pub fn text_given(alloc: Global, options: &Options, name: &[u8]) -> Result<Option<Text>, AllocError>
    ensures { IfOk result (λ text. text ≡ values.option_word options.now.items name.now) }
{
    match option_word(options, name) {
        None => Ok(None),
        Some(word) => Ok(Some(Text::from_bytes(alloc, word)?)),
    }
}

/// Notes a share or a number of tickets that isn't below 2^32: `BadValue`.
pub fn note_wide(faults: &mut Option<Refusal>, number: u128)
    ensures { faults.new ≡ after_faults faults.old (width_faults number) }
{
    note(faults, number >= WIDTH, Refusal::BadValue);
}

/// The same, where one is given.
pub fn note_width(faults: &mut Option<Refusal>, number: Option<u128>)
    ensures { faults.new ≡ after_faults faults.old (faults_in number width_faults) }
{
    if let Some(number) = number {
        note_wide(faults, number);
    }
}

/// Notes a moment that is given and isn't below 2^40: `BadValue`.
pub fn note_moment(faults: &mut Option<Refusal>, number: Option<u128>)
    ensures { faults.new ≡ after_faults faults.old (faults_in number moment_faults) }
{
    if let Some(number) = number {
        note(faults, number >= u128::from(MOMENTS), Refusal::BadValue);
    }
}

/// Notes a deadline that is given and is 0 or isn't below 2^40: `BadValue`.
pub fn note_deadline(faults: &mut Option<Refusal>, number: Option<u128>)
    ensures { faults.new ≡ after_faults faults.old (faults_in number deadline_faults) }
{
    if let Some(number) = number {
        note(faults, number >= u128::from(MOMENTS), Refusal::BadValue);
        note(faults, number == 0, Refusal::BadValue);
    }
}
