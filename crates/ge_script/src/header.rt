// The header of a request.
ghost use Rattle.std.specs.Prelude.{◌≡◌, min, ◌^◌, ◌-◌};
ghost use Rattle.ge_script.specs.Shows.{says_header};
ghost use Rattle.ge_limits.specs.Limits.{moments};
ghost use Rattle.ge_model_grammar.specs.Header.{decimal_value, moment_of, header_parts};

use ge_limits::MOMENTS;
use ge_pieces::{is_a_name, is_decimal_number, split_word};

/// The moment, the user and the group of a request.
#[derive(Clone, Copy)]
pub(crate) struct Header<'a> {
    pub(crate) moment: u64,
    pub(crate) user: &'a [u8],
    pub(crate) group: &'a [u8],
}

fn digit_worth(digit: u8) -> u64
    ensures { result ≡ digit - 48 }
{
    u64::from(digit.saturating_sub(b'0'))
}

// What the digits are worth, cut at 2^40.
fn value_up_to_limit(digits: &[u8]) -> u64
    ensures { result ≡ min (decimal_value digits.now) moments }
{
    let mut value = 0u64;
    for digit in digits {
        value = (10 * value + digit_worth(*digit)).min(MOMENTS);
    }
    value
}

fn moment(text: &[u8]) -> Option<u64>
    ensures { result ≡ moment_of text.now }
{
    if !is_decimal_number(text) {
        return None;
    }
    let value = value_up_to_limit(text);
    if value < MOMENTS { Some(value) } else { None }
}

/// What a header says, or nothing where the line is no header.
pub(crate) fn read_header(line: &[u8]) -> Option<Header<'_>>
    ensures { says_header result ≡ header_parts line.now }
{
    let (first, text) = line.split_first()?;
    if *first != b'@' {
        return None;
    }
    let (moment_text, after) = split_word(text);
    let (user, group) = split_word(after);
    let moment = moment(moment_text)?;
    if is_a_name(user) && is_a_name(group) {
        Some(Header {
            moment,
            user,
            group,
        })
    } else {
        None
    }
}
