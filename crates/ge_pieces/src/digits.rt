//! Digits and what they are worth.

ghost use Rattle.std.specs.Prelude.{◌≡◌, ◌-◌, ◌^◌, min};
ghost use Rattle.std.specs.List.{list_all};
ghost use Rattle.ge_model_text.specs.Value.{is_digit};
ghost use Rattle.ge_model_grammar.specs.Header.{is_decimal};
ghost use Rattle.ge_model_rows.specs.Pieces.{is_digits, number_of};
ghost use Rattle.ge_model_grammar.specs.Targets.{cut_number};

fn is_a_digit(b: u8) -> bool
    ensures { result ≡ is_digit b }
{
    b.is_ascii_digit()
}

fn has_digits_alone(text: &[u8]) -> bool
    ensures { result ≡ list_all is_digit text.now }
{
    text.iter().all(|b| is_a_digit(*b))
}

/// Whether a text is one digit or more.
pub fn has_digits(text: &[u8]) -> bool
    ensures { result ≡ is_digits text.now }
{
    !text.is_empty() && has_digits_alone(text)
}

/// Whether a text is a number as numbers are written: digits, and no zero before others.
pub fn is_decimal_number(text: &[u8]) -> bool
    ensures { result ≡ is_decimal text.now }
{
    match text {
        [] => false,
        [digit] => is_a_digit(*digit),
        [first, _, ..] => *first != b'0' && has_digits_alone(text),
    }
}

fn digit_of(b: u8) -> u64
    ensures { result ≡ b - 48 }
{
    u64::from(b.saturating_sub(b'0'))
}

/// What digits are worth, cut at 2^64 - 1.
pub fn digits_worth(digits: &[u8]) -> u64
    ensures { result ≡ min (number_of digits.now) (2 ^ 64 - 1) }
{
    let mut worth: u64 = 0;
    for digit in digits {
        worth = worth.saturating_mul(10).saturating_add(digit_of(*digit));
    }
    worth
}

/// The number that a text of digits is, cut at a greatest one; nothing where it isn't digits alone.
pub fn number_up_to(greatest: u64, text: &[u8]) -> Option<u64>
    ensures { result ≡ cut_number greatest text.now }
{
    if has_digits(text) {
        Some(digits_worth(text).min(greatest))
    } else {
        None
    }
}
