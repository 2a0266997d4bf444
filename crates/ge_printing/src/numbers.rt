//! Numbers in words.

ghost use Rattle.std.specs.Prelude.{◌≡◌, ◌⊎◌, ◌++◌, ◌∷◌, [], IfOk, OnOk, decimal, map};
ghost use Rattle.ge_model_rows.specs.Pieces.{list_text};
ghost use Rattle.ge_model_rows.specs.Values.{digit_at, fixed_text};

use ge_pieces::join_list;
use ge_rows::{List, Text};
use itoa::Buffer;
use std::alloc::{AllocError, Global};

/// The millionths of one.
const MILLION: u128 = 1_000_000;

/// A number in decimal.
pub fn decimal_text(alloc: Global, n: u128) -> Result<Text, AllocError>
    ensures { IfOk result (λ text. text ≡ decimal n) }
{
    Text::from_bytes(alloc, Buffer::new().format(n).as_bytes())
}

/// Puts a number in decimal at the end of a line.
pub fn append_decimal(line: &mut Vec<u8>, n: u128) -> Result<(), AllocError>
    ensures { OnOk result (line.new.items ≡ line.old.items ++ decimal n) }
{
    line.extend_from_slice(Buffer::new().format(n).as_bytes())
}

/// Four numbers in decimal.
pub fn decimals4(
    alloc: Global,
    a: u128,
    b: u128,
    c: u128,
    d: u128,
) -> Result<(Text, Text, Text, Text), AllocError>
    ensures { IfOk result (λ texts. texts ≡ (decimal a, decimal b, decimal c, decimal d)) }
{
    let a = decimal_text(alloc, a)?;
    let b = decimal_text(alloc, b)?;
    let c = decimal_text(alloc, c)?;
    let d = decimal_text(alloc, d)?;
    Ok((a, b, c, d))
}

fn decimals(alloc: Global, numbers: &[u32]) -> Result<List<Text>, AllocError>
    ensures { IfOk result (λ texts. texts ≡ map decimal numbers.now) }
{
    let mut texts = List::new(alloc);
    for number in numbers {
        texts.push(decimal_text(alloc, u128::from(*number))?)?;
    }
    Ok(texts)
}

/// Numbers in decimal, joined by commas, or `NONE` where there is none.
pub fn number_list(alloc: Global, numbers: &[u32]) -> Result<Text, AllocError>
    ensures { IfOk result (λ text. text ≡ list_text (map decimal numbers.now)) }
{
    join_list(alloc, decimals(alloc, numbers)?.items())
}

fn digit(n: u32, unit: u32) -> u8
    requires { unit ≡ 100000 ⊎ (unit ≡ 10000 ⊎ (unit ≡ 1000 ⊎ (unit ≡ 100 ⊎ (unit ≡ 10 ⊎ unit
        ≡ 1)))) }
    ensures { result ≡ digit_at n unit }
{
    48 + (n / unit % 10) as u8
}

// The six decimals. They are those of the part below one, whose digits are found without wide divisions.
fn six_decimals(millionths: u128) -> [u8; 6]
    ensures { result
        ≡ map (digit_at millionths) (100000 ∷ 10000 ∷ 1000 ∷ 100 ∷ 10 ∷ 1 ∷ []) }
{
    let part = (millionths % MILLION) as u32;
    [
        digit(part, 100_000),
        digit(part, 10_000),
        digit(part, 1000),
        digit(part, 100),
        digit(part, 10),
        digit(part, 1),
    ]
}

/// Puts millionths with six decimals at the end of a line.
pub(crate) fn append_fixed(line: &mut Vec<u8>, millionths: u128) -> Result<(), AllocError>
    ensures { OnOk result (line.new.items ≡ line.old.items ++ fixed_text millionths) }
{
    append_decimal(line, millionths / MILLION)?;
    line.push(b'.')?;
    line.extend_from_slice(&six_decimals(millionths))
}

/// Millionths with six decimals, as a DOUBLE is printed: see the manual page sge_types.
pub fn fixed(alloc: Global, millionths: u128) -> Result<Text, AllocError>
    ensures { IfOk result (λ text. text ≡ fixed_text millionths) }
{
    let mut text = Vec::new(alloc);
    append_fixed(&mut text, millionths)?;
    Ok(Text::from_vec(text))
}
