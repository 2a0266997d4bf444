//! Values as they are printed (complex, sge_types).

ghost use Rattle.std.specs.Prelude.{◌≡◌, ◌<◌, ◌∷◌, [], IfOk, map, decimal};
ghost use Rattle.ge_model_rows.specs.Values.{digit_at, clock_text, flag_text};
ghost use Rattle.ge_model_rows.specs.Values as values;
ghost use Rattle.ge_model_rows.specs.Complexes as complexes;

use crate::lookups::kind_for;
use ge_pieces::or_none_text;
use ge_rows::{Cluster, INFINITY, Kind, Text, Value};
use std::alloc::{AllocError, Global};

/// Millionths in one.
const MILLION: u64 = 1_000_000;

fn decimal_text(alloc: Global, n: u64) -> Result<Text, AllocError>
    ensures { IfOk result (λ text. text ≡ decimal n) }
{
    Text::from_bytes(alloc, n.to_string(alloc)?.as_bytes())
}

fn digit(n: u64, unit: u64) -> u8
    requires { 0 < unit }
    ensures { result ≡ digit_at n unit }
{
    b'0' + (n / unit % 10) as u8
}

fn six_digits(millionths: u64) -> [u8; 6]
    ensures { result
        ≡ map (digit_at millionths) (100000 ∷ 10000 ∷ 1000 ∷ 100 ∷ 10 ∷ 1 ∷ []) }
{
    [
        digit(millionths, 100_000),
        digit(millionths, 10_000),
        digit(millionths, 1_000),
        digit(millionths, 100),
        digit(millionths, 10),
        digit(millionths, 1),
    ]
}

/// Millionths as a DOUBLE is printed, with six decimals.
pub fn fixed_text(alloc: Global, millionths: u64) -> Result<Text, AllocError>
    ensures { IfOk result (λ text. text ≡ values.fixed_text millionths) }
{
    let mut text = decimal_text(alloc, millionths / MILLION)?;
    text.append(b".")?;
    text.append(&six_digits(millionths))?;
    Ok(text)
}

fn time_text(alloc: Global, seconds: u64) -> Result<Text, AllocError>
    ensures { IfOk result (λ text. text ≡ clock_text seconds) }
{
    let mut text = decimal_text(alloc, seconds / 3600)?;
    text.append(b":")?;
    text.append((seconds / 60 % 60).to_string(alloc)?.as_bytes())?;
    text.append(b":")?;
    text.append((seconds % 60).to_string(alloc)?.as_bytes())?;
    Ok(text)
}

/// An amount as a kind prints it: seconds as `hours:minutes:seconds`, bytes and whole numbers in digits, millionths with six
/// decimals. The greatest TIME and MEMORY is `INFINITY`.
pub fn amount_text(alloc: Global, kind: Kind, amount: u64) -> Result<Text, AllocError>
    ensures { IfOk result (λ text. text ≡ values.amount_text kind amount) }
{
    let is_infinite = amount == INFINITY;
    match kind {
        Kind::Time if is_infinite => Text::from_bytes(alloc, b"INFINITY"),
        Kind::Time => time_text(alloc, amount),
        Kind::Memory if is_infinite => Text::from_bytes(alloc, b"INFINITY"),
        Kind::Double => fixed_text(alloc, amount),
        _ => decimal_text(alloc, amount),
    }
}

fn flag_bytes(flag: bool) -> &'static [u8]
    ensures { result.now ≡ flag_text flag }
{
    if flag { b"TRUE" } else { b"FALSE" }
}

/// A value as a kind prints it. One whose form isn't that of its kind is printed by its form, as INT, BOOL or STRING.
pub fn value_text(alloc: Global, kind: Kind, value: &Value) -> Result<Text, AllocError>
    ensures { IfOk result (λ text. text ≡ values.value_text kind value.now) }
{
    match value {
        Value::Amount(amount) => amount_text(alloc, kind, *amount),
        Value::Flag(flag) => Text::from_bytes(alloc, flag_bytes(*flag)),
        Value::Word(word) => Text::from_bytes(alloc, or_none_text(word)),
    }
}

/// `name=value`, the value as the kind of that name prints it.
pub fn pair_text(alloc: Global, c: &Cluster, name: &Text, value: &Value) -> Result<Text, AllocError>
    ensures { IfOk result (λ text. text ≡ complexes.pair_text c.now (name.now, value.now)) }
{
    let mut text = Text::from_bytes(alloc, name.bytes())?;
    text.append(b"=")?;
    text.append(value_text(alloc, kind_for(c, name), value)?.bytes())?;
    Ok(text)
}
