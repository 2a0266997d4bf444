//! The machine that reads an amount, one byte at a time.

ghost use Rattle.std.specs.Prelude.{◌≡◌, ◌+◌, ◌*◌, ◌-◌, ◌≤◌, ◌<◌, ◌^◌};
ghost use Rattle.ge_model_text.specs.Value.{is_digit, factor, unit_at};
ghost use Rattle.ge_model_text.specs.Reading.{amount_cut, appended, multiple, after_whole, after_part, step, occurs, next, whole_amount, part_amount, amount_done};

use ge_limits::AMOUNTS;
use ge_model_text::{Form, Progress};

/// How many letters `INFINITY` has.
const LETTERS: u8 = 8;

fn digit(b: u8) -> bool
    ensures { result ≡ is_digit b }
{
    b >= b'0' && b <= b'9'
}

/// A number after one more digit.
fn with_digit(n: u64, b: u8) -> u64
    requires { 48 ≤ b }
    ensures { result ≡ appended n b }
{
    n.saturating_mul(10)
        .saturating_add(u64::from(b - b'0'))
        .min(AMOUNTS)
}

/// What a letter behind a number multiplies it by.
fn times_of(b: u8) -> Option<u64>
    ensures { result ≡ factor b }
{
    match b {
        b'k' => Some(1000),
        b'K' => Some(1024),
        b'm' => Some(1_000_000),
        b'M' => Some(1_048_576),
        b'g' => Some(1_000_000_000),
        b'G' => Some(1_073_741_824),
        _ => None,
    }
}

/// How many millionths a digit behind the point counts, by how many digits stand before it there.
fn unit(place: u8) -> u64
    requires { place < 6 }
    ensures { result ≡ unit_at place }
{
    match place {
        0 => 100_000,
        1 => 10_000,
        2 => 1_000,
        3 => 100,
        4 => 10,
        _ => 1,
    }
}

/// A number in millionths.
fn in_millionths(whole: u64, millionths: u64) -> u128
    ensures { result ≡ 1000000 * whole + millionths }
{
    u128::from(whole) * 1_000_000 + u128::from(millionths)
}

/// An amount, cut at the first that is too large.
fn cut_amount(n: u128) -> u64
    ensures { result ≡ amount_cut n }
{
    n.min(u128::from(AMOUNTS)) as u64
}

/// What is read after a number with its letter.
fn with_letter(whole: u64, millionths: u64, b: u8) -> Option<Progress>
    ensures { result ≡ multiple whole millionths b }
{
    let times = times_of(b)?;
    let scaled = in_millionths(whole, millionths).saturating_mul(u128::from(times)) / 1_000_000;
    Some(Progress::Multiple(cut_amount(scaled)))
}

fn past_whole(n: u64, b: u8) -> Option<Progress>
    ensures { result ≡ after_whole n b }
{
    if digit(b) {
        Some(Progress::Whole(with_digit(n, b)))
    } else if b == b':' {
        Some(Progress::Minutes(n, 0))
    } else if b == b'.' {
        Some(Progress::Part(n, 0, 0))
    } else {
        with_letter(n, 0, b)
    }
}

fn past_part(whole: u64, millionths: u64, digits: u8, b: u8) -> Option<Progress>
    ensures { result ≡ after_part whole millionths digits b }
{
    if !digit(b) {
        return if digits == 0 {
            None
        } else {
            with_letter(whole, millionths, b)
        };
    }
    if digits >= 6 {
        return None;
    }
    let counts = u64::from(b - b'0') * unit(digits);
    Some(Progress::Part(
        whole,
        millionths.saturating_add(counts).min(AMOUNTS),
        digits + 1,
    ))
}

/// A colon, as what stands before it says.
fn past_minutes(hours: u64, minutes: u64, b: u8) -> Option<Progress>
    ensures { result ≡ step (Progress.Minutes hours minutes) b }
{
    if digit(b) {
        Some(Progress::Minutes(hours, with_digit(minutes, b)))
    } else if b == b':' {
        Some(Progress::Seconds(hours, minutes, 0))
    } else {
        None
    }
}

fn past_nothing(b: u8) -> Option<Progress>
    ensures { result ≡ step Progress.Start b }
{
    if digit(b) {
        Some(Progress::Whole(with_digit(0, b)))
    } else if b == b':' {
        Some(Progress::Minutes(0, 0))
    } else if b == b'I' {
        Some(Progress::Letters(1))
    } else {
        None
    }
}

/// After so many letters of `INFINITY`.
fn past_letters(count: u8, b: u8) -> Option<Progress>
    ensures { result ≡ step (Progress.Letters count) b }
{
    if count < LETTERS && b == b"INFINITY"[count as usize] {
        Some(Progress::Letters(count + 1))
    } else {
        None
    }
}

/// What is read after one more byte, in a text of some form.
fn stepped(progress: Progress, b: u8) -> Option<Progress>
    ensures { result ≡ step progress b }
{
    match progress {
        Progress::Start => past_nothing(b),
        Progress::Whole(n) => past_whole(n, b),
        Progress::Minutes(hours, minutes) => past_minutes(hours, minutes, b),
        Progress::Seconds(hours, minutes, seconds) => {
            if digit(b) {
                Some(Progress::Seconds(hours, minutes, with_digit(seconds, b)))
            } else {
                None
            }
        }
        Progress::Part(whole, millionths, digits) => past_part(whole, millionths, digits, b),
        Progress::Multiple(_) => None,
        Progress::Letters(count) => past_letters(count, b),
    }
}

/// Whether a form has texts that are read so far.
fn may_occur(progress: Progress, form: Form) -> bool
    ensures { result ≡ occurs progress form }
{
    match (progress, form) {
        (Progress::Start | Progress::Whole(_), _) => true,
        (Progress::Minutes(_, _) | Progress::Seconds(_, _, _), Form::Time) => true,
        (Progress::Part(_, _, _), Form::Memory | Form::Fixed) => true,
        (Progress::Multiple(_), Form::Memory) => true,
        (Progress::Letters(_), Form::Time | Form::Memory) => true,
        _ => false,
    }
}

/// What is read after one more byte, in a text of the form: none where no text of it has the byte there.
pub(crate) fn advanced(form: Form, progress: Progress, b: u8) -> Option<Progress>
    ensures { result ≡ next form progress b }
{
    let after = stepped(progress, b)?;
    if may_occur(after, form) {
        Some(after)
    } else {
        None
    }
}

fn amount_of_whole(form: Form, n: u64) -> u64
    ensures { result ≡ whole_amount form n }
{
    match form {
        Form::Fixed => cut_amount(in_millionths(n, 0)),
        _ => n,
    }
}

fn amount_of_part(form: Form, whole: u64, millionths: u64) -> u64
    ensures { result ≡ part_amount form whole millionths }
{
    match form {
        Form::Fixed => cut_amount(in_millionths(whole, millionths)),
        Form::Memory => cut_amount(in_millionths(whole, millionths) / 1_000_000),
        Form::Int | Form::Time => whole,
    }
}

fn amount_of_clock(hours: u64, minutes: u64, seconds: u64) -> u64
    ensures { result ≡ amount_cut (3600 * hours + 60 * minutes + seconds) }
{
    cut_amount(u128::from(hours) * 3600 + u128::from(minutes) * 60 + u128::from(seconds))
}

/// The amount of what was read, where it is a whole text of the form.
pub(crate) fn finished(form: Form, progress: Progress) -> Option<u64>
    ensures { result ≡ amount_done form progress }
{
    match progress {
        Progress::Start | Progress::Minutes(_, _) => None,
        Progress::Whole(n) => Some(amount_of_whole(form, n)),
        Progress::Seconds(hours, minutes, seconds) => {
            Some(amount_of_clock(hours, minutes, seconds))
        }
        Progress::Part(whole, millionths, digits) => {
            if digits == 0 {
                None
            } else {
                Some(amount_of_part(form, whole, millionths))
            }
        }
        Progress::Multiple(n) => Some(n),
        Progress::Letters(count) => {
            if count == LETTERS {
                Some(AMOUNTS - 1)
            } else {
                None
            }
        }
    }
}
