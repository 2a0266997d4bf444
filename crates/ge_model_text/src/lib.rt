//! What texts mean: the words of a line, what a pattern stands for, and which texts are whole numbers,
//! times, sizes of memory and decimal fractions (sge_types, complex, queue_conf).
//!
//! This crate has the definitions, in `specs/`, and the few types that they share with the code of
//! `ge_text`. It has no code, so a change of a body above it leaves it as it is.
//!
//! - `Words`: the words of a line, as a list of spans, or the place of a quote that isn't closed.
//! - `Line`: the same by cases, apart from how they are found.
//! - `Pattern`: the parts of a pattern, and the names that they stand for.
//! - `Value`: the grammar of each form of amount and what each of its texts is worth.
//! - `Reading`: the machine that reads an amount byte by byte and knows the first byte that is wrong.
//! - `Rows`: worked rows, each by computation.
#![tactic(auto)]

/// Where a word stands in its line: from the byte at `from` to the byte before `to`, counted from 0.
/// The span of a quoted word leaves out its quotes.
#[derive(Clone, Copy, PartialEq, Eq)]
pub struct Span {
    /// The place of its first byte.
    pub from: u32,
    /// The place after its last byte.
    pub to: u32,
}

/// The form that a text is to have to be worth an amount (sge_types, complex).
#[derive(Clone, Copy, PartialEq, Eq)]
pub enum Form {
    /// Digits.
    Int,
    /// Seconds, or `hours:minutes:seconds`.
    Time,
    /// Bytes, with a fraction and a multiplier.
    Memory,
    /// A decimal fraction, in millionths.
    Fixed,
}

/// Why a text is worth no amount.
#[derive(Clone, Copy, PartialEq, Eq)]
pub enum ValueFault {
    /// There is no text.
    Empty,
    /// The text isn't of the form. It holds the place, from 0, of the first byte after the longest
    /// front that begins a text of the form: the text's length where the text only breaks off.
    Digit(u32),
    /// The amount isn't below 2^48.
    TooLarge,
}

/// What was read so far of the text of an amount. Each number is cut at 2^48.
#[derive(Clone, Copy, PartialEq, Eq)]
pub enum Progress {
    /// Nothing.
    Start,
    /// Digits, and what they count.
    Whole(u64),
    /// Hours, a colon and the minutes so far.
    Minutes(u64, u64),
    /// Hours, minutes, two colons and the seconds so far.
    Seconds(u64, u64, u64),
    /// A whole number, a point, and the millionths and the number of the digits so far.
    Part(u64, u64, u8),
    /// A number with its multiplier: the amount.
    Multiple(u64),
    /// So many letters of `INFINITY`.
    Letters(u8),
}
