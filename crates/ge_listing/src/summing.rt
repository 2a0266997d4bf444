//! The sums of accounting lines.

ghost use Rattle.std.specs.Prelude.{◌≡◌, ◌^◌, ◌<◌, ◌+◌, [], ◌∷◌, ◌++◌, IfOk, filter, List as Items};
ghost use Rattle.ge_base.specs.Fixed.{cut_sum};
ghost use Rattle.ge_collections.specs.Keyed.{text_eq};
ghost use Rattle.ge_model_report.specs.Accounting.{sum_line, wallclock};
ghost use Rattle.ge_model_rows.specs.AccountRows.{Line as Row};
ghost use Rattle.ge_listing.specs.Sums.{AreSums};

use crate::line_fields::wallclock_of;
use ge_base::sum_of;
use ge_printing::{decimal_text, decimals4, join_words};
use ge_rows::{Line, Text};
use std::alloc::{AllocError, Global};

/// How many lines there are, and the sums of what they report, each cut at 2^128 - 1.
#[derive(Clone, Copy)]
pub struct Sums {
    /// How many lines.
    pub count: usize,
    /// The sum of the times that tasks ran, in seconds.
    pub ran: u128,
    /// The sum of `cpu`.
    pub processor: u128,
    /// The sum of `mem`.
    pub memory: u128,
    /// The sum of `io`.
    pub moved: u128,
}

/// The sums of no lines.
pub fn no_sums() -> Sums
    ensures { AreSums result [] }
{
    Sums {
        count: 0,
        ran: 0,
        processor: 0,
        memory: 0,
        moved: 0,
    }
}

/// The sums with one more line.
pub fn with_line(sums: &Sums, line: &Line) -> Sums
    requires { sums.now.count + 1 < 2 ^ 64 }
    ensures sums { (lines : Items Row) → AreSums sums.now lines
        → AreSums result (lines ++ line.now ∷ []) }
    ensures count { result.count ≡ sums.now.count + 1 }
    ensures ran { result.ran ≡ cut_sum sums.now.ran (wallclock line.now) }
    ensures processor { result.processor ≡ cut_sum sums.now.processor line.now.cpu }
    ensures memory { result.memory ≡ cut_sum sums.now.memory line.now.mem }
    ensures moved { result.moved ≡ cut_sum sums.now.moved line.now.io }
{
    Sums {
        count: sums.count + 1,
        ran: sum_of(sums.ran, u128::from(wallclock_of(line))),
        processor: sum_of(sums.processor, u128::from(line.cpu)),
        memory: sum_of(sums.memory, u128::from(line.mem)),
        moved: sum_of(sums.moved, u128::from(line.io)),
    }
}

/// The sums of all lines.
pub(crate) fn sums_of_all(lines: &[Line]) -> Sums
    ensures { AreSums result lines.now }
{
    let mut sums = no_sums();
    for line in lines {
        sums = with_line(&sums, line);
    }
    sums
}

/// The sums of an owner's lines.
pub(crate) fn sums_of_owner(lines: &[Line], owner: &Text) -> Sums
    ensures { AreSums result (filter (λ line. text_eq line.owner owner.now) lines.now) }
{
    let mut sums = no_sums();
    for line in lines {
        if line.owner == *owner {
            sums = with_line(&sums, line);
        }
    }
    sums
}

/// A name with the number of lines and their sums.
pub fn sums_text(alloc: Global, name: &[u8], sums: &Sums) -> Result<Text, AllocError>
    ensures { (lines : Items Row) → AreSums sums.now lines → IfOk result (λ text. text
        ≡ sum_line name.now lines) }
{
    let count = decimal_text(alloc, sums.count as u128)?;
    let (ran, processor, memory, moved) = decimals4(
        alloc,
        sums.ran,
        sums.processor,
        sums.memory,
        sums.moved,
    )?;
    let words: [&[u8]; 6] = [
        name,
        count.bytes(),
        ran.bytes(),
        processor.bytes(),
        memory.bytes(),
        moved.bytes(),
    ];
    join_words(alloc, b" ", &words)
}
