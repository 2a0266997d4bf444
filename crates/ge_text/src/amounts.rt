//! The readers of amounts. None of them takes memory.
//!
//! Each gives what the machine of `ge_model_text` gives (`computed`), which callers cite. The other
//! clauses say by the grammar alone what that is: an amount that the text is worth, or the place that
//! ends its longest right front (`grammar`); the answer for each text of the grammar (`worth`); and that
//! only no text at all is empty (`empty`).

ghost use Rattle.std.specs.Prelude.{◌≡◌, ◌^◌, ◌<◌, ◌↔◌, ℕ, [], length, IfErr};
ghost use Rattle.std.specs.Result.{result_ok};
ghost use Rattle.ge_model_text.specs.Value.{IsInt, IsTime, IsMemory, IsFixed};
ghost use Rattle.ge_model_text.specs.Reading.{reading, answer, bounded, Answers};
ghost use Rattle.ge_text.specs.Amounts.{from_start, whole_answer};

use crate::progress::{advanced, finished};
use ge_limits::AMOUNTS;
use ge_model_text::{Form, Progress, ValueFault};

/// The answer at the end of a text of so many bytes.
fn answered(length: u32, amount: Option<u64>) -> Result<u64, ValueFault>
    ensures { result ≡ answer length amount }
{
    match amount {
        None => Err(ValueFault::Digit(length)),
        Some(amount) => {
            if amount < AMOUNTS {
                Ok(amount)
            } else {
                Err(ValueFault::TooLarge)
            }
        }
    }
}

/// What was read of a whole text, or the place of the first byte that no text of the form has there.
fn read_whole(form: Form, text: &[u8]) -> Result<Progress, usize>
    ensures answer { from_start form text.now ≡ whole_answer form (length text.now) result }
    ensures within { IfErr result (λ place. place < length text.now) }
{
    let mut progress = Progress::Start;
    for (place, b) in text.iter().enumerate() {
        match advanced(form, progress, *b) {
            Some(after) => progress = after,
            None => return Err(place),
        }
    }
    Ok(progress)
}

/// The amount of a text of a form, or why it has none.
fn read(form: Form, text: &[u8]) -> Result<u64, ValueFault>
    requires { length text.now < 2 ^ 32 }
    ensures { result ≡ reading form text.now }
{
    if text.is_empty() {
        return Err(ValueFault::Empty);
    }
    match read_whole(form, text) {
        Ok(progress) => answered(text.len() as u32, finished(form, progress)),
        Err(place) => Err(ValueFault::Digit(place as u32)),
    }
}

/// The amount of a text of a form, however long the text is; nothing where it has none.
#[tactic(auto, using(crate::proofs::AmountLemmas::same_amount, crate::proofs::AmountLemmas::amount_from_start))]
pub fn amount(form: Form, text: &[u8]) -> Option<u64>
    ensures { result ≡ result_ok (reading form text.now) }
{
    match read_whole(form, text) {
        Ok(progress) => answered(0, finished(form, progress)).ok(),
        Err(_) => None,
    }
}

/// A whole number: digits (complex, type INT).
#[tactic(auto, using(crate::proofs::ReadingLaws::reading_answers, crate::proofs::ReadingLaws::reading_worth, crate::proofs::ReadingLaws::reading_empty))]
pub fn read_int(text: &[u8]) -> Result<u64, ValueFault>
    requires { length text.now < 2 ^ 32 }
    ensures computed { result ≡ reading Form.Int text.now }
    ensures grammar { Answers Form.Int text.now result }
    ensures worth { (amount : ℕ) → IsInt text.now amount → result ≡ bounded amount }
    ensures empty { (result ≡ Err ValueFault.Empty) ↔ (text.now ≡ []) }
{
    read(Form::Int, text)
}

/// Seconds: digits, `hours:minutes:seconds` where each group may be empty, or `INFINITY`, which is
/// 2^48 - 1 (sge_types, time_specifier; complex, type TIME).
#[tactic(auto, using(crate::proofs::ReadingLaws::reading_answers, crate::proofs::ReadingLaws::reading_worth, crate::proofs::ReadingLaws::reading_empty))]
pub fn read_time(text: &[u8]) -> Result<u64, ValueFault>
    requires { length text.now < 2 ^ 32 }
    ensures computed { result ≡ reading Form.Time text.now }
    ensures grammar { Answers Form.Time text.now result }
    ensures worth { (amount : ℕ) → IsTime text.now amount → result ≡ bounded amount }
    ensures empty { (result ≡ Err ValueFault.Empty) ↔ (text.now ≡ []) }
{
    read(Form::Time, text)
}

/// Bytes: digits, perhaps a point and one to six digits, perhaps one of `k K m M g G` (1000, 1024 and their
/// squares and cubes), rounded down at the end; or `INFINITY`, which is 2^48 - 1 (sge_types,
/// memory_specifier; complex, type MEMORY).
#[tactic(auto, using(crate::proofs::ReadingLaws::reading_answers, crate::proofs::ReadingLaws::reading_worth, crate::proofs::ReadingLaws::reading_empty))]
pub fn read_memory(text: &[u8]) -> Result<u64, ValueFault>
    requires { length text.now < 2 ^ 32 }
    ensures computed { result ≡ reading Form.Memory text.now }
    ensures grammar { Answers Form.Memory text.now result }
    ensures worth { (amount : ℕ) → IsMemory text.now amount → result ≡ bounded amount }
    ensures empty { (result ≡ Err ValueFault.Empty) ↔ (text.now ≡ []) }
{
    read(Form::Memory, text)
}

/// Millionths: digits, perhaps a point and one to six digits (complex, type DOUBLE).
#[tactic(auto, using(crate::proofs::ReadingLaws::reading_answers, crate::proofs::ReadingLaws::reading_worth, crate::proofs::ReadingLaws::reading_empty))]
pub fn read_fixed(text: &[u8]) -> Result<u64, ValueFault>
    requires { length text.now < 2 ^ 32 }
    ensures computed { result ≡ reading Form.Fixed text.now }
    ensures grammar { Answers Form.Fixed text.now result }
    ensures worth { (amount : ℕ) → IsFixed text.now amount → result ≡ bounded amount }
    ensures empty { (result ≡ Err ValueFault.Empty) ↔ (text.now ≡ []) }
{
    read(Form::Fixed, text)
}
