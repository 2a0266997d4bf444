//! `-pe`: a parallel environment and a range of slots (qsub).

ghost use Rattle.std.specs.Prelude.{◌≡◌, ℕ};
ghost use Rattle.std.specs.Option.{option_map};
ghost use Rattle.ge_model_rows.specs.Pieces.{number_of};
ghost use Rattle.ge_model_rows.specs.Ranges.{digits_number};
ghost use Rattle.ge_model_grammar.specs.Options.{number_or, open_range, slot_range_of};
ghost use Rattle.ge_model_config.specs.Cited.{has_name};
ghost use Rattle.ge_model_config.specs.Requests.{slots_cut, is_bad_range, range_read, pe_read};
ghost use Rattle.ge_pieces.specs.Gives.{Reads};
ghost use Rattle.ge_request.specs.Slots.{both_cut};

use ge_base::Refusal;
use ge_limits::SLOTS;
use ge_pieces::{before, behind, digits_worth, has, has_digits, note};
use ge_rows::{Cluster, PeRequest, Text, Twin};
use std::alloc::{AllocError, Global};

// What digits are worth, cut at the greatest number of slots that a request has room for.
fn slots_worth(digits: &[u8]) -> u32
    ensures { result ≡ slots_cut (number_of digits.now) }
{
    digits_worth(digits).min(u64::from(u32::MAX)) as u32
}

fn slots_in(text: &[u8]) -> Option<u32>
    ensures { result ≡ option_map slots_cut (digits_number text.now) }
{
    if has_digits(text) {
        Some(slots_worth(text))
    } else {
        None
    }
}

// One end of a range, or another number where none is written.
fn slots_or(other: u32, text: &[u8]) -> Option<u32>
    ensures { result ≡ option_map slots_cut (number_or other text.now) }
{
    if text.is_empty() {
        Some(other)
    } else {
        slots_in(text)
    }
}

#[tactic(auto, using(crate::proofs::Cut::zipped))]
fn range_between(low: &[u8], high: &[u8]) -> Option<(u32, u32)>
    ensures { result ≡ option_map both_cut (open_range low.now high.now) }
{
    if low.is_empty() && high.is_empty() {
        None
    } else {
        slots_or(1, low).zip(slots_or(SLOTS, high))
    }
}

// `n`, `n-m`, `-m` from 1, or `n-` to the greatest number of slots.
fn range_of(text: &[u8]) -> Option<(u32, u32)>
    ensures { result ≡ option_map both_cut (slot_range_of text.now) }
{
    if has(b'-', text) {
        range_between(before(b'-', text), behind(b'-', text))
    } else {
        range_between(text, text)
    }
}

// Whether a range of slots is empty, begins at 0 or passes the greatest number.
fn is_bad(pe: &PeRequest) -> bool
    ensures { result ≡ is_bad_range pe.now }
{
    pe.low == 0 || pe.high < pe.low || pe.high > SLOTS
}

fn read_range(
    alloc: Global,
    name: &Text,
    range: &[u8],
    faults: &mut Option<Refusal>,
) -> Result<Option<PeRequest>, AllocError>
    ensures { Reads result faults.old faults.new (range_read name.now (slot_range_of range.now)) }
{
    let Some((low, high)) = range_of(range) else {
        note(faults, true, Refusal::BadValue);
        return Ok(None);
    };
    let pe = PeRequest {
        name: name.twin(alloc)?,
        low,
        high,
    };
    note(faults, is_bad(&pe), Refusal::BadValue);
    Ok(Some(pe))
}

fn is_environment(c: &Cluster, name: &Text) -> bool
    ensures { result ≡ has_name c.now.pes name.now }
{
    c.pes.get(name).is_some()
}

/// The words of `-pe`: the name of a parallel environment, which has to be there, and a range of slots.
pub(crate) fn read_pe(
    alloc: Global,
    c: &Cluster,
    words: &[Text],
    faults: &mut Option<Refusal>,
) -> Result<Option<PeRequest>, AllocError>
    ensures { Reads result faults.old faults.new (pe_read c.now words.now) }
{
    match words {
        [name, range, ..] => {
            note(faults, !is_environment(c, name), Refusal::NoSuchObject);
            read_range(alloc, name, range.bytes(), faults)
        }
        _ => Ok(None),
    }
}
