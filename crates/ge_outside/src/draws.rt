// Drawing an image of a disk: what a stop might leave, chosen by a number.
ghost use Rattle.std.specs.Prelude.{◌≡◌, ◌+◌, ◌^◌, ◌<◌, ◌≤◌, ℕ, IsTrue, IfOk, length, slice_index};
ghost use Rattle.std.specs.List.{list_any};
ghost use Rattle.ge_outside.specs.Draws.{next_state, drawn, range_has, is_pending, drawn_byte, drawn_image};
ghost use Rattle.ge_outside.specs.Shown.{shown_content};

use crate::showing::Shown;
use std::alloc::{AllocError, Global};

// The state after one draw more.
fn advanced(state: u64) -> u64
    requires { state < 2 ^ 31 }
    ensures value { result ≡ next_state state }
    ensures small { result < 2 ^ 31 }
{
    (1_103_515_245 * state + 12_345) % (1 << 31)
}

// The number below `bound` that a state gives.
fn number(state: u64, bound: u64) -> u64
    requires { 0 < bound }
    ensures value { result ≡ drawn state bound }
    ensures small { result < bound }
{
    state / 65_536 % bound
}

// Whether a place lies in a range.
fn is_in_range(range: &(u64, usize), place: usize) -> bool
    ensures { result ≡ range_has range.now place }
{
    let (at, size) = *range;
    at <= place as u64 && place as u64 - at < size as u64
}

// Whether a place lies in one of some ranges.
fn is_in_one(ranges: &[(u64, usize)], place: usize) -> bool
    ensures { result ≡ list_any (λ range. range_has range place) ranges.now }
{
    ranges.iter().any(|range| is_in_range(range, place))
}

// Whether a stop may leave any byte at a place.
fn is_open(shown: &Shown, place: usize) -> bool
    ensures { result ≡ is_pending (shown_content shown.now) place }
{
    place >= shown.synced.len() || is_in_one(&shown.pending, place)
}

// The byte at a place, or 0 past the end.
fn byte_at(bytes: &Vec<u8>, place: usize) -> u8
    ensures { result ≡ slice_index bytes.now.items place }
{
    bytes.get(place).copied().unwrap_or(0)
}

// The byte at a place, and the state after it.
#[tactic(auto, unfolding(crate::specs::Draws::drawn_byte))]
fn draw_byte(shown: &Shown, state: u64, place: usize) -> (u8, u64)
    requires { state < 2 ^ 31 }
    ensures value { (result.0, result.1) ≡ drawn_byte (shown_content shown.now) state place }
    ensures small { result.1 < 2 ^ 31 }
{
    if !is_open(shown, place) {
        return (byte_at(&shown.synced, place), state);
    }
    let next = advanced(state);
    match number(next, 3) {
        0 => (byte_at(&shown.synced, place), next),
        1 => (byte_at(&shown.bytes, place), next),
        _ => {
            let last = advanced(next);
            (number(last, 256) as u8, last)
        }
    }
}

/// The bytes of an image of a disk that holds this.
#[tactic(auto, unfolding(crate::specs::Draws::drawn_image))]
pub fn draw_image(alloc: Global, shown: &Shown, pick: u64) -> Result<Vec<u8>, AllocError>
    ensures { IfOk result (λ image. image.items ≡ drawn_image (shown_content shown.now) pick) }
{
    let mut state = advanced(pick % (1 << 31));
    let least = shown.synced.len() as u64;
    let spread = (shown.longest - least).min(32_767) + 1;
    let size = least + number(state, spread);
    let mut image = Vec::new(alloc);
    for place in 0..size as usize {
        let (byte, next) = draw_byte(shown, state, place);
        image.push(byte)?;
        state = next;
    }
    Ok(image)
}
