//! Where the lines of a text end, and how long they may be.
//!
//! A script, a request and a body are texts that line feeds cut into lines. `lines_of` gives each with the line feed
//! that ends it, which the last one may lack.

ghost use Rattle.std.specs.Prelude.{◌≡◌, ◌<◌, ◌≤◌, ◌∷◌, take, drop, length};
ghost use Rattle.ge_model_grammar.specs.ScriptLines.{lines_of, bare, is_long, has_long_line, is_too_long};

use crate::cutting::{before, place_or_end};
use ge_limits::{LINE_BYTES, TEXT_BYTES};

/// How many bytes the first line takes, with its line feed.
pub fn line_len(bytes: &[u8]) -> usize
    requires { 0 < length bytes.now }
    ensures taken { 0 < result }
    ensures within { result ≤ length bytes.now }
    ensures first { lines_of bytes.now ≡ take result bytes.now ∷ lines_of (drop result bytes.now) }
{
    (place_or_end(b'\n', bytes) + 1).min(bytes.len())
}

/// The first line, with its line feed.
pub fn first_line(bytes: &[u8]) -> &[u8]
    requires { 0 < length bytes.now }
    ensures taken { 0 < length result.now }
    ensures front { result.now ≡ take (length result.now) bytes.now }
    ensures within { length result.now ≤ length bytes.now }
    ensures first { lines_of bytes.now ≡ result.now ∷ lines_of (drop (length result.now) bytes.now) }
{
    bytes.split_at(line_len(bytes)).0
}

/// The first line without its line feed, and how many bytes it takes with it, by one search.
#[tactic(auto, using(crate::proofs::FirstBare::first_lines, crate::proofs::FirstBare::first_is_bare))]
pub fn first_bare_line(bytes: &[u8]) -> (&[u8], usize)
    requires { 0 < length bytes.now }
    ensures taken { 0 < result.1 }
    ensures within { result.1 ≤ length bytes.now }
    ensures first { lines_of bytes.now ≡ take result.1 bytes.now
        ∷ lines_of (drop result.1 bytes.now) }
    ensures bare { result.0.now ≡ bare (take result.1 bytes.now) }
{
    let end = place_or_end(b'\n', bytes);
    (bytes.split_at(end).0, (end + 1).min(bytes.len()))
}

/// The line's bytes without the line feed.
pub fn bare_line(line: &[u8]) -> &[u8]
    ensures { result.now ≡ bare line.now }
{
    before(b'\n', line)
}

/// What follows the first `at` bytes.
pub fn bytes_from(bytes: &[u8], at: usize) -> &[u8]
    requires { at ≤ length bytes.now }
    ensures { result.now ≡ drop at bytes.now }
{
    bytes.split_at(at).1
}

// Whether the line has more bytes than a line may have.
fn is_long_line(line: &[u8]) -> bool
    ensures { result ≡ is_long line.now }
{
    bare_line(line).len() > LINE_BYTES
}

fn holds_long_line(text: &[u8]) -> bool
    ensures { result ≡ has_long_line (lines_of text.now) }
{
    let mut at = 0;
    while at < text.len() {
        let line = first_line(bytes_from(text, at));
        if is_long_line(line) {
            return true;
        }
        at += line.len();
    }
    false
}

/// Whether one of a text's lines has more bytes than a line may have. Most texts are shorter than a line may be, and aren't
/// looked through.
#[tactic(auto, using(crate::proofs::ShortLines::no_long_line))]
pub fn has_a_long_line(text: &[u8]) -> bool
    ensures { result ≡ has_long_line (lines_of text.now) }
{
    if text.len() <= LINE_BYTES {
        return false;
    }
    holds_long_line(text)
}

/// Whether a text, or one of its lines, has more bytes than a request may have.
pub fn is_too_long_text(text: &[u8]) -> bool
    ensures { result ≡ is_too_long text.now }
{
    text.len() > TEXT_BYTES || has_a_long_line(text)
}
