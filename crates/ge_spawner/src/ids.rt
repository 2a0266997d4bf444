// The number of a program.
ghost use Rattle.std.specs.Prelude.{IfSome};
ghost use Rattle.ge_spawner.specs.Spawning.{IsNamed};

use ge_collections::{List, Text};
use itoa::Buffer;

/// The number that the first word writes in decimal; None where it writes none, or one with a sign or a leading zero.
pub fn read_id(words: &List<Text>) -> Option<u64>
    ensures { IfSome result (IsNamed words.now) }
{
    let [word, ..] = words.items() else {
        return None;
    };
    let text = str::from_utf8(word.bytes()).ok()?;
    let id: u64 = text.parse().ok()?;
    if Buffer::new().format(id).as_bytes() == word.bytes() {
        Some(id)
    } else {
        None
    }
}
