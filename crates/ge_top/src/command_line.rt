// The program's status, from its words on.
ghost use Rattle.std.specs.Prelude.{◌≡◌, ◌≢◌, ◌↔◌, map, string_bytes, None, IfOk, IfErr, IsErr};
ghost use Rattle.std.specs.IoError.{error_kind};
ghost use Rattle.ge_model_program.specs.Words.{word_of};

use crate::statuses::{NO_MEMORY, USAGE};
use crate::top::gridmaster;
use ge_outside::{Clock, Disk, Door, Sink, Source};
use std::alloc::Global;
use std::io;
use std::io::ErrorKind;

/// The status of the program with the words that were read: that of the top call. Words that could not
/// be read are a faulty command line, status 2, unless memory was wanted, status 10; then nothing of
/// the outside is touched.
pub fn status_of<S: Source, K: Sink, D: Disk, L: Door, C: Clock>(
    alloc: Global,
    words: io::Result<Vec<String>>,
    input: &mut S,
    output: &mut K,
    a: &mut D,
    b: &mut D,
    door: &mut L,
    clock: &mut C,
) -> u8
    ensures usage { IfOk words (λ words. (result ≡ 2) ↔ (word_of (map string_bytes words.items)
        ≡ None)) }
    ensures no_memory { IfErr words (λ error. error_kind error ≡ ErrorKind.OutOfMemory → result
        ≡ 10) }
    ensures no_text { IfErr words (λ error. error_kind error ≢ ErrorKind.OutOfMemory → result ≡ 2) }
    ensures unread { IsErr words → input.new ≡ input.old }
    ensures unwritten { IsErr words → output.new ≡ output.old }
    ensures alone { IsErr words → (a.new ≡ a.old) × (b.new ≡ b.old) × (door.new ≡ door.old)
        × (clock.new ≡ clock.old) }
{
    match words {
        Ok(words) => gridmaster(alloc, &words, input, output, a, b, door, clock),
        Err(error) => unread_status(&error),
    }
}

// The status where the words could not be read.
fn unread_status(error: &io::Error) -> u8
    ensures no_memory { error_kind error.now ≡ ErrorKind.OutOfMemory → result ≡ 10 }
    ensures no_text { error_kind error.now ≢ ErrorKind.OutOfMemory → result ≡ 2 }
{
    if error.kind() == ErrorKind::OutOfMemory {
        NO_MEMORY
    } else {
        USAGE
    }
}
