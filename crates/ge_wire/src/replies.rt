// Replies are read.
ghost use Rattle.std.specs.Prelude.{◌≡◌, ◌≤◌};
ghost use Rattle.ge_outside.specs.Faults.{Rose};
ghost use Rattle.ge_wire.specs.Answers.{OnlyReads, ReadsReply, ReadsReplyExactly};

use crate::WireFault;
use crate::filling::{fill, read_up_to};
use crate::reading::LINK_BYTES;
use ge_outside::Source;
use ge_rows::Text;
use std::alloc::Global;

// The text of the next reply.
fn next_reply<S: Source>(alloc: Global, s: &mut S) -> Result<Text, WireFault>
    ensures reads { ReadsReply (S.rest s.old) (S.rest s.new) result }
    ensures later { S.read_faults s.old ≤ S.read_faults s.new }
    ensures write_side { S.write_side s.new ≡ S.write_side s.old }
    ensures alone { OnlyReads result 0 (Rose (S.read_faults s.old) (S.read_faults s.new)) }
{
    let mut head = [0; 8];
    let count = fill(s, &mut head, 8)?;
    if count < 8 {
        return Err(WireFault::Frame(0));
    }
    let size = u64::from_be_bytes(head) as usize;
    let room = LINK_BYTES as usize - 8;
    let mut text = Vec::new(alloc);
    read_up_to(alloc, s, &mut text, size.min(room))?;
    if text.len() == room {
        return Err(WireFault::Long);
    }
    if text.len() < size {
        return Err(WireFault::Frame(0));
    }
    Ok(Text::from_vec(text))
}

/// The text of the next reply.
///
/// `Frame(0)` comes where the input ends before the reply is whole, `Long` where 2^40 bytes were taken, and `Read` only
/// where a read failed.
pub fn read_reply<S: Source>(alloc: Global, s: &mut S) -> Result<Text, WireFault>
    ensures reads { ReadsReply (S.rest s.old) (S.rest s.new) result }
    ensures exactly { ReadsReplyExactly (S.rest s.old) result }
    ensures later { S.read_faults s.old ≤ S.read_faults s.new }
    ensures write_side { S.write_side s.new ≡ S.write_side s.old }
    ensures alone { OnlyReads result 0 (Rose (S.read_faults s.old) (S.read_faults s.new)) }
{
    match next_reply(alloc, s) {
        Ok(text) => Ok(text),
        Err(fault) => Err(fault),
    }
}
