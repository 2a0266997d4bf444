// Requests are read.
ghost use Rattle.std.specs.Prelude.{◌≡◌, ◌<◌, ◌≤◌, ◌+◌, length, IfOk, OnErr};
ghost use Rattle.ge_limits.specs.Limits.{text_bytes};
ghost use Rattle.ge_model_wire.specs.Frames.{link_bytes, is_no_size};
ghost use Rattle.ge_outside.specs.Faults.{Rose};
ghost use Rattle.ge_wire.specs.Answers.{OnlyReads, OnFrame, frame_len, Reads, ReadsExactly};

use crate::WireFault;
use crate::filling::{fill, zeros};
use ge_limits::TEXT_BYTES;
use ge_outside::Source;
use ge_rows::Text;
use std::alloc::Global;

/// A connection has fewer bytes than this.
pub(crate) const LINK_BYTES: u64 = 1 << 40;

fn is_no_length(size: usize) -> bool
    ensures { result ≡ is_no_size size }
{
    size == 0 || size > TEXT_BYTES
}

// The next frame's payload, at a place.
fn next_frame<S: Source>(alloc: Global, s: &mut S, at: u64) -> Result<Option<Text>, WireFault>
    requires { at ≤ link_bytes }
    ensures reads { Reads (S.rest s.old) (S.rest s.new) at result }
    ensures below { IfOk result (λ frame. at + frame_len frame < link_bytes) }
    ensures some { OnFrame result (λ payload. 0 < length payload) }
    ensures fits { OnFrame result (λ payload. length payload ≤ text_bytes) }
    ensures later { S.read_faults s.old ≤ S.read_faults s.new }
    ensures write_side { S.write_side s.new ≡ S.write_side s.old }
    ensures alone { OnlyReads result at (Rose (S.read_faults s.old) (S.read_faults s.new)) }
{
    let room = (LINK_BYTES - at) as usize;
    let mut head = [0; 4];
    let count = fill(s, &mut head, room.min(4))?;
    if count == room {
        return Err(WireFault::Long);
    }
    if count == 0 {
        return Ok(None);
    }
    if count < 4 {
        return Err(WireFault::Frame(at));
    }
    let size = u32::from_be_bytes(head) as usize;
    if is_no_length(size) {
        return Err(WireFault::Frame(at));
    }
    let want = size.min(room - 4);
    let mut payload = zeros(alloc, want)?;
    let taken = fill(s, payload.as_mut_slice(), want)?;
    if taken == room - 4 {
        return Err(WireFault::Long);
    }
    if taken < size {
        return Err(WireFault::Frame(at));
    }
    Ok(Some(Text::from_vec(payload)))
}

// How many bytes a frame with this payload has.
fn frame_bytes(frame: &Option<Text>) -> u64
    requires { frame_len frame.now < link_bytes }
    ensures { result ≡ frame_len frame.now }
{
    match frame {
        Some(payload) => 4 + payload.len() as u64,
        None => 0,
    }
}

/// The next request's payload, or nothing where the input ended. `place` is raised by the frame's bytes.
///
/// `Frame` has the place where bytes stand that begin no frame: their length is 0 or above [`TEXT_BYTES`], or the input
/// ends inside. `Long` comes where the connection has 2^40 bytes. `Read` comes only where a read failed. After a refusal
/// the place is as it was.
pub fn read_frame<S: Source>(
    alloc: Global,
    s: &mut S,
    place: &mut u64,
) -> Result<Option<Text>, WireFault>
    requires { place.old ≤ link_bytes }
    ensures reads { Reads (S.rest s.old) (S.rest s.new) place.old result }
    ensures exactly { ReadsExactly (S.rest s.old) place.old result }
    ensures raised { IfOk result (λ frame. place.new ≡ place.old + frame_len frame) }
    ensures below { IfOk result (λ frame. place.new < link_bytes) }
    ensures some { OnFrame result (λ payload. 0 < length payload) }
    ensures fits { OnFrame result (λ payload. length payload ≤ text_bytes) }
    ensures stays { OnErr result (place.new ≡ place.old) }
    ensures later { S.read_faults s.old ≤ S.read_faults s.new }
    ensures write_side { S.write_side s.new ≡ S.write_side s.old }
    ensures alone { OnlyReads result place.old (Rose (S.read_faults s.old) (S.read_faults s.new)) }
{
    match next_frame(alloc, s, *place) {
        Ok(frame) => {
            *place += frame_bytes(&frame);
            Ok(frame)
        }
        Err(fault) => Err(fault),
    }
}
