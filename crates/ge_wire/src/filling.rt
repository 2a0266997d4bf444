// As many bytes of a source as are wanted, or as many as there are.
ghost use Rattle.std.specs.Prelude.{◌≡◌, ◌<◌, ◌≤◌, ◌+◌, [], length, take, vec_len, IfOk, OnOk};
ghost use Rattle.ge_model_grammar.specs.Sources.{Moved, IsReadToEnd};
ghost use Rattle.ge_outside.specs.Faults.{Rose};
ghost use Rattle.ge_wire.specs.Answers.{OnlyTakes};

use crate::WireFault;
use ge_outside::Source;
use std::alloc::{AllocError, Global};

/// How many bytes are asked for at once where no one says how many will come.
const CHUNK: usize = 65_536;

// One read into the part of a buffer from `done` to `want`. It answers how far the buffer is filled then.
fn fill_part<S: Source>(
    s: &mut S,
    buf: &mut [u8],
    done: usize,
    want: usize,
) -> Result<usize, WireFault>
    requires some { done < want }
    requires room { want ≤ length buf.old }
    ensures moved { IfOk result (λ now. Moved (S.rest s.old) (S.rest s.new) (take done buf.old)
        (take now buf.new)) }
    ensures from { IfOk result (λ now. done ≤ now) }
    ensures bound { IfOk result (λ now. now ≤ want) }
    ensures ended { IfOk result (λ now. now ≡ done → IsReadToEnd (S.rest s.new)) }
    ensures long { length buf.new ≡ length buf.old }
    ensures later { S.read_faults s.old ≤ S.read_faults s.new }
    ensures write_side { S.write_side s.new ≡ S.write_side s.old }
    ensures alone { OnlyTakes result (Rose (S.read_faults s.old) (S.read_faults s.new)) }
{
    let (_, rest) = buf.split_at_mut(done);
    let (piece, _) = rest.split_at_mut(want - done);
    match s.read(piece) {
        Ok(count) => Ok(done + count),
        Err(_) => Err(WireFault::Read),
    }
}

/// Fills the first `want` bytes of a buffer, in as many reads as it takes, and answers how many came: fewer only where
/// the source has ended.
pub(crate) fn fill<S: Source>(s: &mut S, buf: &mut [u8], want: usize) -> Result<usize, WireFault>
    requires { want ≤ length buf.old }
    ensures moved { IfOk result (λ count. Moved (S.rest s.old) (S.rest s.new) []
        (take count buf.new)) }
    ensures bound { IfOk result (λ count. count ≤ want) }
    ensures ended { IfOk result (λ count. count < want → IsReadToEnd (S.rest s.new)) }
    ensures long { length buf.new ≡ length buf.old }
    ensures later { S.read_faults s.old ≤ S.read_faults s.new }
    ensures write_side { S.write_side s.new ≡ S.write_side s.old }
    ensures alone { OnlyTakes result (Rose (S.read_faults s.old) (S.read_faults s.new)) }
{
    let mut done = 0;
    'filling: while done < want {
        let now = fill_part(s, buf, done, want)?;
        if now == done {
            return Ok(done);
        }
        done = now;
    }
    Ok(done)
}

/// So many zeros.
pub(crate) fn zeros(alloc: Global, size: usize) -> Result<Vec<u8>, AllocError>
    ensures { IfOk result (λ bytes. vec_len bytes ≡ size) }
{
    vec![in alloc; 0u8; size]
}

/// Adds what comes from a source to the bytes, until they are `limit` or the source has ended. The bytes are asked for
/// in pieces, so a limit that is never reached costs no memory. `Read` comes only where a read failed, and else
/// `NoMemory` is the one refusal.
pub fn read_up_to<S: Source>(
    alloc: Global,
    s: &mut S,
    bytes: &mut Vec<u8>,
    limit: usize,
) -> Result<(), WireFault>
    requires { vec_len bytes.old ≤ limit }
    ensures moved { OnOk result (Moved (S.rest s.old)
        (S.rest s.new) bytes.old.items bytes.new.items) }
    ensures kept { OnOk result (take (vec_len bytes.old) bytes.new.items ≡ bytes.old.items) }
    ensures bound { OnOk result (vec_len bytes.new ≤ limit) }
    ensures ended { OnOk result (vec_len bytes.new < limit → IsReadToEnd (S.rest s.new)) }
    ensures later { S.read_faults s.old ≤ S.read_faults s.new }
    ensures write_side { S.write_side s.new ≡ S.write_side s.old }
    ensures alone { OnlyTakes result (Rose (S.read_faults s.old) (S.read_faults s.new)) }
{
    let mut chunk = zeros(alloc, (limit - bytes.len()).min(CHUNK))?;
    'taking: while bytes.len() < limit {
        let want = (limit - bytes.len()).min(chunk.len());
        let count = fill(s, chunk.as_mut_slice(), want)?;
        let (taken, _) = chunk.as_slice().split_at(count);
        bytes.extend_from_slice(taken)?;
        if count < want {
            return Ok(());
        }
    }
    Ok(())
}
