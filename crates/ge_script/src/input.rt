// A whole script, read from a source.
ghost use Rattle.std.specs.Prelude.{◌≡◌, ◌≤◌, ◌<◌, ◌+◌, ◌^◌, ℕ, [], ◌++◌, length, take, vec_len, IfOk, OnOk, IfSome, IsErrOf, IsTrue, true, false, MatchBool, ⊤};
ghost use Rattle.ge_outside.specs.Faults.{Rose};
ghost use Rattle.ge_script.specs.declared.input.ScriptFault.TheVariants.{Read, Memory};
ghost use Rattle.ge_limits.specs.Limits.{script_bytes};
ghost use Rattle.ge_model_grammar.specs.Sources.{Moved, IsReadToEnd};

use ge_limits::SCRIPT_BYTES;
use ge_outside::{Failed, Source};
use std::alloc::{AllocError, Global};

/// How many bytes one read asks for.
const CHUNK: usize = 65_536;

/// Why a script could not be read to its end.
#[derive(Clone, Copy, PartialEq, Eq)]
pub enum ScriptFault {
    /// A read failed.
    Read,
    /// As many bytes as a script may have were read, and the end was not among them.
    Long,
    /// Memory ran out.
    Memory,
}

impl From<Failed> for ScriptFault {
    ghost from_gives = { λ _ fault. fault ≡ Read };

    fn from(_failed: Failed) -> ScriptFault {
        ScriptFault::Read
    }
}

impl From<AllocError> for ScriptFault {
    ghost from_gives = { λ _ fault. fault ≡ Memory };

    fn from(_want: AllocError) -> ScriptFault {
        ScriptFault::Memory
    }
}

pub(crate) fn new_chunk(alloc: Global) -> Result<Vec<u8>, AllocError>
    ensures room { IfOk result (λ chunk. 0 < vec_len chunk) }
    ensures narrow { IfOk result (λ chunk. vec_len chunk ≤ 65536) }
{
    vec![in alloc; 0u8; CHUNK]
}

// Moves what one read gives to the end of the bytes, and tells whether there was any.
pub(crate) fn read_more<S: Source>(
    input: &mut S,
    chunk: &mut [u8],
    bytes: &mut Vec<u8>,
) -> Result<bool, ScriptFault>
    requires { 0 < length chunk.old }
    ensures moved { IfOk result (λ some. Moved (S.rest input.old)
        (S.rest input.new) bytes.old.items bytes.new.items) }
    ensures kept { IfOk result (λ some. take (length bytes.old.items) bytes.new.items
        ≡ bytes.old.items) }
    ensures more { IfOk result (λ some. MatchBool some (vec_len bytes.old
        < vec_len bytes.new) (vec_len bytes.new ≡ vec_len bytes.old)) }
    ensures few { IfOk result (λ some. vec_len bytes.new ≤ vec_len bytes.old + length chunk.old) }
    ensures ended { IfOk result (λ some. MatchBool some ⊤ (IsReadToEnd (S.rest input.new))) }
    ensures later { S.read_faults input.old ≤ S.read_faults input.new }
    ensures fault { IsErrOf result ScriptFault.Read
        → Rose (S.read_faults input.old) (S.read_faults input.new) }
    ensures long { IsErrOf result ScriptFault.Long → ⊥ }
{
    let count = input.read(chunk)?;
    let (taken, _) = chunk.split_at(count);
    bytes.extend_from_slice(taken)?;
    Ok(count > 0)
}

/// All the bytes of a script. `Read` comes only where a read failed, and `Long` only where [`SCRIPT_BYTES`] bytes were
/// read and the end was not.
pub fn read_script<S: Source>(alloc: Global, input: &mut S) -> Result<Vec<u8>, ScriptFault>
    ensures whole { IfOk result (λ bytes. IfSome (S.rest input.old) (λ script. bytes.items
        ≡ script)) }
    ensures below { IfOk result (λ bytes. vec_len bytes < script_bytes) }
    ensures ended { OnOk result (IsReadToEnd (S.rest input.new)) }
    ensures long { IsErrOf result ScriptFault.Long
        → IfSome (S.rest input.old) (λ script. script_bytes ≤ length script) }
    ensures later { S.read_faults input.old ≤ S.read_faults input.new }
    ensures fault { IsErrOf result ScriptFault.Read
        → Rose (S.read_faults input.old) (S.read_faults input.new) }
{
    let mut bytes = Vec::new(alloc);
    let mut chunk = new_chunk(alloc)?;
    'reading: while bytes.len() < SCRIPT_BYTES {
        if !read_more(input, chunk.as_mut_slice(), &mut bytes)? {
            return Ok(bytes);
        }
    }
    Err(ScriptFault::Long)
}
