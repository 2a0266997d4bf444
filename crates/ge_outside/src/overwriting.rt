// Writing over bytes.
ghost use Rattle.std.specs.Prelude.{◌≡◌, ◌+◌, ◌≤◌, length, vec_len, OnOk, OnErr};
ghost use Rattle.ge_model_journal.specs.Disk.{overwritten};

use std::alloc::AllocError;

// Writes over what stands at `at`.
fn put(bytes: &mut [u8], at: usize, piece: &[u8])
    requires { at + length piece.now ≤ length bytes.old }
    ensures { bytes.new ≡ overwritten bytes.old at piece.now }
{
    bytes[at..at + piece.len()].copy_from_slice(piece);
}

/// Writes over what stands at `at`, and past the end; at the end, where `at` lies past it.
pub fn overwrite(bytes: &mut Vec<u8>, at: usize, piece: &[u8]) -> Result<(), AllocError>
    ensures ok { OnOk result (bytes.new.items ≡ overwritten bytes.old.items at piece.now) }
    ensures err { OnErr result (bytes.new.items ≡ bytes.old.items) }
{
    let at = at.min(bytes.len());
    let inside = piece.len().min(bytes.len() - at);
    let (over, beyond) = piece.split_at(inside);
    bytes.extend_from_slice(beyond)?;
    put(bytes.as_mut_slice(), at, over);
    Ok(())
}
