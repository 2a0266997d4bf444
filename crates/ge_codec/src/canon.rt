// Writing and reading of values as canonical bytes.
ghost use Rattle.std.specs.Prelude.{◌≡◌, ◌++◌, ◌≤◌, length, IfOk, OnOk, OnErr, IsTrue};
ghost use Rattle.ge_model_codec.specs.Code.{Code};
ghost use Rattle.ge_model_codec.specs.Canonical.{IsCanonical, IsPrefixFree};
ghost use Rattle.ge_model_codec.specs.Reading.{ReadsAs};
ghost use Rattle.ge_codec.specs.Fronts.{IsFront};
ghost use Rattle.ge_codec.specs.Places.{prefix_free_from};

use ge_model_codec::TakeFault;
use ge_rows::Text;
use std::alloc::{AllocError, Global};

/// A type whose values are written to canonical bytes and read from them.
pub trait Canon: Sized {
    /// How the type's values are written and read.
    ghost code: { Code Self };

    /// Puts the value's bytes at the end; it is then known to be a value of its type, so the laws below hold for it.
    /// After want of memory the bytes that stood are the front of what stands.
    fn put(&self, out: &mut Text) -> Result<(), AllocError>
        ensures ok { OnOk result (out.new ≡ out.old ++ code.write self.now) }
        ensures fits { OnOk result (IsTrue (code.fits self.now)) }
        ensures err { OnErr result (IsFront out.old out.new) };

    /// Reads a value at a place, which is at most the length, and tells where it ends.
    fn take(alloc: Global, bytes: &[u8], at: usize) -> Result<(Self, usize), TakeFault>
        requires { at ≤ length bytes.now }
        ensures read { ReadsAs result (code.read bytes.now at) }
        ensures within { IfOk result (λ p. p.1 ≤ length bytes.now) };

    /// What was written is read again whatever follows, and what is read is written as the bytes that were read.
    ghost canonical: { IsCanonical code };

    /// No encoding is the front of another value's.
    ghost prefix_free: { IsPrefixFree code } = { prefix_free_from canonical };
}

/// A format that values of a type are read in. What an earlier format left out is completed.
pub trait Format<V> {
    /// How the format's values are written and read.
    ghost code: { Code V };

    /// Reads a value at a place, which is at most the length, and tells where it ends.
    fn take(alloc: Global, bytes: &[u8], at: usize) -> Result<(V, usize), TakeFault>
        requires { at ≤ length bytes.now }
        ensures read { ReadsAs result (code.read bytes.now at) }
        ensures within { IfOk result (λ p. p.1 ≤ length bytes.now) };
}

/// Format 2, that of all rows as they are.
pub enum Format2 {}

impl<V: Canon> Format<V> for Format2 {
    ghost code = { V.code };

    fn take(alloc: Global, bytes: &[u8], at: usize) -> Result<(V, usize), TakeFault> {
        V::take(alloc, bytes, at)
    }
}

/// Format 1, that of the rows before consumables per job and advance reservations.
pub enum Format1 {}
