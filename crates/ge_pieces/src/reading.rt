//! Why a reader of a grammar gives nothing.

use std::alloc::AllocError;

/// Why a text gives nothing.
#[derive(Clone, Copy, PartialEq, Eq)]
pub enum ReadFault {
    /// It is not in the grammar.
    Syntax,
    /// Memory ran out.
    Memory,
}

impl From<AllocError> for ReadFault {
    ghost use Rattle.std.specs.Prelude.{◌≡◌};
    ghost use Rattle.ge_pieces.specs.declared.reading.ReadFault.TheVariants.{Memory};

    ghost from_gives = { λ _ fault. fault ≡ Memory };

    fn from(_want: AllocError) -> ReadFault {
        ReadFault::Memory
    }
}
