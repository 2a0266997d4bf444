// Why a run that only writes ends early.
ghost use Rattle.std.specs.Prelude.{◌≡◌};

use ge_outside::Failed;
use std::alloc::AllocError;

/// Why not all was written.
#[derive(Clone, Copy, PartialEq, Eq)]
pub(crate) enum WriteFault {
    /// A write failed.
    Write,
    /// Memory ran out.
    Memory,
}

impl From<AllocError> for WriteFault {
    ghost use Rattle.ge_top.specs.declared.writing.WriteFault.TheVariants.{Memory};

    ghost from_gives = { λ _ fault. fault ≡ Memory };

    fn from(_want: AllocError) -> WriteFault {
        WriteFault::Memory
    }
}

impl From<Failed> for WriteFault {
    ghost use Rattle.ge_top.specs.declared.writing.WriteFault.TheVariants.{Write};

    ghost from_gives = { λ _ fault. fault ≡ Write };

    fn from(_failed: Failed) -> WriteFault {
        WriteFault::Write
    }
}
