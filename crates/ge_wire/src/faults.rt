// Why a frame isn't read or written.
use std::alloc::AllocError;
use thiserror::Error;

/// Why a frame isn't read or written.
#[derive(Clone, Copy, Debug, PartialEq, Eq, Error)]
pub enum WireFault {
    /// A read failed.
    #[error("a read failed")]
    Read,
    /// A write failed.
    #[error("a write failed")]
    Write,
    /// No frame begins at this place, though bytes stand there; of a reply, the end came before it was whole.
    #[error("no frame begins at {0}")]
    Frame(u64),
    /// As many bytes as a connection may have were read.
    #[error("the connection is too long")]
    Long,
    /// Memory ran out.
    #[error("out of memory")]
    NoMemory,
}

impl From<AllocError> for WireFault {
    ghost use Rattle.std.specs.Prelude.{◌≡◌};
    ghost use Rattle.ge_wire.specs.declared.faults.WireFault.TheVariants.{NoMemory};

    ghost from_gives = { λ _ fault. fault ≡ NoMemory };

    fn from(_: AllocError) -> Self {
        WireFault::NoMemory
    }
}
