// Why a call of the journal fails.
use std::alloc::AllocError;
use thiserror::Error;

/// Why a record or a snapshot was not written.
#[derive(Debug, Drop, Error)]
pub enum AppendFault {
    /// A disk failed. From then on the journal answers `Dead`, and is opened again.
    #[error("a disk failed")]
    Disk,
    /// The area would end there, past 2^30. Nothing has changed.
    #[error("the area would end at {0}")]
    Full(u64),
    /// An earlier call met a failure of a disk.
    #[error("an earlier call met a failure of a disk")]
    Dead,
}

/// Why a journal was not opened.
#[derive(Debug, Drop, Error)]
pub enum OpenFault {
    /// A disk failed.
    #[error("a disk failed")]
    Disk,
    /// The frame of this area, 0 or 1, is wrong at this place.
    #[error("area {0} is wrong at {1}")]
    Frame(u8, u64),
    /// A snapshot or a record, at this place of this area, is not what it should be. Opening a journal of
    /// any bodies never answers this.
    #[error("area {0} has a bad body at {1}")]
    Bad(u8, u64),
    /// There is no memory.
    #[error("out of memory")]
    Memory,
}

impl From<AllocError> for OpenFault {
    ghost use Rattle.std.specs.Prelude.{◌≡◌};
    ghost use Rattle.ge_spool.specs.declared.faults.OpenFault.TheVariants.{Memory};

    ghost from_gives = { λ _ e. e ≡ Memory };

    fn from(_: AllocError) -> Self {
        OpenFault::Memory
    }
}
