// Why a call of the log fails.
use std::alloc::AllocError;

/// Why a log was not opened, or a line not read.
#[derive(Drop)]
pub enum LogFault {
    /// The disk failed.
    Disk,
    /// The length at this place is 0, or passes the end.
    Frame(u64),
    /// The body that begins at this place isn't whole lines.
    Bad(u64),
    /// There is no memory.
    Memory,
}

impl From<AllocError> for LogFault {
    ghost use Rattle.std.specs.Prelude.{◌≡◌};
    ghost use Rattle.ge_acctlog.specs.declared.faults.LogFault.TheVariants.{Memory};

    ghost from_gives = { λ _ fault. fault ≡ Memory };

    fn from(_: AllocError) -> Self {
        LogFault::Memory
    }
}

/// Why lines were not appended.
#[derive(Drop)]
pub enum LogStop {
    /// The disk failed. From then on the log answers `Dead`, and is opened again.
    Disk,
    /// The log would end there, past 2^30. Nothing has changed.
    Full(u64),
    /// An earlier call met a failure of the disk.
    Dead,
    /// There is no memory. Nothing has changed.
    Memory,
}

impl From<AllocError> for LogStop {
    ghost use Rattle.std.specs.Prelude.{◌≡◌};
    ghost use Rattle.ge_acctlog.specs.declared.faults.LogStop.TheVariants.{Memory};

    ghost from_gives = { λ _ stop. stop ≡ Memory };

    fn from(_: AllocError) -> Self {
        LogStop::Memory
    }
}
