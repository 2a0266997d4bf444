// Why bytes were not kept.
use std::alloc::AllocError;

/// Why bytes were not kept.
#[derive(Drop)]
pub enum KeepFault {
    /// A disk failed.
    Disk,
    /// What was to be written would end there in its area, past 2^30.
    Full(u64),
    /// There was no memory.
    Memory,
    /// An earlier call met a failure of a disk.
    Dead,
}

impl From<AllocError> for KeepFault {
    ghost use Rattle.std.specs.Prelude.{◌≡◌};
    ghost use Rattle.ge_keeping.specs.declared.faults.KeepFault.TheVariants.{Memory};

    ghost from_gives = { λ _ fault. fault ≡ Memory };

    fn from(_: AllocError) -> Self {
        KeepFault::Memory
    }
}
