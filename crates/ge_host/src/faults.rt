// Why a call of a host was not done.

/// Why a call was not done.
#[derive(Drop)]
pub enum HostStop {
    /// A disk failed. From then on each call answers `Dead`, and the areas are opened again.
    Disk,
    /// What was to be written would end there in its area, past 2^30. From then on each call answers `Dead`.
    Full(u64),
    /// The line at this place of the master's reply is no order. Nothing has changed.
    Bad(u64),
    /// The master refused, with this code. Nothing has changed.
    Refused(u8),
    /// There was no memory. From then on each call answers `Dead`.
    Memory,
    /// An earlier call answered `Disk`, `Full` or `Memory`.
    Dead,
}
