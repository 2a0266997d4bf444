// The statuses that serving ends with.
ghost use Rattle.std.specs.Prelude.{◌≡◌};
ghost use Rattle.ge_serve.specs.Serves.{status_of_stop, status_of_fault};

use ge_master::Stop;

/// All was done.
pub(crate) const DONE: u8 = 0;

/// An area has no room for what was changed.
const FULL: u8 = 5;

/// An area failed.
const DISK_FAULT: u8 = 8;

/// The door failed.
const DOOR_FAULT: u8 = 9;

/// There is no memory.
const NO_MEMORY: u8 = 10;

/// Why not all connections were served.
#[derive(Drop)]
pub(crate) enum ServeFault {
    /// The master stopped.
    Stopped(Stop),
    /// A call of the door failed.
    Door,
    /// Memory ran out.
    Memory,
}

fn status_where_stopped(stop: &Stop) -> u8
    ensures { result ≡ status_of_stop stop.now }
{
    match stop {
        Stop::Disk => DISK_FAULT,
        Stop::Full(_) => FULL,
        Stop::Spent => NO_MEMORY,
        Stop::Dead => NO_MEMORY,
    }
}

/// The status where not all connections were served.
pub(crate) fn status_of(fault: &ServeFault) -> u8
    ensures { result ≡ status_of_fault fault.now }
{
    match fault {
        ServeFault::Stopped(stop) => status_where_stopped(stop),
        ServeFault::Door => DOOR_FAULT,
        ServeFault::Memory => NO_MEMORY,
    }
}
