// The statuses that a run ends with.
ghost use Rattle.ge_top.specs.Ends.{StopsAs, OpensNoneAs};

use ge_serve::Stop;
use ge_spool::OpenFault;

/// All was done.
pub(crate) const DONE: u8 = 0;

/// A faulty command line.
pub(crate) const USAGE: u8 = 2;

/// The script's end did not come within as many bytes as a script may have.
pub(crate) const LONG: u8 = 3;

/// The areas stand for nothing.
pub(crate) const NO_SPOOL: u8 = 4;

/// An area has no room for what was changed.
pub(crate) const FULL: u8 = 5;

/// A read of the input failed.
pub(crate) const READ_FAULT: u8 = 6;

/// A write of the output failed.
pub(crate) const WRITE_FAULT: u8 = 7;

/// An area failed.
pub(crate) const DISK_FAULT: u8 = 8;

/// The standard streams could not be held.
pub(crate) const NO_STREAMS: u8 = 8;

/// There is no memory.
pub(crate) const NO_MEMORY: u8 = 10;

/// The status where the master stopped.
pub(crate) fn status_of_stop(stop: &Stop) -> u8
    ensures { StopsAs stop.now result }
{
    match stop {
        Stop::Disk => DISK_FAULT,
        Stop::Full(_) => FULL,
        Stop::Spent => NO_MEMORY,
        Stop::Dead => NO_MEMORY,
    }
}

/// The status where the areas could not be opened.
pub(crate) fn status_of_fault(fault: &OpenFault) -> u8
    ensures { OpensNoneAs fault.now result }
{
    match fault {
        OpenFault::Disk => DISK_FAULT,
        OpenFault::Frame(_, _) => NO_SPOOL,
        OpenFault::Bad(_, _) => NO_SPOOL,
        OpenFault::Memory => NO_MEMORY,
    }
}
