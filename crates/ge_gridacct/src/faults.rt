// Why a run ends early, and the statuses of that.
ghost use Rattle.std.specs.Prelude.{◌≡◌};
ghost use Rattle.ge_gridacct.specs.Faults.{status_of, status_of_open};

use ge_acctlog::{LogFault, LogStop};
use ge_outside::Failed;
use ge_spool::OpenFault;
use std::alloc::AllocError;

/// All was done.
pub(crate) const DONE: u8 = 0;

/// A faulty command line.
pub(crate) const USAGE: u8 = 2;

/// Why a run over the log ends early.
#[derive(Clone, Copy)]
pub(crate) enum Fault {
    /// A disk failed.
    Disk,
    /// The log would end past the limit of an area.
    Full,
    /// The log is wrong.
    Wrong,
    /// The log's lines aren't a front of the cluster's.
    Other,
    /// A write of the output failed.
    Write,
    /// Memory ran out.
    Memory,
}

impl From<LogFault> for Fault {
    ghost use Rattle.std.specs.Prelude.{◌≡◌};
    ghost use Rattle.ge_gridacct.specs.Faults.{fault_of};

    ghost from_gives = { λ fault made. made ≡ fault_of fault };

    fn from(fault: LogFault) -> Fault {
        match fault {
            LogFault::Disk => Fault::Disk,
            LogFault::Frame(_) => Fault::Wrong,
            LogFault::Bad(_) => Fault::Wrong,
            LogFault::Memory => Fault::Memory,
        }
    }
}

impl From<LogStop> for Fault {
    ghost use Rattle.std.specs.Prelude.{◌≡◌};
    ghost use Rattle.ge_gridacct.specs.Faults.{fault_of_stop};

    ghost from_gives = { λ stop made. made ≡ fault_of_stop stop };

    fn from(stop: LogStop) -> Fault {
        match stop {
            LogStop::Disk => Fault::Disk,
            LogStop::Full(_) => Fault::Full,
            LogStop::Dead => Fault::Disk,
            LogStop::Memory => Fault::Memory,
        }
    }
}

impl From<AllocError> for Fault {
    ghost use Rattle.std.specs.Prelude.{◌≡◌};
    ghost use Rattle.ge_gridacct.specs.declared.faults.Fault.TheVariants.{Memory};

    ghost from_gives = { λ _ made. made ≡ Memory };

    fn from(_want: AllocError) -> Fault {
        Fault::Memory
    }
}

impl From<Failed> for Fault {
    ghost use Rattle.std.specs.Prelude.{◌≡◌};
    ghost use Rattle.ge_gridacct.specs.declared.faults.Fault.TheVariants.{Write};

    ghost from_gives = { λ _ made. made ≡ Write };

    fn from(_failed: Failed) -> Fault {
        Fault::Write
    }
}

/// The status of a run that ended early.
pub(crate) fn status_of(fault: Fault) -> u8
    ensures { result ≡ status_of fault }
{
    match fault {
        Fault::Disk => 8,
        Fault::Full => 5,
        Fault::Wrong => 11,
        Fault::Other => 12,
        Fault::Write => 7,
        Fault::Memory => 10,
    }
}

/// The status where the areas could not be opened.
pub(crate) fn status_of_open(fault: &OpenFault) -> u8
    ensures { result ≡ status_of_open fault.now }
{
    match fault {
        OpenFault::Disk => 8,
        OpenFault::Frame(_, _) => 4,
        OpenFault::Bad(_, _) => 4,
        OpenFault::Memory => 10,
    }
}
