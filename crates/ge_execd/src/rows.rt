// What a daemon is ordered, what it is to do, and what it keeps.
use ge_rows::{List, Twin};
use std::alloc::{AllocError, Global};

/// A task that is to run.
#[derive(Clone, Copy)]
pub struct Order {
    /// The number of its dispatch.
    pub serial: u64,
    /// Its job's number.
    pub job: u32,
    /// Its own.
    pub task: u32,
    /// How many slots it has.
    pub slots: u32,
}

/// A line of orders.
#[derive(Clone, Copy)]
pub enum OrderLine {
    /// A task is to run.
    Run(Order),
    /// The task of a serial is to be killed.
    Kill(u64),
}

/// What a daemon is to do.
#[derive(Drop)]
pub struct Work {
    /// The tasks to start.
    pub starts: List<Order>,
    /// The serials of the tasks to kill.
    pub kills: List<u64>,
}

/// What a daemon keeps of a serial.
#[derive(Clone, Copy)]
pub enum Stage {
    /// Its task is to be started, or was.
    Claimed,
    /// Its task ended: exit, cpu, mem and io.
    Ended(u32, u64, u64, u64),
}

impl Twin for Stage {
    fn twin(&self, _alloc: Global) -> Result<Stage, AllocError> {
        Ok(*self)
    }
}

/// Why a reply to `orders` isn't obeyed.
#[derive(Clone, Copy)]
pub enum WorkFault {
    /// The master refused, with this code.
    Refused(u8),
    /// The line at this place, from 0 on, is no order, or its serial isn't above that of the line before it.
    Bad(u64),
    /// Memory ran out.
    NoMemory,
}

impl From<AllocError> for WorkFault {
    ghost use Rattle.std.specs.Prelude.{◌≡◌};
    ghost use Rattle.ge_execd.specs.declared.rows.WorkFault.TheVariants.{NoMemory};

    ghost from_gives = { λ _ fault. fault ≡ NoMemory };

    fn from(_: AllocError) -> Self {
        WorkFault::NoMemory
    }
}
