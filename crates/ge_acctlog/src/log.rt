// The log: records of accounting lines on one disk.
ghost use Rattle.std.specs.Prelude.{◌≡◌, ◌^◌, ◌≤◌, []};

use ge_rows::{Line, List};
use std::alloc::Global;

/// The record that was read last, with its lines, so that a walk reads each record once.
#[derive(Drop)]
pub(crate) struct Reached {
    // how many lines stand before it
    pub(crate) first: u64,
    // where the next record begins
    pub(crate) next: u64,
    pub(crate) lines: List<Line>,
}

impl Reached {
    /// Before the first record.
    pub(crate) fn start(alloc: Global) -> Reached
        ensures { result ≡ record { first = 0; next = 0; lines = [] } }
    {
        Reached {
            first: 0,
            next: 0,
            lines: List::new(alloc),
        }
    }
}

/// A log on a disk, which every call is lent. It keeps where its list of records ends, so that a record is written without reading
/// or copying what stands before it.
#[derive(Drop)]
pub struct Log {
    pub(crate) alloc: Global,
    // where the list ends
    pub(crate) end: u64,
    // how many lines the records have
    pub(crate) count: u64,
    // whether an append met a failure of the disk
    pub(crate) dead: bool,
    pub(crate) reached: Reached,
    ghost end_fits: { end ≤ 2 ^ 62 },
    ghost count_fits: { count ≤ end },
    ghost next_within: { reached.next ≤ end },
    ghost first_within: { reached.first ≤ count },
}

impl Log {
    ghost use Rattle.ge_acctlog.specs.Logs.{count_of};

    /// How many lines the log has.
    pub fn count(&self) -> u64
        ensures { result ≡ count_of self.now }
    {
        self.count
    }
}
