//! The areas of a cluster, and runs over them and a log.

use ge_gridacct::gridacct;
use ge_master::Master;
use ge_outside::{MemDisk, MemSink};
use ge_trials_rows::{area, read_events, words_at};
use std::alloc::{AllocError, Global};

/// The bytes of both areas.
#[derive(Drop)]
pub(crate) struct Disks {
    a: Vec<u8>,
    b: Vec<u8>,
}

/// What a run wrote, and its status.
#[derive(Drop)]
pub(crate) struct Ran {
    pub(crate) status: u8,
    pub(crate) written: Vec<u8>,
}

impl Disks {
    /// The areas that a script leaves, which is handled as one batch from two empty ones.
    pub(crate) fn after(alloc: Global, script: &[u8]) -> Result<Disks, AllocError> {
        let mut a = area(alloc, b"", 0)?;
        let mut b = area(alloc, b"", 0)?;
        let events = read_events(alloc, script)?;
        if let Ok(mut master) = Master::open(alloc, &mut a, &mut b) {
            let _ = master.handle_batch(&mut a, &mut b, &events);
        }
        Ok(Disks {
            a: a.bytes().to_vec(alloc)?,
            b: b.bytes().to_vec(alloc)?,
        })
    }

    /// A run with the words of a line over them and a log.
    pub(crate) fn run(
        &self,
        alloc: Global,
        line: &[u8],
        log: &mut MemDisk,
    ) -> Result<Ran, AllocError> {
        let words = words_at(alloc, b' ', line)?;
        let mut output = MemSink::new(alloc, Vec::new(alloc));
        let mut a = area(alloc, self.a.as_slice(), 0)?;
        let mut b = area(alloc, self.b.as_slice(), 0)?;
        let status = gridacct(alloc, &words, &mut output, &mut a, &mut b, log);
        Ok(Ran {
            status,
            written: output.bytes().to_vec(alloc)?,
        })
    }
}
