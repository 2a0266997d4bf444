//! Large and hostile scripts, each from the opening cluster, told in a line.
//!
//! Each is to be answered in a time that grows with its own length. Where an independent program answers it in seconds, the
//! stored line is that program's; else it is what that program answers to a shorter script of the same kind, with the
//! numbers of the longer one.

use crate::running::simulated;
use ge_outside::PlainSource;
use ge_pieces::slices_at;
use ge_trials_rows::{checksum, made};
use std::alloc::{AllocError, Global};

// The front of the last line of an output, 80 bytes at most.
fn last_line(alloc: Global, output: &[u8]) -> Result<String, AllocError> {
    let mut line: &[u8] = &[];
    for next in slices_at(alloc, b'\n', output)?.as_slice() {
        if !next.is_empty() {
            line = next;
        }
    }
    String::from_utf8_lossy(alloc, line.get(..80).unwrap_or(line))
}

/// A page `large`, which is the lines of a script that is made. Its line is its name, the size of its script, the status, the size
/// and the checksum of what is answered, and the front of its last line.
pub(crate) fn line(alloc: Global, name: &[u8], lines: &[u8]) -> Result<Vec<u8>, AllocError> {
    let name = String::from_utf8_lossy(alloc, name)?;
    let script = made(alloc, lines)?;
    let given = script.len();
    let ran = simulated(alloc, &mut PlainSource::new(script))?;
    let status = ran.status;
    let size = ran.written.len();
    let sum = checksum(ran.written.as_slice());
    let last = last_line(alloc, ran.written.as_slice())?;
    let told = format!(in alloc;
        "{name}: {given} bytes, status {status}, {size} bytes, {sum}, {last}\n"
    )?;
    Vec::from_slice(alloc, told.as_bytes())
}
