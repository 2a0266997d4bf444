//! Devices in memory, as rows give and tell them.

use crate::appending::append_all;
use ge_outside::MemDoor;
use ge_pieces::{digits_worth, slices_at};
use ge_rows::Text;
use std::alloc::{AllocError, Global};

/// The number of the one call that fails.
pub fn failing(alloc: Global, call: &[u8]) -> Result<Vec<u64>, AllocError> {
    [digits_worth(call)].to_vec(alloc)
}

/// The moments that a clock shows, which commas part.
pub fn moments(alloc: Global, given: &[u8]) -> Result<Vec<u64>, AllocError> {
    let mut moments = Vec::new(alloc);
    for word in slices_at(alloc, b',', given)?.as_slice() {
        if !word.is_empty() {
            moments.push(digits_worth(word))?;
        }
    }
    Ok(moments)
}

/// What was written to the links of a door that were closed, each in brackets.
pub fn append_closed(line: &mut Text, door: &MemDoor) -> Result<(), AllocError> {
    for link in door.closed_links() {
        append_all(line, &[b"[", link.written(), b"]"])?;
    }
    Ok(())
}
