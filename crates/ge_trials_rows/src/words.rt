//! Words of a command line.

use ge_pieces::slices_at;
use std::alloc::{AllocError, Global};

/// The words between such bytes.
pub fn words_at(alloc: Global, byte: u8, text: &[u8]) -> Result<Vec<String>, AllocError> {
    let mut words = Vec::new(alloc);
    for word in slices_at(alloc, byte, text)?.as_slice() {
        words.push(String::from_utf8_lossy(alloc, word)?)?;
    }
    Ok(words)
}
