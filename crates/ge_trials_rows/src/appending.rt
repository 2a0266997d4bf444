//! Parts put at the end of a text.

use ge_rows::Text;
use std::alloc::{AllocError, Global};

/// Adds parts, one behind the other.
pub fn append_all(text: &mut Text, parts: &[&[u8]]) -> Result<(), AllocError> {
    for part in parts {
        text.append(part)?;
    }
    Ok(())
}

/// Adds bytes in hex.
pub fn append_hex(alloc: Global, text: &mut Text, bytes: &[u8]) -> Result<(), AllocError> {
    text.append(hex::encode(alloc, bytes)?.as_bytes())
}
