//! The command that a text is.

use crate::rendering::rendered;
use ge_base::Refusal;
use ge_commands::parse;
use ge_rows::Text;
use std::alloc::{AllocError, Global};

// A text's command, or what refuses it.
fn command(alloc: Global, text: &[u8]) -> Result<Text, AllocError> {
    match parse(alloc, &Text::from_bytes(alloc, text)?) {
        Ok(command) => rendered(alloc, &command),
        Err(Refusal::Syntax) => Text::from_bytes(alloc, b"syntax"),
        Err(Refusal::TooLong) => Text::from_bytes(alloc, b"too long"),
        Err(_) => Text::from_bytes(alloc, b"refused"),
    }
}

/// A text's command as one line, as an independent reading of the grammar makes it.
pub(crate) fn line(alloc: Global, text: &[u8]) -> Result<Vec<u8>, AllocError> {
    let mut line = Vec::from_slice(alloc, command(alloc, text)?.bytes())?;
    line.push(b'\n')?;
    Ok(line)
}
