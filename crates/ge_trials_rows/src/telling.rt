//! Pages of rows.

use crate::rows::push_answer;
use ge_pieces::{behind_word, first_word, slices_at};
use ge_rows::Text;
use std::alloc::{AllocError, Global};

/// What answers the rows of a page.
pub trait Rows {
    /// What a row of this name answers to what it is given.
    fn answer(&self, alloc: Global, name: &[u8], given: &[u8]) -> Result<Text, AllocError>;
}

/// The answer to a row whose name none has.
pub fn no_such_row(alloc: Global) -> Result<Text, AllocError> {
    Text::from_bytes(alloc, b"no such row")
}

/// A page of rows: each is told with its answer.
pub fn tell_rows<R: Rows>(alloc: Global, rows: &R, body: &[u8]) -> Result<Vec<u8>, AllocError> {
    let mut text = Vec::new(alloc);
    for row in slices_at(alloc, b'\n', body)?.as_slice() {
        let answer = rows.answer(alloc, first_word(row), behind_word(row))?;
        push_answer(alloc, &mut text, row, answer.bytes())?;
    }
    Ok(text)
}
