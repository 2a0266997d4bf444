//! Areas in memory: how a page gives them, and how they are told.

use ge_pieces::{before, behind};
use std::alloc::{AllocError, Global};

/// The bytes that the run before left in both areas.
#[derive(Drop)]
pub(crate) struct Areas {
    pub(crate) a: Vec<u8>,
    pub(crate) b: Vec<u8>,
}

impl Areas {
    /// Two empty areas.
    pub(crate) fn new(alloc: Global) -> Areas {
        Areas {
            a: Vec::new(alloc),
            b: Vec::new(alloc),
        }
    }
}

/// What most pages over areas begin with, each on a line: the words of a run, and both areas.
#[derive(Clone, Copy)]
pub(crate) struct Given<'a> {
    pub(crate) words: &'a [u8],
    pub(crate) a: &'a [u8],
    pub(crate) b: &'a [u8],
    pub(crate) rest: &'a [u8],
}

impl<'a> Given<'a> {
    /// The first three lines of a page, and what stands behind them.
    pub(crate) fn new(body: &'a [u8]) -> Given<'a> {
        let (words, rest) = (before(b'\n', body), behind(b'\n', body));
        let (a, rest) = (before(b'\n', rest), behind(b'\n', rest));
        let (b, rest) = (before(b'\n', rest), behind(b'\n', rest));
        Given { words, a, b, rest }
    }
}

/// A line of a word and the bytes of an area.
pub(crate) fn push_area(
    alloc: Global,
    text: &mut Vec<u8>,
    word: &[u8],
    area: &[u8],
) -> Result<(), AllocError> {
    text.extend_from_slice(word)?;
    text.extend_from_slice(hex::encode(alloc, area)?.as_bytes())?;
    text.extend_from_slice(b"\n")
}
