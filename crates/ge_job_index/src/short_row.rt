// Short rows.
use std::collections::BTreeMap;

/// What an index keeps of a row for walks over all rows: its facts, and private numbers in place of its labels. Numbers are
/// equal exactly where labels are, whichever of the three they stand for, and mean nothing outside of the index.
#[derive(Clone, Copy, PartialEq, Eq)]
pub struct ShortRow<F> {
    /// The number of the row's first label.
    pub first: u32,
    /// That of its second label.
    pub second: u32,
    /// That of its third label.
    pub third: u32,
    /// Its facts.
    pub facts: F,
}

/// The short rows of an index, lent.
#[derive(Drop)]
pub struct Shorts<'a, K: Ord, F> {
    /// The short row at each key.
    pub rows: &'a BTreeMap<K, ShortRow<F>>,
    /// A number above each number of a label. It is at most eight times the number of rows at the last insertion, and some
    /// thousands more.
    pub bound: u32,
}
