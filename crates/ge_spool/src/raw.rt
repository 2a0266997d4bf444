// What a journal holds when it is opened.
ghost use Rattle.std.specs.Prelude.{◌≡◌, []};

use crate::WRITTEN_FORMAT;
use ge_collections::{List, Text};
use std::alloc::Global;

/// What was read when a journal was opened: the format and the generation, the number of the area that
/// counts, the bytes of its snapshot, and those of each record, in order.
#[derive(Drop)]
pub struct Raw {
    pub format: u8,
    pub generation: u64,
    pub area: u8,
    pub snapshot: Text,
    pub records: List<Text>,
}

impl Raw {
    // What a journal holds in which nothing was written yet.
    pub(crate) fn first(alloc: Global) -> Raw
        ensures format { result.format ≡ 2 }
        ensures generation { result.generation ≡ 1 }
        ensures area { result.area ≡ 0 }
        ensures snapshot { result.snapshot ≡ [] }
        ensures records { result.records ≡ [] }
    {
        Raw {
            format: WRITTEN_FORMAT,
            generation: 1,
            area: 0,
            snapshot: Text::new(alloc),
            records: List::new(alloc),
        }
    }
}
