//! `-q`: patterns of queue instances (qsub).

ghost use Rattle.std.specs.Prelude.{◌≡◌, IfOk, map};
ghost use Rattle.ge_model_config.specs.Requests.{queues_of};

use crate::options::items_of;
use ge_rows::{List, Text};
use std::alloc::{AllocError, Global};

fn texts_of(alloc: Global, slices: &[&[u8]]) -> Result<List<Text>, AllocError>
    ensures { IfOk result (λ texts. texts ≡ map (λ s. s.now) slices.now) }
{
    let mut texts = List::new(alloc);
    for slice in slices {
        texts.push(Text::from_bytes(alloc, slice)?)?;
    }
    Ok(texts)
}

/// The patterns of the words of `-q`, which commas part.
pub(crate) fn read_queues(alloc: Global, words: &[Text]) -> Result<List<Text>, AllocError>
    ensures { IfOk result (λ queues. queues ≡ queues_of words.now) }
{
    texts_of(alloc, &items_of(alloc, words)?)
}
