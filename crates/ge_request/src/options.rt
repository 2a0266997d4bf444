//! Options and their words.

ghost use Rattle.std.specs.Prelude.{◌≡◌, ◌++◌, IfOk, OnOk, flat_map, map};
ghost use Rattle.std.specs.BTreeMap.{is_at};
ghost use Rattle.std.specs.Option.{option_copied};
ghost use Rattle.ge_collections.specs.Keyed.{text_cmp};
ghost use Rattle.ge_model_rows.specs.Pieces.{pieces_at};
ghost use Rattle.ge_model_grammar.specs.Options.{option_words};

use ge_pieces::slices_at;
use ge_rows::{List, Options, Text};
use std::alloc::{AllocError, Global};
use std::cmp::Ordering;

fn is_option(name: &[u8], key: &Text) -> bool
    ensures { result ≡ is_at (text_cmp name.now) key.now }
{
    name.cmp(key.bytes()) == Ordering::Equal
}

/// The words of an option that a command has.
pub fn words_of_option<'a>(options: &'a Options, name: &[u8]) -> Option<&'a List<Text>>
    ensures { option_copied result ≡ option_words options.now.items name.now }
{
    for (key, words) in options.items.items() {
        if is_option(name, key) {
            return Some(words);
        }
    }
    None
}

/// The items of the words of an option, which commas part.
pub(crate) fn items_of<'a>(alloc: Global, words: &'a [Text]) -> Result<Vec<&'a [u8]>, AllocError>
    ensures { IfOk result (λ items. map (λ i. i.now) items.items
        ≡ flat_map (pieces_at 44) words.now) }
{
    let mut items = Vec::new(alloc);
    for word in words {
        items.append(&mut slices_at(alloc, b',', word.bytes())?)?;
    }
    Ok(items)
}
