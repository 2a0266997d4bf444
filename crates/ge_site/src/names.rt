//! Different texts, in the order in which they came.

ghost use Rattle.std.specs.Prelude.{◌≡◌, [], OnOk, IfOk};
ghost use Rattle.ge_model_rows.specs.Pieces.{is_one_of, with_text};

use ge_rows::{List, Text};
use indexmap::IndexSet;
use std::alloc::{AllocError, Global};
use std::marker::Model;

/// Texts that are lent, each once, in the order in which they came. Contracts see the list of the texts.
#[derive(Drop)]
pub(crate) struct Names<'a> {
    texts: IndexSet<&'a [u8]>,
}

impl<'a> Model for Names<'a> {
    ghost use Rattle.std.specs.Prelude.{List, ℕ, map};

    ghost Value = { List (List ℕ) };

    ghost view = { λ n. map (λ text. text.now) n.texts.keys };
}

impl<'a> Names<'a> {
    pub(crate) fn new(alloc: Global) -> Names<'a>
        ensures { result ≡ [] }
    {
        Names {
            texts: IndexSet::new(alloc),
        }
    }

    pub(crate) fn has(&self, text: &[u8]) -> bool
        ensures { result ≡ is_one_of text.now self.now }
    {
        self.texts.contains(text)
    }

    /// Puts a text at the end, unless it is there.
    pub(crate) fn add(&mut self, text: &'a [u8]) -> Result<(), AllocError>
        ensures { OnOk result (self.new ≡ with_text self.old text.now) }
    {
        self.texts.insert(text)?;
        Ok(())
    }

    /// The texts, copied.
    pub(crate) fn copied(&self, alloc: Global) -> Result<List<Text>, AllocError>
        ensures { IfOk result (λ texts. texts ≡ self.now) }
    {
        let mut copies = List::new(alloc);
        for text in self.texts.as_slice() {
            copies.push(Text::from_bytes(alloc, text)?)?;
        }
        Ok(copies)
    }
}
