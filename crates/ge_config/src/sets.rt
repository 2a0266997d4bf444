//! Different texts and different numbers, in the order in which they came, and whether something comes twice.

ghost use Rattle.std.specs.Prelude.{◌≡◌, [], OnOk, IfOk, map, fold, not, slice_get};
ghost use Rattle.ge_model_rows.specs.Pieces.{is_empty, is_one_of, with_text, lists_number, with_one_number};
ghost use Rattle.ge_model_config.specs.Complexes.{are_distinct};
ghost use Rattle.ge_model_config.specs.Shares.{are_different};

use indexmap::IndexSet;
use std::alloc::{AllocError, Global};
use std::marker::Model;

/// Texts that are lent, each once, in the order in which they came. Contracts see the list of the texts.
#[derive(Drop)]
pub(crate) struct TextSet<'a> {
    texts: IndexSet<&'a [u8]>,
}

impl<'a> Model for TextSet<'a> {
    ghost use Rattle.std.specs.Prelude.{List, ℕ, map};

    ghost Value = { List (List ℕ) };

    ghost view = { λ n. map (λ text. text.now) n.texts.keys };
}

impl<'a> TextSet<'a> {
    pub(crate) fn new(alloc: Global) -> TextSet<'a>
        ensures { result ≡ [] }
    {
        TextSet {
            texts: IndexSet::new(alloc),
        }
    }

    pub(crate) fn is_empty(&self) -> bool
        ensures { result ≡ is_empty self.now }
    {
        self.texts.len() == 0
    }

    pub(crate) fn has(&self, text: &[u8]) -> bool
        ensures { result ≡ is_one_of text.now self.now }
    {
        self.texts.contains(text)
    }

    /// Puts a text at the end, unless it is there, and tells whether it is new.
    pub(crate) fn add(&mut self, text: &'a [u8]) -> Result<bool, AllocError>
        ensures set { OnOk result (self.new ≡ with_text self.old text.now) }
        ensures new { IfOk result (λ added. added ≡ not (is_one_of text.now self.old)) }
    {
        let added = self.texts.insert(text)?;
        Ok(added)
    }

    /// Puts each of these at the end that isn't there.
    pub(crate) fn add_all(&mut self, texts: &[&'a [u8]]) -> Result<(), AllocError>
        ensures { OnOk result (self.new ≡ fold with_text self.old (map
            (λ text. text.now) texts.now)) }
    {
        for text in texts {
            self.add(text)?;
        }
        Ok(())
    }
}

/// Numbers, each once, in the order in which they came. Contracts see the list of the numbers.
#[derive(Drop)]
pub(crate) struct IdSet {
    ids: IndexSet<u32>,
}

impl Model for IdSet {
    ghost use Rattle.std.specs.Prelude.{List, ℕ};

    ghost Value = { List ℕ };

    ghost view = { λ n. n.ids.keys };
}

impl IdSet {
    pub(crate) fn new(alloc: Global) -> IdSet
        ensures { result ≡ [] }
    {
        IdSet {
            ids: IndexSet::new(alloc),
        }
    }

    /// The numbers in their order.
    pub(crate) fn items(&self) -> &[u32]
        ensures { result.now ≡ self.now }
    {
        self.ids.as_slice()
    }

    /// The number at a place.
    pub(crate) fn get(&self, place: usize) -> Option<u32>
        ensures { result ≡ slice_get self.now place }
    {
        self.ids.get_index(place).copied()
    }

    #[tactic(auto, using(crate::proofs::Distinct::same_ids))]
    pub(crate) fn has(&self, id: u32) -> bool
        ensures { result ≡ lists_number self.now id }
    {
        self.ids.contains(&id)
    }

    /// Puts a number at the end, unless it is there, and tells whether it is new.
    #[tactic(auto, using(crate::proofs::Distinct::same_ids))]
    pub(crate) fn add(&mut self, id: u32) -> Result<bool, AllocError>
        ensures set { OnOk result (self.new ≡ with_one_number self.old id) }
        ensures new { IfOk result (λ added. added ≡ not (lists_number self.old id)) }
    {
        let added = self.ids.insert(id)?;
        Ok(added)
    }

    /// Puts each of these at the end that isn't there.
    pub(crate) fn add_all(&mut self, ids: &[u32]) -> Result<(), AllocError>
        ensures { OnOk result (self.new ≡ fold with_one_number self.old ids.now) }
    {
        for id in ids {
            self.add(*id)?;
        }
        Ok(())
    }
}

/// Whether no text comes twice.
#[tactic(auto, using(crate::proofs::Distinct::new_texts))]
pub(crate) fn are_texts_distinct(alloc: Global, texts: &[&[u8]]) -> Result<bool, AllocError>
    ensures { IfOk result (λ distinct. distinct ≡ are_distinct (map (λ text. text.now) texts.now)) }
{
    let mut seen = TextSet::new(alloc);
    for text in texts {
        if !seen.add(text)? {
            return Ok(false);
        }
    }
    Ok(true)
}

/// Whether no number comes twice.
#[tactic(auto, using(crate::proofs::Distinct::new_ids))]
pub(crate) fn are_ids_different(alloc: Global, ids: &[u32]) -> Result<bool, AllocError>
    ensures { IfOk result (λ different. different ≡ are_different ids.now) }
{
    let mut seen = IdSet::new(alloc);
    for id in ids {
        if !seen.add(*id)? {
            return Ok(false);
        }
    }
    Ok(true)
}
