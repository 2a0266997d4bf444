//! The groups that a walk leads through, and where it goes on behind each.

ghost use Rattle.std.specs.Prelude.{◌≡◌, ◌++◌, ◌∷◌, [], ℕ, List, false, map, OnOk, IfNone, IfSome};
ghost use Rattle.ge_model_rows.specs.Pieces.{is_one_of};
ghost use Rattle.ge_site.specs.Walks.{names_on};

use ge_rows::Text;
use indexmap::IndexMap;
use std::alloc::{AllocError, Global};
use std::marker::Model;

/// A place in a walk.
#[derive(Clone, Copy)]
pub(crate) struct Place<'a> {
    /// The entries of the group that are still to come.
    pub(crate) entries: &'a [Text],
    /// How many groups more the way may lead through from there.
    pub(crate) depth: usize,
}

/// The groups that a walk leads through, each once, with the place behind its name. Contracts see each group with the
/// entries and the depth there.
#[derive(Drop)]
pub(crate) struct Way<'a> {
    groups: IndexMap<&'a [u8], Place<'a>>,
}

impl<'a> Model for Way<'a> {
    ghost use Rattle.std.specs.Prelude.{List, ℕ, map};

    ghost Value = { List (List ℕ × List (List ℕ) × ℕ) };

    ghost view = { λ w. map (λ g. (g.0.now, g.1.entries.now, g.1.depth)) w.groups.entries };
}

impl<'a> Way<'a> {
    pub(crate) fn new(alloc: Global) -> Way<'a>
        ensures { result ≡ [] }
    {
        Way {
            groups: IndexMap::new(alloc),
        }
    }

    pub(crate) fn has(&self, name: &[u8]) -> bool
        ensures { result ≡ is_one_of name.now (names_on self.now) }
    {
        self.groups.contains_key(name)
    }

    /// Leads through a group that it doesn't lead through yet.
    pub(crate) fn push(&mut self, name: &'a [u8], behind: Place<'a>) -> Result<(), AllocError>
        requires { is_one_of name.now (names_on self.old) ≡ false }
        ensures { OnOk result (self.new
            ≡ self.old ++ (name.now, behind.entry.entries.now, behind.entry.depth) ∷ []) }
    {
        self.groups.insert(name, behind)?;
        Ok(())
    }

    /// Leaves the last group, and tells where the walk goes on.
    pub(crate) fn pop(&mut self) -> Option<Place<'a>>
        ensures last { IfSome result (λ behind. (name : List ℕ)
            × (self.old ≡ self.new ++ (name, behind.entries.now, behind.depth) ∷ [])) }
        ensures none { IfNone result (self.old ≡ []) }
    {
        match self.groups.pop() {
            Some((_, behind)) => Some(behind),
            None => None,
        }
    }
}
