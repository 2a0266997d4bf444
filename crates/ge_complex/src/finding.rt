//! Complexes looked up one after the other, by name or by shortcut, without a walk over the table for each.

ghost use Rattle.std.specs.Prelude.{◌≡◌, ℕ, List, Some, cond, IfOk, OnOk};
ghost use Rattle.std.specs.BTreeMap.{is_at};
ghost use Rattle.std.specs.Map.Iter.{deref_pair};
ghost use Rattle.std.specs.Option.{option_map};
ghost use Rattle.ge_collections.specs.Keyed.{text_cmp};
ghost use Rattle.ge_model_rows.specs.Complexes.{complex_by_shortcut};
ghost use Rattle.ge_model_rows.specs.Complexes as complexes;
ghost use Rattle.ge_complex.specs.ByShortcut.{lent_at, LendsFirst};

use crate::lookups::complex_at;
use ge_rows::{Cluster, ComplexDef, Table, Text, Twin};
use std::alloc::{AllocError, Global};
use std::collections::BTreeMap;
use std::marker::Model;

/// Names and rows by shortcut, lent from a cluster's table.
type Shortcuts<'a> = BTreeMap<&'a [u8], (&'a Text, &'a ComplexDef)>;

// One more row, in the place of one with the same shortcut.
fn put_row<'a>(
    shortcuts: &mut Shortcuts<'a>,
    name: &'a Text,
    row: &'a ComplexDef,
) -> Result<(), AllocError>
    ensures { OnOk result ((word : List ℕ) → lent_at shortcuts.new.entries word
        ≡ cond (is_at (text_cmp word) row.now.shortcut) (Some (name.now, row.now))
        (lent_at shortcuts.old.entries word)) }
{
    shortcuts.insert(row.shortcut.bytes(), (name, row))?;
    Ok(())
}

// The rows are gone through from the last, so that of two with the same shortcut the first one stays.
fn shortcuts_of<'a>(
    alloc: Global,
    rows: &'a Table<Text, ComplexDef>,
) -> Result<Shortcuts<'a>, AllocError>
    ensures { IfOk result (λ shortcuts. LendsFirst shortcuts.entries rows.now) }
{
    let mut shortcuts = BTreeMap::new(alloc);
    for (name, row) in rows.iter().rev() {
        put_row(&mut shortcuts, name, row)?;
    }
    Ok(shortcuts)
}

fn row_with<'a>(shortcuts: &Shortcuts<'a>, word: &Text) -> Option<(&'a Text, &'a ComplexDef)>
    ensures { option_map deref_pair result ≡ lent_at shortcuts.now.entries word.now }
{
    shortcuts.get(word.bytes()).copied()
}

/// Finds complexes of one cluster by their names or shortcuts. Contracts see the cluster.
///
/// Its shortcuts are gathered once, where the first word comes that is no name.
#[derive(Drop)]
pub struct ComplexFinder<'a> {
    cluster: &'a Cluster,
    shortcuts: Option<Shortcuts<'a>>,
}

impl<'a> Model for ComplexFinder<'a> {
    ghost use Rattle.std.specs.Option.{ForSome};
    ghost use Rattle.ge_model_rows.specs.ClusterRows.{Cluster as ClusterRow};
    ghost use Rattle.ge_complex.specs.ByShortcut.{LendsFirst};

    ghost Value = { ClusterRow };

    ghost view = { λ f. f.cluster.now };

    ghost invariant = { λ f. ForSome f.shortcuts (λ shortcuts. LendsFirst shortcuts.entries f.cluster.now.complexes) };
}

impl<'a> ComplexFinder<'a> {
    /// A finder that has gathered nothing yet, which takes no memory.
    pub fn new(cluster: &'a Cluster) -> ComplexFinder<'a>
        ensures { result ≡ cluster.now }
    {
        ComplexFinder {
            cluster,
            shortcuts: None,
        }
    }

    // The first row that has a word as its shortcut, with its name.
    fn with_shortcut(
        &mut self,
        alloc: Global,
        word: &Text,
    ) -> Result<Option<(&'a Text, &'a ComplexDef)>, AllocError>
        ensures found { IfOk result (λ row. option_map deref_pair row
            ≡ complex_by_shortcut self.old word.now) }
        ensures same { self.new ≡ self.old }
    {
        if self.shortcuts.is_none() {
            self.shortcuts = Some(shortcuts_of(alloc, &self.cluster.complexes)?);
        }
        match &self.shortcuts {
            Some(shortcuts) => Ok(row_with(shortcuts, word)),
            None => Err(AllocError),
        }
    }

    /// The complex that a word names, by its name or else its shortcut: its name and its row (qsub, -l).
    pub fn find(
        &mut self,
        alloc: Global,
        word: Text,
    ) -> Result<Option<(Text, &'a ComplexDef)>, AllocError>
        ensures found { IfOk result (λ row. option_map (λ r. (r.0, r.1.now)) row
            ≡ complexes.complex_named self.old word) }
        ensures same { self.new ≡ self.old }
    {
        if let Some(row) = complex_at(self.cluster, &word) {
            return Ok(Some((word, row)));
        }
        match self.with_shortcut(alloc, &word)? {
            Some((name, row)) => Ok(Some((name.twin(alloc)?, row))),
            None => Ok(None),
        }
    }
}
