//! Complexes looked up: lent from the cluster's table, without memory (complex).

ghost use Rattle.std.specs.Prelude.{◌≡◌};
ghost use Rattle.std.specs.Option.{option_copied, option_map};
ghost use Rattle.std.specs.Map.Iter.{deref_pair};
ghost use Rattle.ge_collections.specs.Keyed.{text_eq};
ghost use Rattle.ge_model_rows.specs.Complexes.{complex_by_shortcut, has_consumable};
ghost use Rattle.ge_model_rows.specs.Complexes as complexes;

use ge_pieces::{is_same, is_word};
use ge_rows::{Cluster, ComplexDef, Consumable, Kind, Text};

/// What the table has under a name.
pub fn complex_at<'a>(c: &'a Cluster, name: &Text) -> Option<&'a ComplexDef>
    ensures { option_copied result ≡ complexes.complex_at c.now name.now }
{
    c.complexes.get(name)
}

/// The first row that has a word as its shortcut, with its name. It walks the table: where many words are looked up,
/// `Shortcuts` has them at once.
fn with_shortcut<'a>(c: &'a Cluster, word: &Text) -> Option<(&'a Text, &'a ComplexDef)>
    ensures { option_map deref_pair result ≡ complex_by_shortcut c.now word.now }
{
    for (name, complex) in c.complexes.iter() {
        if is_same(&complex.shortcut, word) {
            return Some((name, complex));
        }
    }
    None
}

/// The complex that a word names, by its name or else its shortcut: its name and its row (qsub, -l).
pub fn complex_named<'a>(c: &'a Cluster, word: &'a Text) -> Option<(&'a Text, &'a ComplexDef)>
    ensures { option_map deref_pair result ≡ complexes.complex_named c.now word.now }
{
    match complex_at(c, word) {
        Some(complex) => Some((word, complex)),
        None => with_shortcut(c, word),
    }
}

/// Whether tasks consume what a row stands for, once for each slot or once for each job.
pub fn is_consumed(consumable: Consumable) -> bool
    ensures { result ≡ complexes.is_consumed consumable }
{
    match consumable {
        Consumable::No => false,
        Consumable::Yes => true,
        Consumable::Job => true,
    }
}

fn is_there_and_consumed(complex: Option<&ComplexDef>) -> bool
    ensures { result ≡ has_consumable (option_copied complex.entry) }
{
    match complex {
        None => false,
        Some(complex) => is_consumed(complex.consumable),
    }
}

/// Whether a name is a consumable: `slots` always, a name that is no complex never (complex, consumable).
pub fn is_consumable(c: &Cluster, name: &Text) -> bool
    ensures { result ≡ complexes.is_consumable c.now name.now }
{
    is_word(name.bytes(), b"slots") || is_there_and_consumed(complex_at(c, name))
}

/// The kind under which a value of a name is printed. A name that is no complex has values that are printed by their form,
/// as INT prints them.
pub fn kind_for(c: &Cluster, name: &Text) -> Kind
    ensures { result ≡ complexes.kind_for c.now name.now }
{
    match complex_at(c, name) {
        None => Kind::Int,
        Some(complex) => complex.kind,
    }
}
