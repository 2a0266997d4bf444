// Rows met in a walk.
ghost use Rattle.std.specs.Prelude.{◌≡◌, ℕ, List, Some, IfSome};
ghost use Rattle.std.specs.BTreeMap.{is_at};
ghost use Rattle.std.specs.Map.{lookup};
ghost use Rattle.std.specs.Option.{option_copied};
ghost use Rattle.std.specs.Ordering.{nat_cmp};
ghost use Rattle.ge_collections.specs.Met.{AreFound, StayFound};

use std::collections::BTreeMap;
use std::collections::btree_map::Iter;

/// A walk over rows, of which none is met yet.
pub fn walk<V>(rows: &BTreeMap<u32, V>) -> Iter<'_, u32, V>
    ensures { AreFound rows.now.entries result }
{
    rows.iter()
}

/// The row at a number, where that is the next one, of what is left of a walk over rows, whose number isn't below. Numbers
/// that rise meet each of their rows so, and the walk as a whole is one pass; any other number has to be looked up.
pub fn next_at<'a, V>(left: &mut Iter<'a, u32, V>, number: u32) -> Option<&'a V>
    ensures found { (rows : List (ℕ × V)) → AreFound rows left.old
        → IfSome result (λ row. lookup (is_at (nat_cmp number)) rows ≡ Some row.now) }
    ensures others { StayFound left.old left.new }
{
    while let Some((key, row)) = left.next() {
        if number <= *key {
            return if *key == number { Some(row) } else { None };
        }
    }
    None
}

/// The row at a number, met in a walk over the rows or looked up.
pub fn row_at<'a, V>(
    rows: &'a BTreeMap<u32, V>,
    left: &mut Iter<'a, u32, V>,
    number: u32,
) -> Option<&'a V>
    ensures row { AreFound rows.now.entries left.old
        → option_copied result ≡ lookup (is_at (nat_cmp number)) rows.now.entries }
    ensures others { AreFound rows.now.entries left.old → AreFound rows.now.entries left.new }
{
    match next_at(left, number) {
        Some(row) => Some(row),
        None => rows.get(&number),
    }
}
