// Short rows, as rows come and go.
ghost use Rattle.std.specs.Prelude.{◌≡◌, ℕ, IfOk, IfSome, IsTrue, None, Option, Some, cond, false};
ghost use Rattle.std.specs.BTreeMap.{is_at};
ghost use Rattle.std.specs.List.Sorted.{IsStrictlySortedBy};
ghost use Rattle.std.specs.Map.{keys_of, lookup};
ghost use Rattle.ge_job_index.specs.Short.{AreShown, Grow, IsNumbered, number_in, short_of};

use crate::row::Row;
use crate::short_row::ShortRow;
use ge_collections::Twin;
use std::alloc::{AllocError, Global};
use std::collections::BTreeMap;

/// How many short rows there are at least where they are packed.
const PACKED_ROWS: usize = 64;

/// The short row at each key, and the numbers of labels, each below a bound. A number stays with its label.
#[derive(Drop)]
pub(crate) struct ShortRows<K: Ord, L: Ord, F: Copy> {
    pub(crate) numbers: BTreeMap<L, u32>,
    pub(crate) bound: u32,
    pub(crate) rows: BTreeMap<K, ShortRow<F>>,
    // How many rows there were where they were packed last.
    pub(crate) packed: usize,
}

// The number of a label, which may be a new one: the bound, since that of any other is below it. It is looked up once.
fn number_label<L: Ord + Twin + Drop>(
    numbers: &mut BTreeMap<L, u32>,
    bound: &mut u32,
    label: L,
) -> Option<u32>
    ensures grow { IfSome result (λ _. Grow L.cmp numbers.old.entries bound.old
        numbers.new.entries bound.new) }
    ensures number { IfSome result (λ n. number_in L.cmp numbers.new.entries label ≡ Some n) }
{
    let number = *bound;
    let Some(next) = number.checked_add(1) else {
        return None;
    };
    let Ok(entry) = numbers.entry(label) else {
        return None;
    };
    let found = *entry.or_insert(number);
    if found == number {
        *bound = next;
    }
    Some(found)
}

// The numbers of three labels that have one each, as those of most rows do.
fn known_numbers<L: Ord>(numbers: &BTreeMap<L, u32>, labels: &(L, L, L)) -> Option<(u32, u32, u32)>
    ensures first { IfSome result (λ three. number_in L.cmp numbers.now.entries labels.now.0
        ≡ Some three.0) }
    ensures second { IfSome result (λ three. number_in L.cmp numbers.now.entries labels.now.1
        ≡ Some three.1) }
    ensures third { IfSome result (λ three. number_in L.cmp numbers.now.entries labels.now.2
        ≡ Some three.2) }
{
    let first = numbers.get(&labels.0)?;
    let second = numbers.get(&labels.1)?;
    let third = numbers.get(&labels.2)?;
    Some((*first, *second, *third))
}

// The numbers of three labels. Only where one is new do they move.
fn number_labels<L: Ord + Twin + Drop>(
    numbers: &mut BTreeMap<L, u32>,
    bound: &mut u32,
    labels: (L, L, L),
) -> Option<(u32, u32, u32)>
    ensures grow { IfSome result (λ _. Grow L.cmp numbers.old.entries bound.old
        numbers.new.entries bound.new) }
    ensures first { IfSome result (λ three. number_in L.cmp numbers.new.entries labels.0
        ≡ Some three.0) }
    ensures second { IfSome result (λ three. number_in L.cmp numbers.new.entries labels.1
        ≡ Some three.1) }
    ensures third { IfSome result (λ three. number_in L.cmp numbers.new.entries labels.2
        ≡ Some three.2) }
{
    if let Some(known) = known_numbers(numbers, &labels) {
        return Some(known);
    }
    let (first, second, third) = labels;
    let first = number_label(numbers, bound, first)?;
    let second = number_label(numbers, bound, second)?;
    let third = number_label(numbers, bound, third)?;
    Some((first, second, third))
}

// The short row of a row.
fn shorten<V: Row>(
    alloc: Global,
    numbers: &mut BTreeMap<V::Label, u32>,
    bound: &mut u32,
    row: &V,
) -> Option<ShortRow<V::Facts>>
    ensures grow { IfSome result (λ _. Grow V.Label.cmp numbers.old.entries bound.old
        numbers.new.entries bound.new) }
    ensures short { IfSome result (λ short. short
        ≡ short_of V.labels V.short (number_in V.Label.cmp numbers.new.entries) row.now) }
    ensures numbered { IfSome result (λ _. IsNumbered V.labels V.short (number_in V.Label.cmp
        numbers.new.entries) row.now) }
{
    let Ok(labels) = row.labels(alloc) else {
        return None;
    };
    let (first, second, third) = number_labels(numbers, bound, labels)?;
    Some(ShortRow {
        first,
        second,
        third,
        facts: row.short(),
    })
}

// The short row of a row at its key, if there is memory.
fn write_short<K: Ord + Twin + Drop, V: Row>(
    alloc: Global,
    shorts: &mut ShortRows<K, V::Label, V::Facts>,
    key: &K,
    row: &V,
) -> bool
    ensures { IsTrue result → (look : K → Option V)
        → AreShown K.cmp V.Label.cmp V.labels V.short shorts.old.numbers.entries shorts.old.bound
        shorts.old.rows.entries look
        → AreShown K.cmp V.Label.cmp V.labels V.short shorts.new.numbers.entries shorts.new.bound
        shorts.new.rows.entries
        (λ q. cond (is_at (K.cmp key.now) q) (Some row.now) (look q)) }
{
    let Some(short) = shorten(alloc, &mut shorts.numbers, &mut shorts.bound, row) else {
        return false;
    };
    let Ok(key) = key.twin(alloc) else {
        return false;
    };
    shorts.rows.insert(key, short).is_ok()
}

/// Short rows of no rows, where rows have them.
fn begin<K: Ord + Drop, V: Row>(alloc: Global) -> Option<Box<ShortRows<K, V::Label, V::Facts>>>
    ensures { (look : K → Option V) → ((q : K) → look q ≡ None)
        → IfSome result (λ b. AreShown K.cmp V.Label.cmp V.labels V.short b.value.numbers.entries
        b.value.bound b.value.rows.entries look) }
{
    if !V::keeps_short() {
        return None;
    }
    let shorts = ShortRows {
        numbers: BTreeMap::new(alloc),
        bound: 0,
        rows: BTreeMap::new(alloc),
        packed: 0,
    };
    match Box::new(alloc, shorts) {
        Ok(shorts) => Some(shorts),
        Err(_want) => None,
    }
}

/// A row is at a key.
pub(crate) fn put_short<K: Ord + Twin + Drop, V: Row>(
    alloc: Global,
    shorts: Option<Box<ShortRows<K, V::Label, V::Facts>>>,
    key: &K,
    row: &V,
) -> Option<Box<ShortRows<K, V::Label, V::Facts>>>
    ensures { (look : K → Option V) → IfSome shorts
        (λ b. AreShown K.cmp V.Label.cmp V.labels V.short b.value.numbers.entries b.value.bound
        b.value.rows.entries look)
        → IfSome result (λ b. AreShown K.cmp V.Label.cmp V.labels V.short b.value.numbers.entries
        b.value.bound b.value.rows.entries (λ q. cond (is_at (K.cmp key.now) q)
        (Some row.now) (look q))) }
{
    let Some(mut shorts) = shorts else {
        return None;
    };
    if !write_short(alloc, &mut shorts, key, row) {
        return None;
    }
    Some(shorts)
}

// Short rows of rows, made anew.
fn renewed<K: Ord + Twin + Drop, V: Row>(
    alloc: Global,
    rows: &BTreeMap<K, V>,
) -> Option<Box<ShortRows<K, V::Label, V::Facts>>>
    ensures { IfSome result (λ b. AreShown K.cmp V.Label.cmp V.labels V.short
        b.value.numbers.entries b.value.bound b.value.rows.entries (λ q. lookup (is_at (K.cmp q)) rows.now.entries)) }
{
    let mut shorts = begin::<K, V>(alloc);
    for (key, row) in rows.iter() {
        shorts = put_short(alloc, shorts, key, row);
    }
    shorts
}

// Whether there are many more labels than so many rows have.
fn is_crowded<K: Ord, L: Ord, F: Copy>(
    shorts: &Option<Box<ShortRows<K, L, F>>>,
    rows: usize,
) -> bool {
    match shorts {
        Some(shorts) => (shorts.bound / 8) as usize > rows.saturating_add(512),
        None => false,
    }
}

// Whether there are twice as many rows as where they were packed last.
fn is_loose<K: Ord, L: Ord, F: Copy>(shorts: &ShortRows<K, L, F>) -> bool {
    shorts.rows.len() / 2 >= shorts.packed.max(PACKED_ROWS)
}

// Copies of rows in order.
fn copies<K: Ord + Twin + Drop, F: Copy>(
    alloc: Global,
    rows: &BTreeMap<K, ShortRow<F>>,
) -> Result<Vec<(K, ShortRow<F>)>, AllocError>
    ensures copied { IfOk result (λ list. list.items ≡ rows.now.entries) }
    ensures rising { IsStrictlySortedBy K.cmp (keys_of rows.now.entries) }
{
    let mut list = Vec::with_capacity(alloc, rows.len())?;
    for (key, row) in rows.iter() {
        list.push((key.twin(alloc)?, *row))?;
    }
    Ok(list)
}

// The same rows in full nodes. The old map still stands, so that the new nodes lie one behind the other and not in the holes
// that the old ones leave.
fn pack<K: Ord + Twin + Drop, F: Copy>(
    alloc: Global,
    rows: &BTreeMap<K, ShortRow<F>>,
) -> Result<BTreeMap<K, ShortRow<F>>, AllocError>
    ensures { IfOk result (λ packed. (q : K) → lookup (is_at (K.cmp q)) packed.entries
        ≡ lookup (is_at (K.cmp q)) rows.now.entries) }
{
    let list = copies(alloc, rows)?;
    list.into_iter().collect(alloc)
}

// Short rows that are packed, where there are many more than when that was done: a map whose keys rise is half full, and its
// nodes lie apart, so that a walk waits for memory at each.
fn packed<K: Ord + Twin + Drop, V: Row>(
    alloc: Global,
    shorts: Option<Box<ShortRows<K, V::Label, V::Facts>>>,
) -> Option<Box<ShortRows<K, V::Label, V::Facts>>>
    ensures { (look : K → Option V) → IfSome shorts
        (λ b. AreShown K.cmp V.Label.cmp V.labels V.short b.value.numbers.entries b.value.bound
        b.value.rows.entries look)
        → IfSome result (λ b. AreShown K.cmp V.Label.cmp V.labels V.short b.value.numbers.entries
        b.value.bound b.value.rows.entries look) }
{
    let mut shorts = shorts?;
    if !is_loose(&shorts) {
        return Some(shorts);
    }
    match pack(alloc, &shorts.rows) {
        Ok(rows) => {
            shorts.packed = rows.len();
            shorts.rows = rows;
            Some(shorts)
        }
        Err(_want) => Some(shorts),
    }
}

/// Short rows for an index that a row is about to come to. Where it is empty they begin anew, and where most labels are of
/// rows that went they are made anew, so that labels take no more memory than rows.
pub(crate) fn ready<K: Ord + Twin + Drop, V: Row>(
    alloc: Global,
    shorts: Option<Box<ShortRows<K, V::Label, V::Facts>>>,
    rows: &BTreeMap<K, V>,
) -> Option<Box<ShortRows<K, V::Label, V::Facts>>>
    ensures { IfSome shorts (λ b. AreShown K.cmp V.Label.cmp V.labels V.short
        b.value.numbers.entries b.value.bound b.value.rows.entries (λ q. lookup (is_at (K.cmp q)) rows.now.entries))
        → IfSome result (λ b. AreShown K.cmp V.Label.cmp V.labels V.short
        b.value.numbers.entries b.value.bound b.value.rows.entries (λ q. lookup (is_at (K.cmp q)) rows.now.entries)) }
{
    if rows.is_empty() {
        return begin::<K, V>(alloc);
    }
    if is_crowded(&shorts, rows.len()) {
        return renewed::<K, V>(alloc, rows);
    }
    packed::<K, V>(alloc, shorts)
}

/// No row is at a key.
pub(crate) fn drop_short<K: Ord + Drop, V: Row>(
    shorts: Option<Box<ShortRows<K, V::Label, V::Facts>>>,
    key: &K,
) -> Option<Box<ShortRows<K, V::Label, V::Facts>>>
    ensures { (look : K → Option V) → IfSome shorts
        (λ b. AreShown K.cmp V.Label.cmp V.labels V.short b.value.numbers.entries b.value.bound
        b.value.rows.entries look)
        → IfSome result (λ b. AreShown K.cmp V.Label.cmp V.labels V.short b.value.numbers.entries
        b.value.bound b.value.rows.entries (λ q. cond (is_at (K.cmp key.now) q) None (look q))) }
{
    let mut shorts = shorts?;
    let _before = shorts.rows.remove(key);
    Some(shorts)
}

// The row at a key has other facts.
fn write_facts<K: Ord, V: Row>(shorts: &mut ShortRows<K, V::Label, V::Facts>, key: &K, row: &V)
    ensures { (look : K → Option V) (old : V) → look key.now ≡ Some old
        → V.labels row.now ≡ V.labels old
        → AreShown K.cmp V.Label.cmp V.labels V.short shorts.old.numbers.entries shorts.old.bound
        shorts.old.rows.entries look
        → AreShown K.cmp V.Label.cmp V.labels V.short shorts.new.numbers.entries shorts.new.bound
        shorts.new.rows.entries (λ q. cond (is_at (K.cmp key.now) q) (Some row.now) (look q)) }
{
    if let Some(short) = shorts.rows.get_mut(key) {
        short.facts = row.short();
    }
}

/// The row at a key has changed where it lies. It has the labels that it had, unless it may have others.
pub(crate) fn change_short<K: Ord + Twin + Drop, V: Row>(
    alloc: Global,
    shorts: Option<Box<ShortRows<K, V::Label, V::Facts>>>,
    key: &K,
    row: &V,
    relabels: bool,
) -> Option<Box<ShortRows<K, V::Label, V::Facts>>>
    ensures { (look : K → Option V) (old : V) → look key.now ≡ Some old → (relabels ≡ false
        → V.labels row.now ≡ V.labels old)
        → IfSome shorts (λ b. AreShown K.cmp V.Label.cmp V.labels V.short b.value.numbers.entries
        b.value.bound b.value.rows.entries look)
        → IfSome result (λ b. AreShown K.cmp V.Label.cmp V.labels V.short b.value.numbers.entries
        b.value.bound b.value.rows.entries (λ q. cond (is_at (K.cmp key.now) q)
        (Some row.now) (look q))) }
{
    if relabels {
        return put_short(alloc, shorts, key, row);
    }
    let Some(mut shorts) = shorts else {
        return None;
    };
    write_facts::<K, V>(&mut shorts, key, row);
    Some(shorts)
}
