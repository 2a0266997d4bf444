// What an index gathers about its rows by their marks.
ghost use Rattle.std.specs.Prelude.{◌≡◌, ℕ, [], ◌∷◌, IfOk};
ghost use Rattle.std.specs.BTreeMap.{is_at};
ghost use Rattle.std.specs.List.{filter_map};
ghost use Rattle.std.specs.List.Sorted.{IsStrictlySortedBy};
ghost use Rattle.std.specs.Map.{keys_of, lookup, lookup_key};
ghost use Rattle.ge_job_index.specs.Asked.{bearers_of};
ghost use Rattle.ge_job_index.specs.Kept.{Counts, entries_of, times_at};

use crate::index::Index;
use crate::kept::learn_row;
use crate::keys::Keys;
use crate::ledger::Ledger;
use crate::row::Row;
use ge_collections::Twin;
use std::alloc::{AllocError, Global};
use std::collections::BTreeMap;

/// A ledger of rows, made anew.
pub(crate) fn ledger_of<K: Ord + Twin + Drop, V: Row>(
    alloc: Global,
    rows: &BTreeMap<K, V>,
) -> Result<Ledger<K, V::Mark>, AllocError>
    ensures { IfOk result (λ ledger. Counts K.cmp V.Mark.cmp ledger.bearers.entries (λ mark key. times_at V.Mark.cmp V.marks mark (lookup (is_at (K.cmp key)) rows.now.entries))) }
{
    let mut ledger = Ledger {
        whole: true,
        bearers: BTreeMap::new(alloc),
    };
    for (key, row) in rows.iter() {
        learn_row(alloc, &mut ledger, key, row);
    }
    if !ledger.whole {
        return Err(AllocError);
    }
    Ok(ledger)
}

// The key of rows that is this one, if it is there.
fn own_key<K: Ord + Twin + Drop, V>(
    alloc: Global,
    rows: &BTreeMap<K, V>,
    key: &K,
) -> Result<Vec<K>, AllocError>
    ensures { IfOk result (λ list. list.items ≡ filter_map
        (λ key. lookup_key (is_at (K.cmp key)) rows.now.entries) (key.now ∷ [])) }
{
    let mut list = Vec::new(alloc);
    if let Some((own, _row)) = rows.get_key_value(key) {
        list.push(own.twin(alloc)?)?;
    }
    Ok(list)
}

// The keys of rows that are those of some counts.
fn own_keys<K: Ord + Twin + Drop, V>(
    alloc: Global,
    rows: &BTreeMap<K, V>,
    keys: &BTreeMap<K, u64>,
) -> Result<Vec<K>, AllocError>
    ensures keys { IfOk result (λ list. list.items ≡ filter_map
        (λ key. lookup_key (is_at (K.cmp key)) rows.now.entries) (keys_of keys.now.entries)) }
    ensures rising { IsStrictlySortedBy K.cmp (keys_of keys.now.entries) }
    ensures rows_rise { IsStrictlySortedBy K.cmp (keys_of rows.now.entries) }
{
    let _count = rows.len();
    let mut list = Vec::new(alloc);
    for key in keys.keys() {
        if let Some((own, _row)) = rows.get_key_value(key) {
            list.push(own.twin(alloc)?)?;
        }
    }
    Ok(list)
}

// The keys of rows that are those of some counts, of one key or of many.
#[tactic(auto, using(crate::proofs::Ones::one_rises))]
fn own_of_keys<K: Ord + Twin + Drop, V>(
    alloc: Global,
    rows: &BTreeMap<K, V>,
    keys: &Keys<K>,
) -> Result<Vec<K>, AllocError>
    ensures keys { IfOk result (λ list. list.items ≡ filter_map
        (λ key. lookup_key (is_at (K.cmp key)) rows.now.entries) (keys_of (entries_of keys.now))) }
    ensures rising { IsStrictlySortedBy K.cmp (keys_of (entries_of keys.now)) }
{
    match keys {
        Keys::One(key, _count) => own_key(alloc, rows, key),
        Keys::Many(counts) => own_keys(alloc, rows, counts),
    }
}

// The keys of the rows that a ledger tells of and that bear a mark.
fn bearers_in<K: Ord + Twin + Drop, V: Row>(
    alloc: Global,
    rows: &BTreeMap<K, V>,
    ledger: &Ledger<K, V::Mark>,
    mark: &V::Mark,
) -> Result<Vec<K>, AllocError>
    ensures { Counts K.cmp V.Mark.cmp ledger.now.bearers.entries (λ m key. times_at V.Mark.cmp V.marks m (lookup (is_at (K.cmp key)) rows.now.entries))
        → IfOk result (λ list. list.items ≡ bearers_of V.Mark.cmp V.marks mark.now rows.now.entries) }
{
    let _count = rows.len();
    match ledger.bearers.get(mark) {
        Some(keys) => own_of_keys(alloc, rows, keys),
        None => Ok(Vec::new(alloc)),
    }
}

impl<K: Ord + Twin + Drop, V: Row> Index<K, V> {
    /// The keys of the rows that bear a mark, in their order.
    pub fn bearers(&self, alloc: Global, mark: &V::Mark) -> Result<Vec<K>, AllocError>
        ensures { IfOk result (λ list. list.items ≡ bearers_of V.Mark.cmp V.marks mark.now self.now) }
    {
        if self.kept.ledger.whole {
            return bearers_in::<K, V>(alloc, &self.rows, &self.kept.ledger, mark);
        }
        let ledger = ledger_of(alloc, &self.rows)?;
        bearers_in::<K, V>(alloc, &self.rows, &ledger, mark)
    }
}
