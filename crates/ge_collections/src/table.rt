// A map in the order of its keys, with an owner.
ghost use Rattle.std.specs.Prelude.{None, Some, ◌≡◌, ◌<◌, [], length, IfOk, OnOk, OnErr, IsTrue, ◌↔◌, IsSome, ◌&&◌};
ghost use Rattle.std.specs.Option.{option_copied, option_map};
ghost use Rattle.std.specs.Cmp.Lexicographic.{pointwise, slice_cmp, slice_partial_cmp, lists_equiv, lists_agrees, lists_total, lists_ties, lists_per, lists_po};
ghost use Rattle.std.specs.Ordering.{ordering_then, partial_ordering_then};
ghost use Rattle.std.specs.Cmp.{on_equiv, and_equiv, then_agrees, on_total, then_total, both_tied, on_per, and_per, on_po, then_po};
ghost use Rattle.std.specs.List.Sorted.{IsStrictlySortedBy};
ghost use Rattle.std.specs.Map.{lookup, remove_entry, keys_of, values_of};
ghost use Rattle.std.specs.Map.Iter.{ShowsInOrder, ShowsValuesInOrder, ShowsInReverse, deref, deref_pair};
ghost use Rattle.std.specs.BTreeMap.{insert_entry, is_at};
ghost use Rattle.ge_collections.specs.Changed.{ChangesAt, change_value};

use crate::edit::{Edit, TryEdit};
use std::alloc::{AllocError, Global};
use std::cmp::Ordering;
use std::collections::BTreeMap;
use std::collections::btree_map::{Iter, Keys, Values};
use std::marker::Model;

/// A map in the order of its keys. Contracts see the list of its pairs, whose keys strictly rise.
pub struct Table<K: Ord, V> {
    rows: BTreeMap<K, V>,
}

// Written out, so that letting a table go is one call where one is let go.
impl<K: Ord + Drop, V: Drop> Drop for Table<K, V> {
    fn drop(self) {
        let Table { rows: _ } = self;
    }
}

impl<K: Ord, V> Model for Table<K, V> {
    ghost use Rattle.std.specs.Prelude.{List};

    ghost Value = { List (K × V) };

    ghost view = { λ t. t.rows.entries };
}

impl<K: Ord, V> Table<K, V> {
    /// The table of no pairs, which takes no memory.
    pub fn new(alloc: Global) -> Table<K, V>
        ensures { result ≡ [] }
    {
        Table {
            rows: BTreeMap::new(alloc),
        }
    }

    /// How many pairs there are, in constant time.
    pub fn len(&self) -> usize
        ensures len { result ≡ length self.now }
        ensures rising { IsStrictlySortedBy K.cmp (keys_of self.now) }
    {
        self.rows.len()
    }

    /// Whether there is no pair.
    pub fn is_empty(&self) -> bool
        ensures { IsTrue result ↔ (self.now ≡ []) }
    {
        self.rows.is_empty()
    }

    /// The value at a key.
    pub fn get(&self, key: &K) -> Option<&V>
        ensures { option_copied result ≡ lookup (is_at (K.cmp key.now)) self.now }
    {
        self.rows.get(key)
    }

    /// Whether there is a pair with this key.
    pub fn contains_key(&self, key: &K) -> bool
        ensures { IsTrue result ↔ IsSome (lookup (is_at (K.cmp key.now)) self.now) }
    {
        self.rows.contains_key(key)
    }

    /// The pairs in the order of their keys.
    pub fn iter(&self) -> Iter<'_, K, V>
        ensures rest { result ≡ self.now }
        ensures runs { ShowsInOrder (deref_pair {K = K} {X = V}) }
        ensures values_run { ShowsValuesInOrder (deref_pair {K = K} {X = V}) }
        ensures runs_back { ShowsInReverse (deref_pair {K = K} {X = V}) }
        ensures rising { IsStrictlySortedBy K.cmp (keys_of self.now) }
    {
        self.rows.iter()
    }

    /// The keys in their order.
    pub fn keys(&self) -> Keys<'_, K, V>
        ensures rest { result ≡ keys_of self.now }
        ensures runs { ShowsInOrder (deref {X = K}) }
        ensures runs_back { ShowsInReverse (deref {X = K}) }
        ensures rising { IsStrictlySortedBy K.cmp (keys_of self.now) }
    {
        self.rows.keys()
    }

    /// The values in the order of their keys.
    pub fn values(&self) -> Values<'_, K, V>
        ensures rest { result ≡ values_of self.now }
        ensures runs { ShowsInOrder (deref {X = V}) }
        ensures runs_back { ShowsInReverse (deref {X = V}) }
    {
        self.rows.values()
    }

    /// Does nothing. Its clause tells what holds of every table: its keys rise.
    pub fn orderly(&self)
        ensures rising { IsStrictlySortedBy K.cmp (keys_of self.now) }
    {
        let _count = self.rows.len();
    }
}

impl<K: Ord, V> Table<K, V> {
    /// Changes the value at a key where it lies, and tells whether there is one.
    pub fn change<E: Edit<V>>(&mut self, key: &K, edit: &E) -> bool
        ensures found { IsTrue result ↔ IsSome (lookup (is_at (K.cmp key.now)) self.old) }
        ensures changed { self.new ≡ change_value (is_at (K.cmp key.now)) (E.edited edit.now) self.old }
        ensures updates { ChangesAt K.cmp key.now (option_map (E.edited edit.now)) self.old self.new }
    {
        let row = match self.rows.get_mut(key) {
            Some(row) => row,
            None => return false,
        };
        edit.edit(row);
        true
    }

    /// Changes the value at a key where it lies by an edit that may want memory, and tells whether there is one.
    pub fn try_change<E: TryEdit<V>>(
        &mut self,
        alloc: Global,
        key: &K,
        edit: &E,
    ) -> Result<bool, AllocError>
        ensures found { IfOk result (λ found. IsTrue found ↔ IsSome (lookup (is_at (K.cmp key.now)) self.old)) }
        ensures changed { OnOk result (self.new
            ≡ change_value (is_at (K.cmp key.now)) (E.edited edit.now) self.old) }
        ensures updates { OnOk result (ChangesAt K.cmp key.now (option_map (E.edited edit.now)) self.old self.new) }
        ensures err { OnErr result (self.new ≡ self.old) }
    {
        let row = match self.rows.get_mut(key) {
            Some(row) => row,
            None => return Ok(false),
        };
        if let Err(want) = edit.try_edit(alloc, row) {
            return Err(want);
        }
        Ok(true)
    }
}

impl<K: Ord + Drop, V> Table<K, V> {
    /// Takes the pair with this key out, and gives its value.
    pub fn remove(&mut self, key: &K) -> Option<V>
        ensures value { result ≡ lookup (is_at (K.cmp key.now)) self.old }
        ensures rest { self.new ≡ remove_entry (is_at (K.cmp key.now)) self.old }
        ensures updates { ChangesAt K.cmp key.now (λ _. None) self.old self.new }
    {
        self.rows.remove(key)
    }
}

impl<K: Ord + Drop, V: Drop> Table<K, V> {
    /// Puts a value at a key and gives the one that stood there. A key that stands stays as it is. A pair that
    /// finds no memory is dropped.
    pub fn insert(&mut self, key: K, value: V) -> Result<Option<V>, AllocError>
        ensures before { IfOk result (λ before. before ≡ lookup (is_at (K.cmp key)) self.old) }
        ensures ok { OnOk result (self.new ≡ insert_entry K.cmp self.old key value) }
        ensures updates { OnOk result (ChangesAt K.cmp key (λ _. Some value) self.old self.new) }
        ensures err { OnErr result (self.new ≡ self.old) }
    {
        match self.rows.insert(key, value) {
            Ok(before) => Ok(before),
            Err(_refused) => Err(AllocError),
        }
    }
}

impl<K: Ord, V: PartialEq> PartialEq for Table<K, V> {
    ghost eq = { pointwise (λ p q. K.eq p.0 q.0 && V.eq p.1 q.1) };

    ghost laws = { lists_per (and_per (on_per (λ p. p.0) K.PartialEq.laws) (on_per (λ p. p.1) V.laws)) };

    fn eq(&self, other: &Table<K, V>) -> bool {
        self.rows == other.rows
    }
}

impl<K: Ord, V: Eq> Eq for Table<K, V> {
    ghost laws = { lists_equiv (and_equiv (on_equiv (λ p. p.0) K.Eq.laws) (on_equiv (λ p. p.1) V.Eq.laws)) };
}

impl<K: Ord, V: PartialOrd> PartialOrd for Table<K, V> {
    ghost partial_cmp = { slice_partial_cmp (λ p q. partial_ordering_then (K.partial_cmp p.0 q.0) (V.partial_cmp p.1 q.1)) };

    ghost laws = { lists_po (then_po (on_po (λ p. p.0) K.PartialOrd.laws) (on_po (λ p. p.1) V.PartialOrd.laws)) };

    fn partial_cmp(&self, other: &Table<K, V>) -> Option<Ordering> {
        self.rows.partial_cmp(&other.rows)
    }
}

impl<K: Ord, V: Ord> Ord for Table<K, V> {
    ghost cmp = { slice_cmp (λ p q. ordering_then (K.cmp p.0 q.0) (V.Ord.cmp p.1 q.1)) };

    ghost total = { lists_total (then_total (on_total (λ p. p.0) K.total) (on_total (λ p. p.1) V.Ord.total)) };

    ghost matches_partial_cmp = { lists_agrees (then_agrees (λ p q. K.matches_partial_cmp p.0 q.0) (λ p q. V.Ord.matches_partial_cmp p.1 q.1)) };

    ghost matches_eq = { let K' = K.cmp in
        let V' = V.Ord.cmp in
        lists_ties (λ p q. ordering_then (K' p.0 q.0) (V' p.1 q.1)) (λ p q. both_tied _ _ (K' p.0 q.0) (V' p.1 q.1) (K.matches_eq p.0 q.0) (V.Ord.matches_eq p.1 q.1)) };

    fn cmp(&self, other: &Table<K, V>) -> Ordering {
        self.rows.cmp(&other.rows)
    }
}
