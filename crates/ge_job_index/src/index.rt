// A map in the order of its keys, which keeps what its rows have in common.
ghost use Rattle.std.specs.Prelude.{All, None, Some, ◌≡◌, ◌<◌, [], length, IfOk, OnOk, OnErr, IsTrue, ◌↔◌, IsSome};
ghost use Rattle.std.specs.Option.{option_copied, option_map};
ghost use Rattle.std.specs.List.Sorted.{IsStrictlySortedBy};
ghost use Rattle.std.specs.Map.{lookup, remove_entry, keys_of, values_of};
ghost use Rattle.std.specs.Map.Iter.{ShowsInOrder, ShowsValuesInOrder, ShowsInReverse, deref, deref_pair};
ghost use Rattle.std.specs.BTreeMap.{insert_entry, is_at};
ghost use Rattle.ge_collections.specs.Changed.{ChangesAt, change_value};

use crate::edit::{Edit, TryEdit};
use crate::kept::{Kept, gain, lose, make_room, shift};
use crate::ledger::Ledger;
use crate::moved::{make, try_make};
use crate::row::Row;
use crate::short_rows::{ShortRows, change_short, drop_short, put_short, ready};
use crate::sums::Sums;
use ge_collections::Twin;
use std::alloc::{AllocError, Global};
use std::collections::BTreeMap;
use std::collections::btree_map::{Iter, Keys, Values};
use std::marker::Model;

/// A map in the order of its keys. Contracts see the list of its pairs, whose keys strictly rise.
///
/// Beside its rows it keeps the sums of their weights, a ledger of their marks, so that questions about these need no
/// walk, and short rows, where the type of its rows has them. Where there was no memory for the ledger once, or a sum
/// didn't fit, the same questions walk the rows: no call fails for it.
pub struct Index<K: Ord, V: Row> {
    pub(crate) alloc: Global,
    pub(crate) rows: BTreeMap<K, V>,
    pub(crate) kept: Kept<K, V::Mark>,
    pub(crate) shorts: Option<Box<ShortRows<K, V::Label, V::Facts>>>,
}

// Written out, so that letting an index go is one call where one is let go: its short rows, which it may not have, are
// looked at here alone.
impl<K: Ord + Drop, V: Row + Drop> Drop for Index<K, V> {
    fn drop(self) {
        let Index {
            alloc: _,
            rows: _,
            kept: _,
            shorts: _,
        } = self;
    }
}

impl<K: Ord, V: Row> Model for Index<K, V> {
    ghost use Rattle.std.specs.Prelude.{List, All, IfSome};
    ghost use Rattle.std.specs.BTreeMap.{is_at};
    ghost use Rattle.std.specs.Map.{lookup, values_of};
    ghost use Rattle.ge_job_index.specs.Kept.{AreSums, Tells, times_at, weight_of};
    ghost use Rattle.ge_job_index.specs.Short.{AreShown};

    ghost Value = { List (K × V) };

    ghost view = { λ t. t.rows.entries };

    ghost invariant = { λ t.
        AreSums t.kept.sums.whole t.kept.sums.first t.kept.sums.second
        (weight_of (λ row. (V.weights row).0) t.rows.entries) (weight_of (λ row. (V.weights row).1) t.rows.entries)
        × Tells K.cmp V.Mark.cmp t.kept.ledger.whole t.kept.ledger.bearers.entries
        (λ mark key. times_at V.Mark.cmp V.marks mark (lookup (is_at (K.cmp key)) t.rows.entries))
        × All V.IsOrderly (values_of t.rows.entries)
        × IfSome t.shorts (λ b. AreShown K.cmp V.Label.cmp V.labels V.short
        b.value.numbers.entries b.value.bound b.value.rows.entries
        (λ q. lookup (is_at (K.cmp q)) t.rows.entries)) };
}

impl<K: Ord, V: Row> Index<K, V> {
    /// The index of no pairs, which takes no memory.
    pub fn new(alloc: Global) -> Index<K, V>
        ensures { result ≡ [] }
    {
        Index {
            alloc,
            rows: BTreeMap::new(alloc),
            kept: Kept {
                sums: Sums {
                    whole: true,
                    first: 0,
                    second: 0,
                },
                ledger: Ledger {
                    whole: true,
                    bearers: BTreeMap::new(alloc),
                },
            },
            shorts: None,
        }
    }

    /// How many pairs there are, in constant time.
    pub fn len(&self) -> usize
        ensures len { result ≡ length self.now }
        ensures rising { IsStrictlySortedBy K.cmp (keys_of self.now) }
    {
        self.rows.len()
    }

    /// Whether there is no pair.
    pub fn is_empty(&self) -> bool
        ensures { IsTrue result ↔ (self.now ≡ []) }
    {
        self.rows.is_empty()
    }

    /// The value at a key.
    pub fn get(&self, key: &K) -> Option<&V>
        ensures { option_copied result ≡ lookup (is_at (K.cmp key.now)) self.now }
    {
        self.rows.get(key)
    }

    /// Whether there is a pair with this key.
    pub fn contains_key(&self, key: &K) -> bool
        ensures { IsTrue result ↔ IsSome (lookup (is_at (K.cmp key.now)) self.now) }
    {
        self.rows.contains_key(key)
    }

    /// The pairs in the order of their keys.
    pub fn iter(&self) -> Iter<'_, K, V>
        ensures rest { result ≡ self.now }
        ensures runs { ShowsInOrder (deref_pair {K = K} {X = V}) }
        ensures values_run { ShowsValuesInOrder (deref_pair {K = K} {X = V}) }
        ensures runs_back { ShowsInReverse (deref_pair {K = K} {X = V}) }
        ensures rising { IsStrictlySortedBy K.cmp (keys_of self.now) }
    {
        self.rows.iter()
    }

    /// The keys in their order.
    pub fn keys(&self) -> Keys<'_, K, V>
        ensures rest { result ≡ keys_of self.now }
        ensures runs { ShowsInOrder (deref {X = K}) }
        ensures runs_back { ShowsInReverse (deref {X = K}) }
        ensures rising { IsStrictlySortedBy K.cmp (keys_of self.now) }
    {
        self.rows.keys()
    }

    /// The values in the order of their keys.
    pub fn values(&self) -> Values<'_, K, V>
        ensures rest { result ≡ values_of self.now }
        ensures runs { ShowsInOrder (deref {X = V}) }
        ensures runs_back { ShowsInReverse (deref {X = V}) }
    {
        self.rows.values()
    }

    /// Does nothing. Its clauses tell what holds of every index: its keys rise, and each row is as its own types keep it.
    pub fn orderly(&self)
        ensures rising { IsStrictlySortedBy K.cmp (keys_of self.now) }
        ensures rows { All V.IsOrderly (values_of self.now) }
    {
        let _count = self.rows.len();
    }
}

impl<K: Ord + Twin + Drop, V: Row> Index<K, V> {
    /// Changes the value at a key where it lies, and tells whether there is one.
    pub fn change<E: Edit<V>>(&mut self, key: &K, edit: &E) -> bool
        ensures found { IsTrue result ↔ IsSome (lookup (is_at (K.cmp key.now)) self.old) }
        ensures changed { self.new ≡ change_value (is_at (K.cmp key.now)) (E.edited edit.now) self.old }
        ensures updates { ChangesAt K.cmp key.now (option_map (E.edited edit.now)) self.old self.new }
    {
        match self.rows.get_mut(key) {
            Some(row) => {
                let moved = make(self.alloc, edit, row);
                let shorts = self.shorts.take();
                self.shorts = change_short(self.alloc, shorts, key, row, moved.relabels);
                shift(self.alloc, &mut self.kept, key, moved);
                true
            }
            None => false,
        }
    }

    /// Changes the value at a key where it lies by an edit that may want memory, and tells whether there is one.
    pub fn try_change<E: TryEdit<V>>(
        &mut self,
        alloc: Global,
        key: &K,
        edit: &E,
    ) -> Result<bool, AllocError>
        ensures found { IfOk result (λ found. IsTrue found ↔ IsSome (lookup (is_at (K.cmp key.now)) self.old)) }
        ensures changed { OnOk result (self.new
            ≡ change_value (is_at (K.cmp key.now)) (E.edited edit.now) self.old) }
        ensures updates { OnOk result (ChangesAt K.cmp key.now (option_map (E.edited edit.now)) self.old self.new) }
        ensures err { OnErr result (self.new ≡ self.old) }
    {
        match self.rows.get_mut(key) {
            Some(row) => match try_make(alloc, edit, row) {
                Ok(moved) => {
                    let shorts = self.shorts.take();
                    self.shorts = change_short(alloc, shorts, key, row, moved.relabels);
                    shift(alloc, &mut self.kept, key, moved);
                    Ok(true)
                }
                Err(want) => Err(want),
            },
            None => Ok(false),
        }
    }
}

impl<K: Ord + Drop, V: Row> Index<K, V> {
    /// Takes the pair with this key out, and gives its value.
    pub fn remove(&mut self, key: &K) -> Option<V>
        ensures value { result ≡ lookup (is_at (K.cmp key.now)) self.old }
        ensures rest { self.new ≡ remove_entry (is_at (K.cmp key.now)) self.old }
        ensures updates { ChangesAt K.cmp key.now (λ _. None) self.old self.new }
    {
        match self.rows.remove(key) {
            Some(row) => {
                lose(self.alloc, &mut self.kept, key, &row);
                let shorts = self.shorts.take();
                self.shorts = drop_short::<K, V>(shorts, key);
                Some(row)
            }
            None => None,
        }
    }
}

impl<K: Ord + Twin + Drop, V: Row + Drop> Index<K, V> {
    /// Puts a value at a key and gives the one that stood there. A key that stands stays as it is. A pair that
    /// finds no memory is dropped.
    pub fn insert(&mut self, key: K, value: V) -> Result<Option<V>, AllocError>
        ensures before { IfOk result (λ before. before ≡ lookup (is_at (K.cmp key)) self.old) }
        ensures ok { OnOk result (self.new ≡ insert_entry K.cmp self.old key value) }
        ensures updates { OnOk result (ChangesAt K.cmp key (λ _. Some value) self.old self.new) }
        ensures err { OnErr result (self.new ≡ self.old) }
    {
        value.orderly();
        make_room(self.alloc, &mut self.kept, &self.rows, &key);
        gain(self.alloc, &mut self.kept, &key, &value);
        let shorts = self.shorts.take();
        let shorts = ready(self.alloc, shorts, &self.rows);
        self.shorts = put_short(self.alloc, shorts, &key, &value);
        match self.rows.insert(key, value) {
            Ok(before) => Ok(before),
            Err(refused) => {
                let (key, value) = refused.value;
                lose(self.alloc, &mut self.kept, &key, &value);
                let shorts = self.shorts.take();
                self.shorts = drop_short::<K, V>(shorts, &key);
                Err(AllocError)
            }
        }
    }
}
