// The two kinds of maps, as far as writing and reading go: a table, and an index.
ghost use Rattle.std.specs.Prelude.{◌≡◌, ◌++◌, ◌∷◌, [], List, length, OnOk, IsTrue};
ghost use Rattle.std.specs.List.Sorted.{IsStrictlySortedBy};
ghost use Rattle.std.specs.Map.{keys_of};
ghost use Rattle.std.specs.Map.Iter.{ShowsInOrder, deref_pair};
ghost use Rattle.std.specs.Option.{option_copied};
ghost use Rattle.ge_model_codec.specs.Code.{is_next};
ghost use Rattle.ge_codec.specs.Taking.{last_key};

use ge_rows::{Index, Row, Table, Twin};
use std::alloc::{AllocError, Global};
use std::collections::btree_map::Iter;

/// A map in the order of its keys.
pub(crate) trait Pairs<K: Ord, V>: Sized {
    /// Its pairs.
    ghost pairs: { Self → List (K × V) };

    /// The map of no pairs.
    fn empty(alloc: Global) -> Self
        ensures { pairs result ≡ [] };

    /// How many pairs there are.
    fn count(&self) -> usize
        ensures len { result ≡ length (pairs self.now) }
        ensures rising { IsStrictlySortedBy K.cmp (keys_of (pairs self.now)) };

    /// The pairs in the order of their keys.
    fn pairs(&self) -> Iter<'_, K, V>
        ensures rest { result ≡ pairs self.now }
        ensures runs { ShowsInOrder (deref_pair {K = K} {X = V}) };

    /// The last key.
    fn last_key(&self) -> Option<&K>
        ensures { option_copied result ≡ last_key (pairs self.now) };

    /// Puts a pair behind the others, above whose keys its own stands.
    fn put_last(&mut self, key: K, value: V) -> Result<(), AllocError>
        requires { IsTrue (is_next K.cmp (last_key (pairs self.old)) key) }
        ensures { OnOk result (pairs self.new ≡ pairs self.old ++ (key, value) ∷ []) };
}

impl<K: Ord + Drop, V: Drop> Pairs<K, V> for Table<K, V> {
    ghost pairs = { λ table. table };

    fn empty(alloc: Global) -> Table<K, V> {
        Table::new(alloc)
    }

    fn count(&self) -> usize {
        self.len()
    }

    fn pairs(&self) -> Iter<'_, K, V> {
        self.iter()
    }

    fn last_key(&self) -> Option<&K> {
        match self.keys().next_back() {
            Some(last) => Some(last),
            None => None,
        }
    }

    fn put_last(&mut self, key: K, value: V) -> Result<(), AllocError> {
        let _count = self.len();
        self.insert(key, value)?;
        Ok(())
    }
}

impl<K: Ord + Twin + Drop, V: Row + Drop> Pairs<K, V> for Index<K, V> {
    ghost pairs = { λ table. table };

    fn empty(alloc: Global) -> Index<K, V> {
        Index::new(alloc)
    }

    fn count(&self) -> usize {
        self.len()
    }

    fn pairs(&self) -> Iter<'_, K, V> {
        self.iter()
    }

    fn last_key(&self) -> Option<&K> {
        match self.keys().next_back() {
            Some(last) => Some(last),
            None => None,
        }
    }

    fn put_last(&mut self, key: K, value: V) -> Result<(), AllocError> {
        let _count = self.len();
        self.insert(key, value)?;
        Ok(())
    }
}
