// What an index is asked of its rows, and answers without a walk where what it keeps is whole.
ghost use Rattle.std.specs.Prelude.{◌≡◌, ℕ, ◌-◌, ◌^◌, min, true, false, None, Some, IsSome, IfSome, IfNone};
ghost use Rattle.std.specs.Option.{option_map};
ghost use Rattle.std.specs.Ordering.{is_gt};
ghost use Rattle.ge_job_index.specs.Asked.{cut_weight, first_bearer, is_borne};
ghost use Rattle.std.specs.BTreeMap.{is_at};
ghost use Rattle.std.specs.Map.{lookup};
ghost use Rattle.ge_job_index.specs.Kept.{entries_of, noted};

use crate::index::Index;
use crate::keys::Keys;
use crate::ledger::Ledger;
use crate::row::Row;
use crate::sums::uncut;
use std::collections::BTreeMap;

// The sums of the weights of rows, by a walk.
fn totals_of<K: Ord, V: Row>(rows: &BTreeMap<K, V>) -> (u128, u128)
    ensures first { result.0 ≡ cut_weight (λ row. (V.weights row).0) rows.now.entries }
    ensures second { result.1 ≡ cut_weight (λ row. (V.weights row).1) rows.now.entries }
{
    let mut first: u128 = 0;
    let mut second: u128 = 0;
    for row in rows.values() {
        let weights = row.weights();
        first = first.saturating_add(weights.0);
        second = second.saturating_add(weights.1);
    }
    (first, second)
}

// The first of some keys.
#[tactic(auto, using(crate::proofs::Ones::one_first, crate::proofs::Ones::one_there))]
fn first_key<K: Ord>(keys: &Keys<K>) -> Option<&K>
    ensures some { IfSome result (λ key. IsSome
        (lookup (is_at (K.cmp key.now)) (entries_of keys.now))) }
    ensures least { IfSome result (λ key. (q : K) → IsSome
        (lookup (is_at (K.cmp q)) (entries_of keys.now)) → is_gt (K.cmp key.now q) ≡ false) }
    ensures none { IfNone result ((q : K) → lookup (is_at (K.cmp q)) (entries_of keys.now) ≡ None) }
{
    match keys {
        Keys::One(key, _count) => Some(key),
        Keys::Many(keys) => match keys.first_key_value() {
            Some((key, _count)) => Some(key),
            None => None,
        },
    }
}

// The first key that a ledger notes at a mark.
fn first_noted<'a, K: Ord, M: Ord>(ledger: &'a Ledger<K, M>, mark: &M) -> Option<&'a K>
    ensures some { IfSome result (λ key. IsSome (noted K.cmp M.cmp ledger.now.bearers.entries
        mark.now key.now)) }
    ensures least { IfSome result (λ key. (q : K)
        → IsSome (noted K.cmp M.cmp ledger.now.bearers.entries mark.now q)
        → is_gt (K.cmp key.now q) ≡ false) }
    ensures none { IfNone result ((q : K) → noted K.cmp M.cmp ledger.now.bearers.entries mark.now
        q ≡ None) }
{
    match ledger.bearers.get(mark) {
        Some(keys) => first_key(keys),
        None => None,
    }
}

// The first row that bears a mark, by a walk.
fn first_bearing<'a, K: Ord, V: Row>(
    rows: &'a BTreeMap<K, V>,
    mark: &V::Mark,
) -> Option<(&'a K, &'a V)>
    ensures { option_map (λ found. (found.0.now, found.1.now)) result
        ≡ first_bearer V.Mark.cmp V.marks mark.now rows.now.entries }
{
    for (key, row) in rows.iter() {
        if row.bears(mark) {
            return Some((key, row));
        }
    }
    None
}

impl<K: Ord, V: Row> Index<K, V> {
    /// The two sums of the rows' weights, each cut at 2^128 - 1.
    pub fn totals(&self) -> (u128, u128)
        ensures first { result.0 ≡ cut_weight (λ row. (V.weights row).0) self.now }
        ensures second { result.1 ≡ cut_weight (λ row. (V.weights row).1) self.now }
    {
        if self.kept.sums.whole {
            return uncut(self.kept.sums.first, self.kept.sums.second);
        }
        totals_of(&self.rows)
    }

    /// The first row, by its key, that bears a mark. It takes no memory.
    pub fn find(&self, mark: &V::Mark) -> Option<(&K, &V)>
        ensures { option_map (λ found. (found.0.now, found.1.now)) result
            ≡ first_bearer V.Mark.cmp V.marks mark.now self.now }
    {
        if !self.kept.ledger.whole {
            return first_bearing(&self.rows, mark);
        }
        let _count = self.rows.len();
        match first_noted(&self.kept.ledger, mark) {
            Some(key) => self.rows.get_key_value(key),
            None => None,
        }
    }

    /// Whether some row bears a mark. It takes no memory.
    pub fn is_borne(&self, mark: &V::Mark) -> bool
        ensures { result ≡ is_borne V.Mark.cmp V.marks mark.now self.now }
    {
        self.find(mark).is_some()
    }
}
