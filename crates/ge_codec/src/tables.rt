// Tables and indexes: their pairs, one behind the other.
ghost use Rattle.std.specs.Prelude.{◌≡◌, ◌++◌, ◌≤◌, length, flat_map, IfOk, OnOk, OnErr, IsTrue, None};
ghost use Rattle.std.specs.List.{list_all};
ghost use Rattle.ge_model_codec.specs.Reading.{ReadsAs, made};
ghost use Rattle.ge_model_codec.specs.Code.{is_next, is_rising, entry_at, entries_at, pair_code, table_code};
ghost use Rattle.ge_codec.specs.Fronts.{IsFront};
ghost use Rattle.ge_codec.specs.Taking.{TakesEntry, last_key};

use crate::canon::{Canon, Format, Format2};
use crate::maps::Pairs;
use crate::pairs::Fields;
use ge_model_codec::TakeFault;
use ge_rows::{Index, Row, Table, Text, Twin};
use std::alloc::{AllocError, Global};

// Whether a key stands above all keys of a map.
fn is_next<K: Ord, V, M: Pairs<K, V>>(table: &M, key: &K) -> bool
    ensures { result ≡ is_next K.cmp (last_key (M.pairs table.now)) key.now }
{
    match table.last_key() {
        Some(last) => last.cmp(key).is_lt(),
        None => true,
    }
}

// A pair behind those of the map.
fn read_entry<K: Canon + Ord + Drop, V, F: Format<V>, M: Pairs<K, V>>(
    alloc: Global,
    bytes: &[u8],
    at: usize,
    table: &M,
) -> Result<((K, V), usize), TakeFault>
    requires { at ≤ length bytes.now }
    ensures read { ReadsAs result (entry_at K.Ord.cmp K.code F.code (last_key (M.pairs table.now)) bytes.now at) }
    ensures within { IfOk result (λ p. p.1 ≤ length bytes.now) }
    ensures above { IfOk result (λ p. IsTrue (is_next K.Ord.cmp (last_key (M.pairs table.now)) p.0.0)) }
{
    let (key, mid) = K::take(alloc, bytes, at)?;
    if !is_next::<K, V, M>(table, &key) {
        return Err(TakeFault::Range(at));
    }
    let (value, end) = F::take(alloc, bytes, mid)?;
    Ok(((key, value), end))
}

// One more pair.
fn take_entry<K: Canon + Ord + Drop, V: Drop, F: Format<V>, M: Pairs<K, V>>(
    alloc: Global,
    bytes: &[u8],
    at: usize,
    table: &mut M,
) -> Result<usize, TakeFault>
    requires { at ≤ length bytes.now }
    ensures taken { TakesEntry K.Ord.cmp K.code F.code bytes.now at (M.pairs table.old) (M.pairs table.new) result }
    ensures within { IfOk result (λ end. end ≤ length bytes.now) }
{
    let ((key, value), end) = read_entry::<K, V, F, M>(alloc, bytes, at, table)?;
    table.put_last(key, value)?;
    Ok(end)
}

// So many pairs, one behind the other.
fn take_entries<K: Canon + Ord + Drop, V: Drop, F: Format<V>, M: Pairs<K, V> + Drop>(
    alloc: Global,
    bytes: &[u8],
    at: usize,
    count: u64,
) -> Result<(M, usize), TakeFault>
    requires { at ≤ length bytes.now }
    ensures read { ReadsAs (made M.pairs result) (entries_at K.Ord.cmp K.code F.code count None bytes.now at) }
    ensures within { IfOk result (λ p. p.1 ≤ length bytes.now) }
{
    let mut table = M::empty(alloc);
    let mut end = at;
    for turn in 0..count {
        match take_entry::<K, V, F, M>(alloc, bytes, end, &mut table) {
            Ok(next) => end = next,
            Err(fault) => return Err(fault),
        }
    }
    Ok((table, end))
}

// A map whose values are read in a format.
#[tactic(auto, using(crate::specs::Passing::fault_passes))]
pub(crate) fn take_table<K: Canon + Ord + Drop, V: Drop, F: Format<V>, M: Pairs<K, V> + Drop>(
    alloc: Global,
    bytes: &[u8],
    at: usize,
) -> Result<(M, usize), TakeFault>
    requires { at ≤ length bytes.now }
    ensures read { ReadsAs (made M.pairs result) ((table_code K.Ord.cmp K.code F.code).read bytes.now at) }
    ensures within { IfOk result (λ p. p.1 ≤ length bytes.now) }
{
    let (count, mid) = u64::take(alloc, bytes, at)?;
    take_entries::<K, V, F, M>(alloc, bytes, mid, count)
}

// One more pair's bytes.
fn put_entry<K: Canon, V: Canon>(key: &K, value: &V, out: &mut Text) -> Result<(), AllocError>
    ensures ok { OnOk result (out.new ≡ out.old ++ (pair_code K.code V.code).write (key.now, value.now)) }
    ensures fits { OnOk result (IsTrue ((pair_code K.code V.code).fits (key.now, value.now))) }
    ensures err { OnErr result (IsFront out.old out.new) }
{
    (key, value).put_all(out)
}

// The pairs' bytes.
#[tactic(auto, using(crate::specs::Fronts::front_is))]
fn put_entries<K: Canon + Ord, V: Canon, M: Pairs<K, V>>(
    table: &M,
    out: &mut Text,
) -> Result<(), AllocError>
    ensures ok { OnOk result (out.new ≡ out.old ++ flat_map (pair_code K.code V.code).write (M.pairs table.now)) }
    ensures fits { OnOk result (IsTrue (list_all (pair_code K.code V.code).fits (M.pairs table.now))) }
    ensures err { OnErr result (IsFront out.old out.new) }
{
    for (key, value) in table.pairs() {
        put_entry(key, value, out)?;
    }
    Ok(())
}

// A map's keys strictly rise.
fn has_rising_keys<K: Ord, V, M: Pairs<K, V>>(table: &M)
    ensures { IsTrue (is_rising K.cmp None (M.pairs table.now)) }
{
    let _length = table.count();
}

// How many pairs there are, and their bytes.
fn put_table<K: Canon + Ord, V: Canon, M: Pairs<K, V>>(
    table: &M,
    out: &mut Text,
) -> Result<(), AllocError>
    ensures ok { OnOk result (out.new ≡ out.old ++ (table_code K.Ord.cmp K.code V.code).write (M.pairs table.now)) }
    ensures fits { OnOk result (IsTrue ((table_code K.Ord.cmp K.code V.code).fits (M.pairs table.now))) }
    ensures err { OnErr result (IsFront out.old out.new) }
{
    has_rising_keys::<K, V, M>(table);
    (table.count() as u64).put(out)?;
    put_entries::<K, V, M>(table, out)
}

impl<K: Canon + Ord + Drop, V: Canon + Drop> Canon for Table<K, V> {
    ghost use Rattle.ge_model_codec.specs.Code.{table_code};
    ghost use Rattle.ge_codec.specs.Entries.{table_canonical};

    ghost code = { table_code K.Ord.cmp K.code V.code };

    ghost canonical = { table_canonical K.Ord.cmp K.code V.code K.canonical V.canonical };

    fn put(&self, out: &mut Text) -> Result<(), AllocError> {
        put_table::<K, V, Table<K, V>>(self, out)
    }

    fn take(alloc: Global, bytes: &[u8], at: usize) -> Result<(Table<K, V>, usize), TakeFault> {
        let (table, end) = take_table::<K, V, Format2, Table<K, V>>(alloc, bytes, at)?;
        Ok((table, end))
    }
}

impl<K: Canon + Ord + Twin + Drop, V: Canon + Row + Drop> Canon for Index<K, V> {
    ghost use Rattle.ge_model_codec.specs.Code.{table_code};
    ghost use Rattle.ge_codec.specs.Entries.{table_canonical};

    ghost code = { table_code K.Ord.cmp K.code V.code };

    ghost canonical = { table_canonical K.Ord.cmp K.code V.code K.canonical V.canonical };

    fn put(&self, out: &mut Text) -> Result<(), AllocError> {
        put_table::<K, V, Index<K, V>>(self, out)
    }

    fn take(alloc: Global, bytes: &[u8], at: usize) -> Result<(Index<K, V>, usize), TakeFault> {
        let (index, end) = take_table::<K, V, Format2, Index<K, V>>(alloc, bytes, at)?;
        Ok((index, end))
    }
}
