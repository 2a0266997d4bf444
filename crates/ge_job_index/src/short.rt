// The short rows that an index lends.
ghost use Rattle.std.specs.Prelude.{IfSome};
ghost use Rattle.std.specs.BTreeMap.{is_at};
ghost use Rattle.std.specs.Map.{lookup};
ghost use Rattle.ge_job_index.specs.Short.{AreShort, AreShown};

use crate::index::Index;
use crate::row::Row;
use crate::short_row::Shorts;
use crate::short_rows::ShortRows;
use std::collections::BTreeMap;

// Short rows that are those of the rows, lent.
fn lend<'a, K: Ord, V: Row>(
    rows: &BTreeMap<K, V>,
    shorts: &'a ShortRows<K, V::Label, V::Facts>,
) -> Shorts<'a, K, V::Facts>
    ensures { AreShown K.cmp V.Label.cmp V.labels V.short shorts.now.numbers.entries
        shorts.now.bound shorts.now.rows.entries
        (λ q. lookup (is_at (K.cmp q)) rows.now.entries)
        → AreShort K.cmp V.Label.cmp V.labels V.short result.rows.now.entries result.bound
        rows.now.entries }
{
    let _rows = rows.len();
    let _shorts = shorts.rows.len();
    Shorts {
        rows: &shorts.rows,
        bound: shorts.bound,
    }
}

impl<K: Ord, V: Row> Index<K, V> {
    /// The short row of each row, by the keys of the index. There are none where the type of the rows keeps none, and
    /// where there was no memory for them once.
    pub fn shorts(&self) -> Option<Shorts<'_, K, V::Facts>>
        ensures { IfSome result (λ shorts. AreShort K.cmp V.Label.cmp V.labels V.short
            shorts.rows.now.entries shorts.bound self.now) }
    {
        match &self.shorts {
            Some(shorts) => Some(lend(&self.rows, shorts)),
            None => None,
        }
    }
}
