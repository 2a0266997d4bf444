//! Values by the kinds of their complexes.

ghost use Rattle.std.specs.Prelude.{◌≡◌, IfOk, map};
ghost use Rattle.ge_model_rows.specs.Complexes.{pair_text};
ghost use Rattle.ge_model_config.specs.Pairs.{values_text};

use ge_complex::pair_text;
use ge_pieces::join_list;
use ge_rows::{Cluster, List, Table, Text, Value};
use std::alloc::{AllocError, Global};

fn printed_pairs(
    alloc: Global,
    c: &Cluster,
    table: &Table<Text, Value>,
) -> Result<List<Text>, AllocError>
    ensures { IfOk result (λ texts. texts ≡ map (pair_text c.now) table.now) }
{
    let mut texts = List::new(alloc);
    for (name, value) in table.iter() {
        texts.push(pair_text(alloc, c, name, value)?)?;
    }
    Ok(texts)
}

/// The values of resources by name, as `name=value` joined by commas, or `NONE` where there is none. A value is printed
/// by the kind of its complex, and one whose name is no complex by its form: see the manual page complex.
pub fn values_text(
    alloc: Global,
    c: &Cluster,
    values: &Table<Text, Value>,
) -> Result<Text, AllocError>
    ensures { IfOk result (λ text. text ≡ values_text c.now values.now) }
{
    join_list(alloc, printed_pairs(alloc, c, values)?.items())
}
