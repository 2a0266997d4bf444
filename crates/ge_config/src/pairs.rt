//! Lists of name=value over the complexes: complex_values, load_thresholds, the resources of a rule.

ghost use Rattle.std.specs.Prelude.{◌≡◌, OnOk, Some, [], fold};
ghost use Rattle.ge_model_rows.specs.Faults.{after_faults};
ghost use Rattle.ge_model_config.specs.Pairs.{value_for, pair_read, item_read, put_value, with_pair, values_read};
ghost use Rattle.ge_pieces.specs.Gives.{Reads};
ghost use Rattle.ge_config.specs.Fitting.{fits_by};

use crate::values::Reader;
use ge_base::Refusal;
use ge_complex::{complex_at, is_consumable, is_number_kind, value_of_text};
use ge_pieces::{before, behind, has, items_of_list, note};
use ge_rows::{Cluster, ComplexDef, Table, Text, Value};
use std::alloc::{AllocError, Global};

/// Which complexes may be named.
#[derive(Clone, Copy, PartialEq, Eq)]
pub(crate) enum Fitting {
    /// All.
    Any,
    /// Those of amounts.
    Numbers,
    /// Those that are consumed.
    Consumables,
}

fn is_fit(c: &Cluster, fitting: Fitting, name: &Text, complex: &ComplexDef) -> bool
    ensures { result ≡ fits_by c.now fitting name.now complex.now }
{
    match fitting {
        Fitting::Any => true,
        Fitting::Numbers => is_number_kind(complex.kind),
        Fitting::Consumables => is_consumable(c, name),
    }
}

fn read_for(
    alloc: Global,
    c: &Cluster,
    fitting: Fitting,
    name: Text,
    text: &[u8],
    complex: &ComplexDef,
    faults: &mut Option<Refusal>,
) -> Result<Option<(Text, Value)>, AllocError>
    ensures { Reads result faults.old faults.new
        (value_for (fits_by c.now fitting) name text.now (Some complex.now)) }
{
    note(
        faults,
        !is_fit(c, fitting, &name, complex),
        Refusal::BadValue,
    );
    let value = value_of_text(alloc, complex.kind, text)?;
    note(faults, value.is_none(), Refusal::BadValue);
    match value {
        None => Ok(None),
        Some(value) => Ok(Some((name, value))),
    }
}

/// A name with the value that a text has for it: its complex has to be there and to fit.
pub(crate) fn read_pair(
    alloc: Global,
    c: &Cluster,
    fitting: Fitting,
    name: Text,
    text: &[u8],
    faults: &mut Option<Refusal>,
) -> Result<Option<(Text, Value)>, AllocError>
    ensures { Reads result faults.old faults.new (pair_read c.now (fits_by c.now fitting)
        (name, text.now)) }
{
    match complex_at(c, &name) {
        None => {
            note(faults, true, Refusal::NoSuchObject);
            Ok(None)
        }
        Some(complex) => read_for(alloc, c, fitting, name, text, complex, faults),
    }
}

fn read_item(
    alloc: Global,
    c: &Cluster,
    fitting: Fitting,
    item: &[u8],
    faults: &mut Option<Refusal>,
) -> Result<Option<(Text, Value)>, AllocError>
    ensures { Reads result faults.old faults.new (item_read c.now
        (fits_by c.now fitting) item.now) }
{
    if !has(b'=', item) {
        note(faults, true, Refusal::BadValue);
        return Ok(None);
    }
    let name = Text::from_bytes(alloc, before(b'=', item))?;
    read_pair(alloc, c, fitting, name, behind(b'=', item), faults)
}

fn put(table: &mut Table<Text, Value>, pair: Option<(Text, Value)>) -> Result<(), AllocError>
    ensures { OnOk result (table.new ≡ put_value table.old pair) }
{
    match pair {
        None => Ok(()),
        Some((name, value)) => {
            table.insert(name, value)?;
            Ok(())
        }
    }
}

fn add_item(
    alloc: Global,
    c: &Cluster,
    fitting: Fitting,
    table: &mut Table<Text, Value>,
    item: &[u8],
    faults: &mut Option<Refusal>,
) -> Result<(), AllocError>
    ensures table { OnOk result
        (table.new ≡ put_value table.old (item_read c.now (fits_by c.now fitting) item.now).0) }
    ensures faults { OnOk result
        (faults.new ≡ after_faults faults.old (item_read c.now
        (fits_by c.now fitting) item.now).1) }
{
    let pair = read_item(alloc, c, fitting, item, faults)?;
    put(table, pair)
}

fn add_items(
    alloc: Global,
    c: &Cluster,
    fitting: Fitting,
    items: &[Text],
    faults: &mut Option<Refusal>,
) -> Result<Table<Text, Value>, AllocError>
    ensures { Reads result faults.old faults.new
        (fold (with_pair c.now (fits_by c.now fitting)) ([], []) items.now) }
{
    let mut table = Table::new(alloc);
    for item in items {
        add_item(alloc, c, fitting, &mut table, item.bytes(), faults)?;
    }
    Ok(table)
}

/// A list of name=value.
#[derive(Drop)]
pub(crate) struct Values<'a> {
    pub(crate) c: &'a Cluster,
    pub(crate) fitting: Fitting,
}

impl Reader<Table<Text, Value>> for Values<'_> {
    ghost read = { λ v. values_read v.c.now (fits_by v.c.now v.fitting) };

    fn read(
        &self,
        alloc: Global,
        text: &[u8],
        faults: &mut Option<Refusal>,
    ) -> Result<Table<Text, Value>, AllocError> {
        let items = items_of_list(alloc, text)?;
        add_items(alloc, self.c, self.fitting, items.items(), faults)
    }
}
