//! Attributes of queues, with their overrides.

ghost use Rattle.std.specs.Prelude.{◌≡◌, ◌++◌, ◌∷◌, [], IfOk, OnOk, codes, decimal, flat_map, List as Items, ℕ};
ghost use Rattle.ge_model_rows.specs.Pieces.{list_text};
ghost use Rattle.ge_model_config.specs.Cited.{printed_attribute, number_text};
ghost use Rattle.ge_model_config.specs.Pairs.{values_text};
ghost use Rattle.ge_model_config.specs.Overrides.{override_text, attr_text};

use crate::numbers::decimal_text;
use crate::values::values_text;
use ge_complex::amount_text;
use ge_pieces::join_list;
use ge_rows::{Attr, Cluster, Kind, List, Table, Text, Value};
use std::alloc::{AllocError, Global};

/// How one value of an attribute is printed.
pub(crate) trait Printer<T> {
    /// The printed value.
    ghost text: { Self → T → Items ℕ };

    /// Puts a value at the end of a line.
    fn append(&self, alloc: Global, line: &mut Text, value: &T) -> Result<(), AllocError>
        ensures { OnOk result (line.new ≡ line.old ++ text self.now value.now) };
}

/// Values of resources, as `name=value`.
#[derive(Clone, Copy)]
pub(crate) struct Values<'a> {
    /// The cluster, whose complexes give the kinds.
    pub(crate) c: &'a Cluster,
}

impl Printer<Table<Text, Value>> for Values<'_> {
    ghost text = { λ p. values_text p.c.now };

    fn append(
        &self,
        alloc: Global,
        line: &mut Text,
        value: &Table<Text, Value>,
    ) -> Result<(), AllocError> {
        line.append(values_text(alloc, self.c, value)?.bytes())
    }
}

/// Lists of names.
#[derive(Clone, Copy)]
pub(crate) struct Names;

impl Printer<List<Text>> for Names {
    ghost text = { λ p. list_text };

    fn append(&self, alloc: Global, line: &mut Text, value: &List<Text>) -> Result<(), AllocError> {
        line.append(join_list(alloc, value.items())?.bytes())
    }
}

/// Plain numbers.
#[derive(Clone, Copy)]
pub(crate) struct Numbers;

impl Printer<u64> for Numbers {
    ghost text = { λ p. decimal };

    fn append(&self, alloc: Global, line: &mut Text, value: &u64) -> Result<(), AllocError> {
        line.append(decimal_text(alloc, u128::from(*value))?.bytes())
    }
}

/// Amounts of a kind.
#[derive(Clone, Copy)]
pub(crate) struct Amounts {
    /// The kind.
    pub(crate) kind: Kind,
}

impl Printer<u64> for Amounts {
    ghost text = { λ p. number_text p.kind };

    fn append(&self, alloc: Global, line: &mut Text, value: &u64) -> Result<(), AllocError> {
        line.append(amount_text(alloc, self.kind, *value)?.bytes())
    }
}

fn append_override<T, P: Printer<T>>(
    alloc: Global,
    line: &mut Text,
    printer: &P,
    name: &Text,
    value: &T,
) -> Result<(), AllocError>
    ensures { OnOk result (line.new
        ≡ line.old ++ override_text (P.text printer.now) (name.now, value.now)) }
{
    line.append(b",[")?;
    line.append(name.bytes())?;
    line.push(b'=')?;
    printer.append(alloc, line, value)?;
    line.push(b']')
}

fn append_overrides<T, P: Printer<T>>(
    alloc: Global,
    line: &mut Text,
    printer: &P,
    overrides: &[(Text, T)],
) -> Result<(), AllocError>
    ensures { OnOk result (line.new
        ≡ line.old ++ flat_map (override_text (P.text printer.now)) overrides.now) }
{
    for (name, value) in overrides {
        append_override(alloc, line, printer, name, value)?;
    }
    Ok(())
}

/// The line of an attribute: its value, and behind it the overrides as they were written.
pub(crate) fn put_attr<T, P: Printer<T>>(
    alloc: Global,
    lines: &mut List<Text>,
    attribute: &[u8],
    attr: &Attr<T>,
    printer: &P,
) -> Result<(), AllocError>
    ensures { OnOk result (lines.new
        ≡ lines.old ++ printed_attribute attribute.now (attr_text (P.text printer.now) attr.now)
        ∷ []) }
{
    let mut line = Text::from_bytes(alloc, attribute)?;
    line.push(b' ')?;
    printer.append(alloc, &mut line, &attr.plain)?;
    append_overrides(alloc, &mut line, printer, attr.overrides.items())?;
    lines.push(line)
}
