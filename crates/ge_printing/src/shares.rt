//! The share tree: see the manual page share_tree.

ghost use Rattle.std.specs.Prelude.{◌≡◌, ◌++◌, ◌∷◌, [], IfOk, OnOk, codes, decimal, flat_map, map, if◌then◌else◌};
ghost use Rattle.ge_model_rows.specs.Pieces.{list_text};
ghost use Rattle.ge_model_config.specs.Shares.{node_lines};

use crate::numbers::{decimal_text, number_list};
use ge_rows::{List, ShareNode, Table, Text};
use std::alloc::{AllocError, Global};

// A line of a name and a value.
fn put(alloc: Global, lines: &mut List<Text>, name: &[u8], value: &[u8]) -> Result<(), AllocError>
    ensures { OnOk result (lines.new ≡ lines.old ++ (name.now ++ value.now) ∷ []) }
{
    let mut line = Text::from_bytes(alloc, name)?;
    line.append(value)?;
    lines.push(line)
}

fn type_of(node: &ShareNode) -> &'static [u8]
    ensures { result.now ≡ (if node.now.project then codes "1" else codes "0") }
{
    if node.project { b"1" } else { b"0" }
}

// The five lines of a node.
fn lines_of_node(alloc: Global, id: u32, node: &ShareNode) -> Result<List<Text>, AllocError>
    ensures { IfOk result (λ lines. lines ≡ node_lines (id, node.now)) }
{
    let id = decimal_text(alloc, u128::from(id))?;
    let shares = decimal_text(alloc, u128::from(node.shares))?;
    let children = number_list(alloc, node.children.items())?;
    let mut lines = List::new(alloc);
    put(alloc, &mut lines, b"id=", id.bytes())?;
    put(alloc, &mut lines, b"name=", node.name.bytes())?;
    put(alloc, &mut lines, b"type=", type_of(node))?;
    put(alloc, &mut lines, b"shares=", shares.bytes())?;
    put(alloc, &mut lines, b"childnodes=", children.bytes())?;
    Ok(lines)
}

// Lines behind others.
fn put_all(lines: &mut List<Text>, more: List<Text>) -> Result<(), AllocError>
    ensures { OnOk result (lines.new ≡ lines.old ++ more) }
{
    for line in more.into_vec() {
        lines.push(line)?;
    }
    Ok(())
}

/// The lines of the share tree's nodes, by id.
pub(crate) fn print_shares(
    alloc: Global,
    nodes: &Table<u32, ShareNode>,
) -> Result<List<Text>, AllocError>
    ensures { IfOk result (λ lines. lines ≡ flat_map node_lines nodes.now) }
{
    let mut lines = List::new(alloc);
    for (id, node) in nodes.iter() {
        put_all(&mut lines, lines_of_node(alloc, *id, node)?)?;
    }
    Ok(lines)
}
