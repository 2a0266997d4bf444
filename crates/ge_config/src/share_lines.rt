//! The nodes of a share tree as they are written: share_tree(5).

ghost use Rattle.std.specs.Prelude.{◌≡◌, ◌&&◌, ◌++◌, [], ◌∷◌, OnOk, IfOk, IsTrue, if◌then◌else◌, map, filter, filter_map, flat_map, is_none, nat_le, ◌^◌};
ghost use Rattle.std.specs.List.{list_all, list_any};
ghost use Rattle.std.specs.Option.{option_to_list};
ghost use Rattle.ge_collections.specs.Keyed.{at_number};
ghost use Rattle.ge_model_rows.specs.Faults.{after_faults};
ghost use Rattle.ge_model_rows.specs.Pieces.{is_digits, number_of};
ghost use Rattle.ge_model_config.specs.Shares.{id_within, id_of, child_numbers, id_cut, is_project_line, shares_of, node_from_lines, put_node, nodes_of, line_faults};
ghost use Rattle.ge_model_config.specs.Cited.{cited, has_name};
ghost use Rattle.ge_pieces.specs.Gives.{Reads};
ghost use Rattle.ge_config.specs.ShareTree.{has_short_ids};

use crate::values::{Number, Reader, is_there};
use ge_base::Refusal;
use ge_complex::{amount_in, value_of_text};
use ge_model_grammar::NodeLines;
use ge_pieces::{digits_worth, has_digits, is_a_name, is_word, items_of_list, note};
use ge_rows::{Cluster, Kind, List, ShareNode, Table, Text, Twin, Value};
use std::alloc::{AllocError, Global};

fn id_in(value: &Option<Value>) -> Option<u32>
    ensures { result ≡ id_within value.now }
{
    match value {
        None => None,
        Some(value) => u32::try_from(amount_in(value)).ok(),
    }
}

// The id of a node, below 2^32, where it has one.
fn id_of_node(alloc: Global, node: &NodeLines) -> Result<Option<u32>, AllocError>
    ensures { IfOk result (λ id. id ≡ id_of node.now) }
{
    let value = value_of_text(alloc, Kind::Int, node.id.bytes())?;
    Ok(id_in(&value))
}

// A number cut at the end of its type.
fn cut_id(digits: &[u8]) -> u32
    ensures { result ≡ id_cut (number_of digits.now) }
{
    digits_worth(digits).min(u64::from(u32::MAX)) as u32
}

fn cut_ids(alloc: Global, items: &[Text]) -> Result<List<u32>, AllocError>
    ensures { IfOk result (λ ids. ids ≡ map id_cut (map number_of (filter is_digits items.now))) }
{
    let mut ids = List::new(alloc);
    for item in items {
        if has_digits(item.bytes()) {
            ids.push(cut_id(item.bytes()))?;
        }
    }
    Ok(ids)
}

fn is_of_project(node: &NodeLines) -> bool
    ensures { result ≡ is_project_line node.now }
{
    is_word(node.sort.bytes(), b"1")
}

fn read_share(
    alloc: Global,
    node: &NodeLines,
    faults: &mut Option<Refusal>,
) -> Result<u64, AllocError>
    ensures { Reads result faults.old faults.new (shares_of node.now) }
{
    let shares = Number {
        kind: Kind::Int,
        low: 0,
        high: u64::from(u32::MAX),
    };
    shares.read(alloc, node.shares.bytes(), faults)
}

// The node, whatever its id.
fn read_node(alloc: Global, node: &NodeLines) -> Result<ShareNode, AllocError>
    ensures { IfOk result (λ read. read ≡ node_from_lines node.now) }
{
    let name = node.name.twin(alloc)?;
    let mut noted = None;
    let shares = read_share(alloc, node, &mut noted)?;
    let items = items_of_list(alloc, node.children.bytes())?;
    let children = cut_ids(alloc, items.items())?;
    Ok(ShareNode {
        name,
        project: is_of_project(node),
        shares,
        children,
    })
}

fn put_read(
    alloc: Global,
    table: &mut Table<u32, ShareNode>,
    node: &NodeLines,
) -> Result<(), AllocError>
    ensures { OnOk result (table.new ≡ put_node table.old node.now) }
{
    match id_of_node(alloc, node)? {
        None => Ok(()),
        Some(id) => {
            let read = read_node(alloc, node)?;
            table.insert(id, read)?;
            Ok(())
        }
    }
}

/// The nodes by id.
pub(crate) fn read_nodes(
    alloc: Global,
    nodes: &[NodeLines],
) -> Result<Table<u32, ShareNode>, AllocError>
    ensures { IfOk result (λ table. table ≡ nodes_of nodes.now) }
{
    let mut table = Table::new(alloc);
    for node in nodes {
        put_read(alloc, &mut table, node)?;
    }
    Ok(table)
}

fn push_id(ids: &mut Vec<u32>, id: Option<u32>) -> Result<(), AllocError>
    ensures { OnOk result (ids.new.items ≡ ids.old.items ++ option_to_list id) }
{
    if let Some(id) = id {
        ids.push(id)?;
    }
    Ok(())
}

/// The ids of the nodes that have one.
pub(crate) fn ids_of_nodes(alloc: Global, nodes: &[NodeLines]) -> Result<Vec<u32>, AllocError>
    ensures { IfOk result (λ ids. ids.items ≡ filter_map id_of nodes.now) }
{
    let mut ids = Vec::new(alloc);
    for node in nodes {
        let id = id_of_node(alloc, node)?;
        push_id(&mut ids, id)?;
    }
    Ok(ids)
}

fn are_digits(items: &[Text]) -> bool
    ensures { result ≡ list_all is_digits items.now }
{
    items.iter().all(|item| has_digits(item.bytes()))
}

// A project's node names a project.
fn note_project(c: &Cluster, node: &NodeLines, faults: &mut Option<Refusal>)
    ensures { faults.new ≡ after_faults faults.old
        (if is_project_line node.now then cited (has_name c.now.projects) (node.now.name ∷ []) else []) }
{
    if is_of_project(node) {
        note(
            faults,
            !is_there(&c.projects, &node.name),
            Refusal::NoSuchObject,
        );
    }
}

// Notes what is wrong with the values of one node.
fn note_line(
    alloc: Global,
    c: &Cluster,
    node: &NodeLines,
    faults: &mut Option<Refusal>,
) -> Result<(), AllocError>
    ensures { OnOk result (faults.new ≡ after_faults faults.old (line_faults c.now node.now)) }
{
    let id = id_of_node(alloc, node)?;
    let children = items_of_list(alloc, node.children.bytes())?;
    let has_sort = is_of_project(node) || is_word(node.sort.bytes(), b"0");
    let is_named = is_a_name(node.name.bytes());
    note(faults, id.is_none() || !has_sort, Refusal::BadValue);
    note(
        faults,
        !is_named || !are_digits(children.items()),
        Refusal::BadValue,
    );
    let _shares = read_share(alloc, node, faults)?;
    note_project(c, node, faults);
    Ok(())
}

/// Notes what is wrong with the values of nodes, each by itself.
pub(crate) fn note_lines(
    alloc: Global,
    c: &Cluster,
    nodes: &[NodeLines],
    faults: &mut Option<Refusal>,
) -> Result<(), AllocError>
    ensures { OnOk result
        (faults.new ≡ after_faults faults.old (flat_map (line_faults c.now) nodes.now)) }
{
    for node in nodes {
        note_line(alloc, c, node, faults)?;
    }
    Ok(())
}

fn is_wide(digits: &[u8]) -> bool
    ensures { result ≡ nat_le (2 ^ 32) (number_of digits.now) }
{
    digits_worth(digits) > u64::from(u32::MAX)
}

// No table has an id that is wider than its type.
#[tactic(auto, using(crate::proofs::ShareTree::wide_missing))]
fn is_missing(table: &Table<u32, ShareNode>, digits: &[u8]) -> bool
    ensures { IsTrue (has_short_ids table.now)
        → result ≡ is_none (at_number table.now (number_of digits.now)) }
{
    if is_wide(digits) {
        return true;
    }
    table.get(&cut_id(digits)).is_none()
}

fn is_missing_child(table: &Table<u32, ShareNode>, item: &Text) -> bool
    ensures { IsTrue (has_short_ids table.now) → result ≡ (is_digits item.now
        && is_none (at_number table.now (number_of item.now))) }
{
    has_digits(item.bytes()) && is_missing(table, item.bytes())
}

fn misses_some(table: &Table<u32, ShareNode>, items: &[Text]) -> bool
    ensures { IsTrue (has_short_ids table.now)
        → result ≡ list_any (λ child. is_none (at_number table.now child))
        (map number_of (filter is_digits items.now)) }
{
    for item in items {
        if is_missing_child(table, item) {
            return true;
        }
    }
    false
}

fn misses_child(
    alloc: Global,
    table: &Table<u32, ShareNode>,
    node: &NodeLines,
) -> Result<bool, AllocError>
    ensures { IsTrue (has_short_ids table.now)
        → IfOk result (λ missing. missing
        ≡ list_any (λ child. is_none (at_number table.now child)) (child_numbers node.now)) }
{
    let items = items_of_list(alloc, node.children.bytes())?;
    Ok(misses_some(table, items.items()))
}

/// Whether a child is no node of the table. A child may be a number of any width.
pub(crate) fn some_child_is_missing(
    alloc: Global,
    table: &Table<u32, ShareNode>,
    nodes: &[NodeLines],
) -> Result<bool, AllocError>
    ensures { IsTrue (has_short_ids table.now)
        → IfOk result (λ missing. missing
        ≡ list_any (λ child. is_none (at_number table.now child))
        (flat_map child_numbers nodes.now)) }
{
    for node in nodes {
        if misses_child(alloc, table, node)? {
            return Ok(true);
        }
    }
    Ok(false)
}
