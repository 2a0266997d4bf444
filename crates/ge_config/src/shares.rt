//! The share tree: share_tree(5).

ghost use Rattle.std.specs.Prelude.{◌≡◌, OnOk, IfOk, IsTrue, ◌++◌, [], not, flat_map};
ghost use Rattle.ge_model_rows.specs.Faults.{first_fault, after_faults};
ghost use Rattle.ge_model_rows.specs.Pieces.{is_empty};
ghost use Rattle.ge_model_config.specs.Shares.{all_children, depth_faults, line_faults, node_faults, tree_faults, below_projects as all_below_projects, shares_item};
ghost use Rattle.ge_pieces.specs.Gives.{Reads};
ghost use Rattle.ge_config.specs.ShareTree.{has_short_ids, nodes_refused, share_faults};

use crate::sets::{IdSet, are_ids_different};
use crate::share_lines::{ids_of_nodes, note_lines, read_nodes, some_child_is_missing};
use crate::share_scopes::scopes_differ;
use crate::share_tree::{
    Nodes, all_below, children_of_all, goes_round, has_no_project, have_one_parent, is_deep,
    projects_in,
};
use ge_base::Refusal;
use ge_limits::SHARE_NODES;
use ge_model_grammar::NodeLines;
use ge_pieces::note;
use ge_rows::{Cluster, Item};
use std::alloc::{AllocError, Global};

// No cycle, and then no more than 16 levels.
fn note_depth(
    alloc: Global,
    nodes: &Nodes,
    children: &[u32],
    faults: &mut Option<Refusal>,
) -> Result<(), AllocError>
    ensures { children.now ≡ all_children nodes.now
        → OnOk result (faults.new ≡ after_faults faults.old (depth_faults nodes.now)) }
{
    let below_root = all_below(alloc, nodes, children, &[0])?;
    if goes_round(nodes, &below_root) {
        note(faults, true, Refusal::Cycle);
        return Ok(());
    }
    let deep = is_deep(alloc, nodes)?;
    note(faults, deep, Refusal::Limit);
    Ok(())
}

// What is asked of nodes that nothing else refuses.
fn note_shape(
    alloc: Global,
    nodes: &Nodes,
    children: &[u32],
    owned: &IdSet,
    faults: &mut Option<Refusal>,
) -> Result<(), AllocError>
    ensures { children.now ≡ all_children nodes.now → OnOk result
        (faults.new ≡ after_faults faults.old (tree_faults nodes.now owned.now [])) }
{
    let differ = scopes_differ(alloc, nodes, children, owned)?;
    if !differ {
        note(faults, true, Refusal::BadValue);
        return Ok(());
    }
    note_depth(alloc, nodes, children, faults)
}

// What the ids, the children and the projects make wrong.
fn note_nodes(
    alloc: Global,
    lines: &[NodeLines],
    nodes: &Nodes,
    children: &[u32],
    owned: &IdSet,
    faults: &mut Option<Refusal>,
) -> Result<(), AllocError>
    ensures { IsTrue (has_short_ids nodes.now) → children.now ≡ all_children nodes.now → OnOk result
        (faults.new ≡ after_faults faults.old (node_faults lines.now nodes.now owned.now)) }
{
    let ids = ids_of_nodes(alloc, lines)?;
    let are_different = are_ids_different(alloc, &ids)?;
    let is_missing = some_child_is_missing(alloc, nodes, lines)?;
    let is_tree = have_one_parent(alloc, nodes, children)?;
    note(faults, !are_different, Refusal::BadValue);
    note(faults, is_missing, Refusal::NoSuchObject);
    note(faults, !is_tree, Refusal::BadValue);
    note(
        faults,
        !has_no_project(nodes, owned.items()),
        Refusal::BadValue,
    );
    Ok(())
}

// What refuses the nodes, each by itself and all together.
fn found_faults(
    alloc: Global,
    c: &Cluster,
    lines: &[NodeLines],
    nodes: &Nodes,
    children: &[u32],
    owned: &IdSet,
) -> Result<Option<Refusal>, AllocError>
    ensures { IsTrue (has_short_ids nodes.now) → children.now ≡ all_children nodes.now
        → IfOk result (λ found. found ≡ first_fault (flat_map (line_faults c.now) lines.now
        ++ node_faults lines.now nodes.now owned.now)) }
{
    let mut found = None;
    note_lines(alloc, c, lines, &mut found)?;
    note_nodes(alloc, lines, nodes, children, owned, &mut found)?;
    Ok(found)
}

// What the nodes are asked, where it is known which are below projects.
#[tactic(auto, using(crate::proofs::Noted::tree_asked, crate::proofs::Noted::tree_refused))]
fn note_owned(
    alloc: Global,
    c: &Cluster,
    lines: &[NodeLines],
    nodes: &Nodes,
    children: &[u32],
    owned: &IdSet,
    faults: &mut Option<Refusal>,
) -> Result<(), AllocError>
    ensures { IsTrue (has_short_ids nodes.now) → children.now ≡ all_children nodes.now → OnOk result
        (faults.new ≡ after_faults faults.old (nodes_refused c.now lines.now nodes.now owned.now)) }
{
    match found_faults(alloc, c, lines, nodes, children, owned)? {
        Some(first) => {
            note(faults, true, first);
            Ok(())
        }
        None => note_shape(alloc, nodes, children, owned, faults),
    }
}

// The nodes below those of projects.
fn below_projects(alloc: Global, nodes: &Nodes, children: &[u32]) -> Result<IdSet, AllocError>
    ensures { children.now ≡ all_children nodes.now
        → IfOk result (λ owned. owned ≡ all_below_projects nodes.now) }
{
    let projects = projects_in(alloc, nodes)?;
    let owned = all_below(alloc, nodes, children, &projects)?;
    Ok(owned)
}

// Names, and then cycles and levels, are asked of nodes that nothing else refuses.
fn note_tree(
    alloc: Global,
    c: &Cluster,
    lines: &[NodeLines],
    nodes: &Nodes,
    faults: &mut Option<Refusal>,
) -> Result<(), AllocError>
    ensures { IsTrue (has_short_ids nodes.now) → OnOk result (faults.new ≡ after_faults faults.old
        (nodes_refused c.now lines.now nodes.now (all_below_projects nodes.now))) }
{
    let children = children_of_all(alloc, nodes)?;
    let owned = below_projects(alloc, nodes, &children)?;
    note_owned(alloc, c, lines, nodes, &children, &owned, faults)
}

fn has_nodes(nodes: &Nodes) -> bool
    ensures { result ≡ not (is_empty nodes.now) }
{
    nodes.len() != 0
}

// Notes what refuses a share tree.
fn note_shares(
    alloc: Global,
    c: &Cluster,
    adding: bool,
    lines: &[NodeLines],
    nodes: &Nodes,
    faults: &mut Option<Refusal>,
) -> Result<(), AllocError>
    ensures { IsTrue (has_short_ids nodes.now) → OnOk result (faults.new
        ≡ after_faults faults.old (share_faults c.now adding lines.now nodes.now)) }
{
    note(faults, adding && has_nodes(&c.shares), Refusal::Exists);
    note_tree(alloc, c, lines, nodes, faults)?;
    note(faults, lines.len() > SHARE_NODES, Refusal::Limit);
    Ok(())
}

/// The share tree, added where there is none (share_tree(5)).
///
/// # Refusals
///
/// Exists where one is added and there is one. BadValue where a value is none, an id comes twice, a node but the root isn't
/// the child of just one, a project is below one, or names in a scope don't differ. NoSuchObject where a child or a project
/// isn't there. Cycle where nodes go round. Limit above 16 levels or 10,000 nodes. Names, cycles and levels are asked of
/// nodes that nothing else refuses.
#[tactic(auto, unfolding(ge_model_config::specs::Shares::shares_item))]
pub fn read_shares(
    alloc: Global,
    c: &Cluster,
    adding: bool,
    lines: &[NodeLines],
    faults: &mut Option<Refusal>,
) -> Result<Item, AllocError>
    ensures { Reads result faults.old faults.new (shares_item c.now adding lines.now) }
{
    let nodes = read_nodes(alloc, lines)?;
    note_shares(alloc, c, adding, lines, &nodes, faults)?;
    Ok(Item::Shares(nodes))
}
