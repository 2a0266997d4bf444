//! Whether names differ in each scope of a share tree: share_tree(5).
//!
//! A scope is what is below one project, or what is below none. The root may be the child of many nodes while nothing
//! asks yet whether nodes go round. So what is below a project is walked without passing the root, and what is below the
//! root once for all projects: no node with one parent is walked twice.

ghost use Rattle.std.specs.Prelude.{◌≡◌, [], OnOk, IfOk, fold, filter_map};
ghost use Rattle.std.specs.List.{list_all};
ghost use Rattle.ge_model_rows.specs.Pieces.{with_text};
ghost use Rattle.ge_model_config.specs.Shares.{all_children, children_at as all_children_at, nodes_below, names_differ as are_names_different, scopes_differ as are_scopes_different, user_name as name_of_user};
ghost use Rattle.ge_config.specs.ShareTree.{walked, below_past, part_below as all_of_part, root_scope as all_of_root, fits_beside as is_fitting, part_differs as are_parts_different};

use crate::sets::{IdSet, TextSet};
use crate::share_tree::{
    Nodes, all_below, children_at, names_differ, nodes_outside, projects_in, user_name, user_names,
};
use std::alloc::{AllocError, Global};

/// The root and what is below it: the nodes, their names, and whether these differ.
#[derive(Drop)]
struct RootScope<'a> {
    ids: IdSet,
    names: TextSet<'a>,
    differ: bool,
}

fn names_among<'a>(alloc: Global, nodes: &'a Nodes, ids: &[u32]) -> Result<TextSet<'a>, AllocError>
    ensures { IfOk result (λ names. names
        ≡ fold with_text [] (filter_map (name_of_user nodes.now) ids.now)) }
{
    let listed = user_names(alloc, nodes, ids)?;
    let mut names = TextSet::new(alloc);
    names.add_all(&listed)?;
    Ok(names)
}

fn root_scope<'a>(
    alloc: Global,
    nodes: &'a Nodes,
    children: &[u32],
) -> Result<RootScope<'a>, AllocError>
    ensures ids { children.now ≡ all_children nodes.now
        → IfOk result (λ root. root.ids ≡ all_of_root nodes.now) }
    ensures names { IfOk result (λ root. root.names
        ≡ fold with_text [] (filter_map (name_of_user nodes.now) root.ids)) }
    ensures differ { IfOk result (λ root. root.differ ≡ are_names_different nodes.now root.ids) }
{
    let mut ids = all_below(alloc, nodes, children, &[0])?;
    ids.add(0)?;
    let differ = names_differ(alloc, nodes, ids.items())?;
    let names = names_among(alloc, nodes, ids.items())?;
    Ok(RootScope { ids, names, differ })
}

fn children_past(nodes: &Nodes, id: u32) -> &[u32]
    ensures { result.now ≡ below_past (all_children_at nodes.now) id }
{
    if id == 0 {
        return &[];
    }
    children_at(nodes, id)
}

// The nodes met, and all below them, the root not passed.
#[tactic(auto, using(crate::proofs::Reached::walked_step))]
fn reach_past(nodes: &Nodes, places: usize, met: &mut IdSet) -> Result<(), AllocError>
    ensures { OnOk result
        (met.new ≡ walked (below_past (all_children_at nodes.now)) places met.old 0) }
{
    for place in 0..places {
        match met.get(place) {
            None => return Ok(()),
            Some(id) => met.add_all(children_past(nodes, id))?,
        }
    }
    Ok(())
}

// What is below a node, the root not passed.
fn part_below(alloc: Global, nodes: &Nodes, children: &[u32], id: u32) -> Result<IdSet, AllocError>
    ensures { children.now ≡ all_children nodes.now
        → IfOk result (λ part. part ≡ all_of_part nodes.now id) }
{
    let mut part = IdSet::new(alloc);
    part.add_all(children_at(nodes, id))?;
    reach_past(nodes, children.len(), &mut part)?;
    Ok(part)
}

fn fits_beside(nodes: &Nodes, root: &RootScope<'_>, id: u32) -> bool
    ensures { result ≡ is_fitting (name_of_user nodes.now) root.now.ids root.now.names id }
{
    if root.ids.has(id) {
        return true;
    }
    match user_name(nodes, id) {
        None => true,
        Some(name) => !root.names.has(name),
    }
}

fn all_fit(nodes: &Nodes, root: &RootScope<'_>, ids: &[u32]) -> bool
    ensures { result
        ≡ list_all (is_fitting (name_of_user nodes.now) root.now.ids root.now.names) ids.now }
{
    ids.iter().all(|id| fits_beside(nodes, root, *id))
}

// Where a part has the root, what is below that belongs to its scope too.
fn part_differs(
    alloc: Global,
    nodes: &Nodes,
    root: &RootScope<'_>,
    part: &IdSet,
) -> Result<bool, AllocError>
    ensures { IfOk result (λ differ. differ ≡ are_parts_different nodes.now
        root.now.ids root.now.names root.now.differ part.now) }
{
    let differ = names_differ(alloc, nodes, part.items())?;
    Ok(differ && (!part.has(0) || root.differ && all_fit(nodes, root, part.items())))
}

fn scope_differs(
    alloc: Global,
    nodes: &Nodes,
    children: &[u32],
    root: &RootScope<'_>,
    id: u32,
) -> Result<bool, AllocError>
    ensures { children.now ≡ all_children nodes.now → IfOk result (λ differ. differ
        ≡ are_parts_different nodes.now root.now.ids root.now.names root.now.differ
        (all_of_part nodes.now id)) }
{
    let part = part_below(alloc, nodes, children, id)?;
    let differ = part_differs(alloc, nodes, root, &part)?;
    Ok(differ)
}

fn parts_differ(
    alloc: Global,
    nodes: &Nodes,
    children: &[u32],
    root: &RootScope<'_>,
    projects: &[u32],
) -> Result<bool, AllocError>
    ensures { children.now ≡ all_children nodes.now → IfOk result (λ differ. differ
        ≡ list_all (λ id. are_parts_different nodes.now root.now.ids root.now.names
        root.now.differ (all_of_part nodes.now id)) projects.now) }
{
    for id in projects {
        if !scope_differs(alloc, nodes, children, root, *id)? {
            return Ok(false);
        }
    }
    Ok(true)
}

// What is below each of these projects is a scope.
fn projects_differ(
    alloc: Global,
    nodes: &Nodes,
    children: &[u32],
    projects: &[u32],
) -> Result<bool, AllocError>
    ensures { children.now ≡ all_children nodes.now → IfOk result (λ differ. differ
        ≡ list_all (λ id. are_names_different nodes.now (nodes_below nodes.now id)) projects.now) }
{
    let root = root_scope(alloc, nodes, children)?;
    let differ = parts_differ(alloc, nodes, children, &root, projects)?;
    Ok(differ)
}

/// Whether names differ in the scope of each project, and in what is below none. `children` are all children of the
/// tree, and `owned` the nodes below projects.
pub(crate) fn scopes_differ(
    alloc: Global,
    nodes: &Nodes,
    children: &[u32],
    owned: &IdSet,
) -> Result<bool, AllocError>
    ensures { children.now ≡ all_children nodes.now
        → IfOk result (λ differ. differ ≡ are_scopes_different nodes.now owned.now) }
{
    let outside = nodes_outside(alloc, nodes, owned)?;
    let projects = projects_in(alloc, nodes)?;
    let differ = names_differ(alloc, nodes, &outside)?;
    if !differ {
        return Ok(false);
    }
    let differ = projects_differ(alloc, nodes, children, &projects)?;
    Ok(differ)
}
