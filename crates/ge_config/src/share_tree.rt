//! The shape of a share tree: which nodes are below which, and how deep it is. A walk meets each node once.

ghost use Rattle.std.specs.Prelude.{◌≡◌, if◌then◌else◌, IfOk, OnOk, [], ◌∷◌, ◌++◌, ◌==◌, ◌||◌, ◌&&◌, not, fold, map, filter, filter_map, flat_map};
ghost use Rattle.std.specs.List.{list_all, list_any};
ghost use Rattle.std.specs.Map.{keys_of};
ghost use Rattle.std.specs.Option.{option_map, option_to_list};
ghost use Rattle.ge_model_rows.specs.Pieces.{is_empty, lists_number, each_number_once};
ghost use Rattle.ge_model_config.specs.Complexes.{are_distinct};
ghost use Rattle.ge_model_config.specs.Shares.{children_at, is_project_at, all_children, reached_nodes, below_all, has_one_parent, projects_in, has_no_project, user_name, names_differ, ids_outside, goes_round, level_below, is_deep};
ghost use Rattle.ge_config.specs.ShareTree.{with_child, met_children};

use crate::sets::{IdSet, are_texts_distinct};
use ge_limits::SHARE_LEVELS;
use ge_rows::{ShareNode, Table};
use std::alloc::{AllocError, Global};

/// The nodes of a share tree by id.
pub(crate) type Nodes = Table<u32, ShareNode>;

fn push_all(ids: &mut Vec<u32>, more: &[u32]) -> Result<(), AllocError>
    ensures { OnOk result (ids.new.items ≡ ids.old.items ++ more.now) }
{
    for id in more {
        ids.push(*id)?;
    }
    Ok(())
}

/// All children, each as often as it is one.
pub(crate) fn children_of_all(alloc: Global, nodes: &Nodes) -> Result<Vec<u32>, AllocError>
    ensures { IfOk result (λ children. children.items ≡ all_children nodes.now) }
{
    let mut children = Vec::new(alloc);
    for node in nodes.iter() {
        push_all(&mut children, node.1.children.items())?;
    }
    Ok(children)
}

/// The children of a node, none where it isn't there.
pub(crate) fn children_at(nodes: &Nodes, id: u32) -> &[u32]
    ensures { result.now ≡ children_at nodes.now id }
{
    match nodes.get(&id) {
        None => &[],
        Some(node) => node.children.items(),
    }
}

fn is_of_project(nodes: &Nodes, id: u32) -> bool
    ensures { result ≡ is_project_at nodes.now id }
{
    match nodes.get(&id) {
        None => false,
        Some(node) => node.project,
    }
}

// The children of these nodes, each once.
#[tactic(auto, using(crate::proofs::ShareTree::once_more))]
fn children_once(alloc: Global, nodes: &Nodes, ids: &[u32]) -> Result<IdSet, AllocError>
    ensures { IfOk result (λ met. met ≡ each_number_once (flat_map
        (children_at nodes.now) ids.now)) }
{
    let mut met = IdSet::new(alloc);
    for id in ids {
        met.add_all(children_at(nodes, *id))?;
    }
    Ok(met)
}

// The nodes met, and all below them: place by place, the children of a node join those met.
#[tactic(auto, using(crate::proofs::ShareTree::reached_step))]
fn reach(nodes: &Nodes, places: usize, met: &mut IdSet) -> Result<(), AllocError>
    ensures { OnOk result (met.new ≡ reached_nodes places nodes.now met.old 0) }
{
    for place in 0..places {
        match met.get(place) {
            None => return Ok(()),
            Some(id) => met.add_all(children_at(nodes, id))?,
        }
    }
    Ok(())
}

/// The nodes below these, each once. `children` are all children of the tree.
pub(crate) fn all_below(
    alloc: Global,
    nodes: &Nodes,
    children: &[u32],
    ids: &[u32],
) -> Result<IdSet, AllocError>
    ensures { children.now ≡ all_children nodes.now
        → IfOk result (λ met. met ≡ below_all nodes.now ids.now) }
{
    let mut met = children_once(alloc, nodes, ids)?;
    reach(nodes, children.len(), &mut met)?;
    Ok(met)
}

fn push_project(nodes: &Nodes, ids: &mut Vec<u32>, id: u32) -> Result<(), AllocError>
    ensures { OnOk result (ids.new.items
        ≡ ids.old.items ++ (if is_project_at nodes.now id then id ∷ [] else [])) }
{
    if is_of_project(nodes, id) {
        ids.push(id)?;
    }
    Ok(())
}

/// The nodes of projects.
pub(crate) fn projects_in(alloc: Global, nodes: &Nodes) -> Result<Vec<u32>, AllocError>
    ensures { IfOk result (λ ids. ids.items ≡ projects_in nodes.now) }
{
    let mut ids = Vec::new(alloc);
    for id in nodes.keys() {
        push_project(nodes, &mut ids, *id)?;
    }
    Ok(ids)
}

fn has_project(nodes: &Nodes, ids: &[u32]) -> bool
    ensures { result ≡ list_any (is_project_at nodes.now) ids.now }
{
    ids.iter().any(|id| is_of_project(nodes, *id))
}

/// Whether no project's node is among these.
pub(crate) fn has_no_project(nodes: &Nodes, ids: &[u32]) -> bool
    ensures { result ≡ has_no_project nodes.now ids.now }
{
    !has_project(nodes, ids)
}

fn add_child(met: &mut IdSet, doubled: &mut IdSet, child: u32) -> Result<(), AllocError>
    ensures { OnOk result ((met.new, doubled.new) ≡ with_child (met.old, doubled.old) child) }
{
    if !met.add(child)? {
        doubled.add(child)?;
    }
    Ok(())
}

// The nodes that are children, and those that are one twice.
fn meet_children(alloc: Global, children: &[u32]) -> Result<(IdSet, IdSet), AllocError>
    ensures { IfOk result (λ met. (met.0, met.1) ≡ met_children children.now) }
{
    let mut met = IdSet::new(alloc);
    let mut doubled = IdSet::new(alloc);
    for child in children {
        add_child(&mut met, &mut doubled, *child)?;
    }
    Ok((met, doubled))
}

fn is_met_once(met: &IdSet, doubled: &IdSet, id: u32) -> bool
    ensures { result ≡ (id == 0 || lists_number met.now id && not (lists_number doubled.now id)) }
{
    id == 0 || met.has(id) && !doubled.has(id)
}

fn are_met_once(met: &IdSet, doubled: &IdSet, nodes: &Nodes) -> bool
    ensures { result ≡ list_all
        (λ id. id == 0 || lists_number met.now id && not (lists_number doubled.now id))
        (keys_of nodes.now) }
{
    for id in nodes.keys() {
        if !is_met_once(met, doubled, *id) {
            return false;
        }
    }
    true
}

/// Whether each node but the root is the child of just one.
pub(crate) fn have_one_parent(
    alloc: Global,
    nodes: &Nodes,
    children: &[u32],
) -> Result<bool, AllocError>
    ensures { IfOk result (λ one. one
        ≡ list_all (has_one_parent children.now) (keys_of nodes.now)) }
{
    let (met, doubled) = meet_children(alloc, children)?;
    let one = are_met_once(&met, &doubled, nodes);
    Ok(one)
}

/// The name of a node, unless it is a project's.
pub(crate) fn user_name(nodes: &Nodes, id: u32) -> Option<&[u8]>
    ensures { option_map (λ name. name.now) result ≡ user_name nodes.now id }
{
    match nodes.get(&id) {
        None => None,
        Some(node) => {
            if node.project {
                None
            } else {
                Some(node.name.bytes())
            }
        }
    }
}

fn push_user<'a>(nodes: &'a Nodes, names: &mut Vec<&'a [u8]>, id: u32) -> Result<(), AllocError>
    ensures { OnOk result (map (λ word. word.now) names.new.items
        ≡ map (λ word. word.now) names.old.items ++ option_to_list (user_name nodes.now id)) }
{
    match user_name(nodes, id) {
        None => Ok(()),
        Some(name) => {
            names.push(name)?;
            Ok(())
        }
    }
}

/// The names of these nodes, projects left aside.
#[tactic(auto, using(crate::proofs::ShareTree::names_listed, crate::proofs::ShareTree::names_more))]
pub(crate) fn user_names<'a>(
    alloc: Global,
    nodes: &'a Nodes,
    ids: &[u32],
) -> Result<Vec<&'a [u8]>, AllocError>
    ensures { IfOk result (λ names. map (λ name. name.now) names.items
        ≡ filter_map (user_name nodes.now) ids.now) }
{
    let mut names = Vec::new(alloc);
    for id in ids {
        push_user(nodes, &mut names, *id)?;
    }
    Ok(names)
}

/// Whether the names of these nodes, projects left aside, differ.
pub(crate) fn names_differ(alloc: Global, nodes: &Nodes, ids: &[u32]) -> Result<bool, AllocError>
    ensures { IfOk result (λ differ. differ ≡ names_differ nodes.now ids.now) }
{
    let names = user_names(alloc, nodes, ids)?;
    let differ = are_texts_distinct(alloc, &names)?;
    Ok(differ)
}

fn push_outside(part: &IdSet, ids: &mut Vec<u32>, id: u32) -> Result<(), AllocError>
    ensures { OnOk result (ids.new.items
        ≡ ids.old.items ++ (if not (lists_number part.now id) then id ∷ [] else [])) }
{
    if !part.has(id) {
        ids.push(id)?;
    }
    Ok(())
}

/// The nodes that are none of these.
pub(crate) fn nodes_outside(
    alloc: Global,
    nodes: &Nodes,
    part: &IdSet,
) -> Result<Vec<u32>, AllocError>
    ensures { IfOk result (λ ids. ids.items ≡ ids_outside part.now (keys_of nodes.now)) }
{
    let mut ids = Vec::new(alloc);
    for id in nodes.keys() {
        push_outside(part, &mut ids, *id)?;
    }
    Ok(ids)
}

fn is_reached(below_root: &IdSet, id: u32) -> bool
    ensures { result ≡ (id == 0 || lists_number below_root.now id) }
{
    id == 0 || below_root.has(id)
}

fn are_reached(below_root: &IdSet, nodes: &Nodes) -> bool
    ensures { result ≡ list_all (λ id. id == 0 || lists_number below_root.now id)
        (keys_of nodes.now) }
{
    for id in nodes.keys() {
        if !is_reached(below_root, *id) {
            return false;
        }
    }
    true
}

/// Whether nodes go round, each of which has one parent: where the root is a child, or doesn't reach all others.
pub(crate) fn goes_round(nodes: &Nodes, below_root: &IdSet) -> bool
    ensures { result ≡ goes_round nodes.now below_root.now }
{
    below_root.has(0) || !are_reached(below_root, nodes)
}

#[tactic(auto, using(crate::proofs::ShareTree::level_more))]
fn next_level(alloc: Global, nodes: &Nodes, ids: &[u32]) -> Result<Vec<u32>, AllocError>
    ensures { IfOk result (λ below. below.items ≡ flat_map (children_at nodes.now) ids.now) }
{
    let mut below = Vec::new(alloc);
    for id in ids {
        push_all(&mut below, children_at(nodes, *id))?;
    }
    Ok(below)
}

/// Whether the tree is more than 16 levels deep. It is asked where no nodes go round, and then each is met once.
pub(crate) fn is_deep(alloc: Global, nodes: &Nodes) -> Result<bool, AllocError>
    ensures { IfOk result (λ deep. deep ≡ is_deep nodes.now) }
{
    let mut level = Vec::new(alloc);
    level.push(0)?;
    let mut levels = SHARE_LEVELS + 1;
    while levels > 0 {
        level = next_level(alloc, nodes, &level)?;
        levels -= 1;
    }
    Ok(!level.is_empty())
}
