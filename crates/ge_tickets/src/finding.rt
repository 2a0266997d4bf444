//! Which leaf is that of a user and project.

ghost use Rattle.std.specs.Prelude.{◌≡◌, ℕ, [], ◌∷◌, IfOk, OnOk, fold, codes};
ghost use Rattle.std.specs.Option.{option_or, option_copied};
ghost use Rattle.ge_model_rows.specs.Pieces.{is_empty};
ghost use Rattle.ge_model_order.specs.ShareTables.{with_leaf, with_project, outside, scope_of_project, leaf_in, leaf_at, leaf_below, project_at, if_childless, at_leaf};
ghost use Rattle.ge_tickets.specs.Found.{with_child, with_projects, with_node_found, finder_of, places_by, line_by};

use crate::adding::{amount, raise};
use crate::nodes::Node;
use ge_rows::{List, Table, Text, Twin};
use std::alloc::{AllocError, Global};

/// The scope of what lies below no project node.
const OUTSIDE: u64 = 0;

/// How many children each node has, the project nodes by name, the leaves by scope and name, and the line of each node.
#[derive(Drop)]
pub(crate) struct LeafFinder {
    children: Table<u32, u128>,
    projects: Table<Text, u32>,
    leaves: Table<(u64, Text), u32>,
    lines: Table<u32, List<u32>>,
}

fn count_child(counts: &mut Table<u32, u128>, node: &Node<'_>) -> Result<(), AllocError>
    ensures { OnOk result (counts.new ≡ with_child counts.old node.now) }
{
    match node.parent() {
        None => Ok(()),
        Some(parent) => raise(counts, parent, 1),
    }
}

fn count_children(alloc: Global, nodes: &[Node<'_>]) -> Result<Table<u32, u128>, AllocError>
    ensures { IfOk result (λ counts. counts ≡ fold with_child [] nodes.now) }
{
    let mut counts = Table::new(alloc);
    for node in nodes {
        count_child(&mut counts, node)?;
    }
    Ok(counts)
}

fn add_project(
    alloc: Global,
    projects: &mut Table<Text, u32>,
    node: &Node<'_>,
) -> Result<(), AllocError>
    ensures { OnOk result (projects.new ≡ with_project projects.old node.now) }
{
    let row = node.row();
    if row.project {
        match projects.get(&row.name) {
            Some(_) => {}
            None => {
                projects.insert(row.name.twin(alloc)?, node.id())?;
            }
        }
    }
    Ok(())
}

fn find_projects(alloc: Global, nodes: &[Node<'_>]) -> Result<Table<Text, u32>, AllocError>
    ensures { IfOk result (λ projects. projects ≡ fold with_project [] nodes.now) }
{
    let mut projects = Table::new(alloc);
    for node in nodes {
        add_project(alloc, &mut projects, node)?;
    }
    Ok(projects)
}

fn add_leaf(
    alloc: Global,
    leaves: &mut Table<(u64, Text), u32>,
    id: u32,
    name: &Text,
    scope: u64,
) -> Result<(), AllocError>
    ensures { OnOk result (leaves.new ≡ with_leaf id name.now leaves.old scope) }
{
    let key = (scope, name.twin(alloc)?);
    match leaves.get(&key) {
        Some(_) => {}
        None => {
            leaves.insert(key, id)?;
        }
    }
    Ok(())
}

fn scope_below(project: u32) -> u64
    ensures { result ≡ scope_of_project project }
{
    u64::from(project) + 1
}

fn add_scopes(
    alloc: Global,
    leaves: &mut Table<(u64, Text), u32>,
    id: u32,
    name: &Text,
    projects: &[u32],
) -> Result<(), AllocError>
    ensures { OnOk result (leaves.new ≡ fold (λ more other. with_leaf id name.now more
        (scope_of_project other)) leaves.old projects.now) }
{
    for project in projects {
        add_leaf(alloc, leaves, id, name, scope_below(*project))?;
    }
    Ok(())
}

fn add_everywhere(
    alloc: Global,
    leaves: &mut Table<(u64, Text), u32>,
    id: u32,
    name: &Text,
    projects: &[u32],
) -> Result<(), AllocError>
    ensures { OnOk result (leaves.new ≡ with_projects id name.now projects.now leaves.old) }
{
    match projects {
        [] => add_leaf(alloc, leaves, id, name, OUTSIDE),
        [_, ..] => add_scopes(alloc, leaves, id, name, projects),
    }
}

fn add_node(
    alloc: Global,
    leaves: &mut Table<(u64, Text), u32>,
    children: &Table<u32, u128>,
    node: &Node<'_>,
) -> Result<(), AllocError>
    ensures { OnOk result (leaves.new ≡ with_node_found children.now leaves.old node.now) }
{
    let row = node.row();
    if row.project {
        Ok(())
    } else if amount(children, node.id()) == 0 {
        add_everywhere(alloc, leaves, node.id(), &row.name, node.projects())
    } else {
        Ok(())
    }
}

fn find_leaves(
    alloc: Global,
    children: &Table<u32, u128>,
    nodes: &[Node<'_>],
) -> Result<Table<(u64, Text), u32>, AllocError>
    ensures { IfOk result (λ leaves. leaves ≡ fold (with_node_found children.now) [] nodes.now) }
{
    let mut leaves = Table::new(alloc);
    for node in nodes {
        add_node(alloc, &mut leaves, children, node)?;
    }
    Ok(leaves)
}

/// What is kept of these nodes, whose lines are these.
pub(crate) fn prepare(
    alloc: Global,
    nodes: &[Node<'_>],
    lines: Table<u32, List<u32>>,
) -> Result<LeafFinder, AllocError>
    ensures { IfOk result (λ finder. finder ≡ finder_of nodes.now lines) }
{
    let children = count_children(alloc, nodes)?;
    let projects = find_projects(alloc, nodes)?;
    let leaves = find_leaves(alloc, &children, nodes)?;
    Ok(LeafFinder {
        children,
        projects,
        leaves,
        lines,
    })
}

fn leaf_named(
    alloc: Global,
    finder: &LeafFinder,
    scope: u64,
    name: &[u8],
) -> Result<Option<u32>, AllocError>
    ensures { IfOk result (λ leaf. leaf ≡ at_leaf finder.now.leaves (scope, name.now)) }
{
    let key = (scope, Text::from_bytes(alloc, name)?);
    Ok(finder.leaves.get(&key).copied())
}

// The user's own leaf in a scope, else the one named default.
fn leaf_within(
    alloc: Global,
    finder: &LeafFinder,
    scope: u64,
    user: &Text,
) -> Result<Option<u32>, AllocError>
    ensures { IfOk result (λ leaf. leaf ≡ leaf_in (places_by finder.now) scope user.now) }
{
    match leaf_named(alloc, finder, scope, user.bytes())? {
        Some(leaf) => Ok(Some(leaf)),
        None => leaf_named(alloc, finder, scope, b"default"),
    }
}

fn node_of(finder: &LeafFinder, project: &Text) -> Option<u32>
    ensures { result ≡ project_at (places_by finder.now) project.now }
{
    if project.bytes().is_empty() {
        None
    } else {
        finder.projects.get(project).copied()
    }
}

fn if_leaf(finder: &LeafFinder, id: u32) -> Option<u32>
    ensures { result ≡ if_childless (places_by finder.now) id }
{
    if amount(&finder.children, id) == 0 {
        Some(id)
    } else {
        None
    }
}

fn leaf_under(
    alloc: Global,
    finder: &LeafFinder,
    project: Option<u32>,
    user: &Text,
) -> Result<Option<u32>, AllocError>
    ensures { IfOk result (λ leaf. leaf ≡ leaf_below (places_by finder.now) project user.now) }
{
    match project {
        None => leaf_within(alloc, finder, OUTSIDE, user),
        Some(id) => match leaf_within(alloc, finder, scope_below(id), user)? {
            Some(leaf) => Ok(Some(leaf)),
            None => Ok(if_leaf(finder, id)),
        },
    }
}

/// The leaf of a user and project: below the project's node, or that node where it is a leaf; without such a node outside
/// of all projects. The user's own leaf comes before the one named default.
pub(crate) fn leaf_of(
    alloc: Global,
    finder: &LeafFinder,
    user: &Text,
    project: &Text,
) -> Result<Option<u32>, AllocError>
    ensures { IfOk result (λ leaf. leaf ≡ leaf_at (places_by finder.now) user.now project.now) }
{
    let node = node_of(finder, project);
    let leaf = leaf_under(alloc, finder, node, user)?;
    Ok(leaf)
}

/// The line from the leaf of a user and project up to the root, of no node where they have no leaf.
pub(crate) fn line_up<'a>(
    alloc: Global,
    finder: &'a LeafFinder,
    user: &Text,
    project: &Text,
) -> Result<&'a [u32], AllocError>
    ensures { IfOk result (λ line. line.now ≡ line_by finder.now user.now project.now) }
{
    match leaf_of(alloc, finder, user, project)? {
        None => Ok(&[]),
        Some(id) => match finder.lines.get(&id) {
            Some(line) => Ok(line.items()),
            None => Ok(&[]),
        },
    }
}
