//! The walk of the share tree: which nodes are entered, in which order, and the line of each.

ghost use Rattle.std.specs.Prelude.{◌≡◌, [], IfOk, OnOk};
ghost use Rattle.std.specs.Option.{option_copied};
ghost use Rattle.ge_model_order.specs.ShareTree.{entered, tree_of};
ghost use Rattle.ge_tickets.specs.Nodes.{lined, row_to_line, walk_of, with_line};

use crate::nodes::{Node, copy_of, led_by, projects_under};
use ge_limits::SHARE_LEVELS;
use ge_rows::{Cluster, List, ShareNode, Table};
use std::alloc::{AllocError, Global};

/// The nodes in the order in which they were entered, each before those below it, and by id the line of each: itself and
/// the nodes above it.
#[derive(Drop)]
pub(crate) struct Walk<'a> {
    pub(crate) order: List<Node<'a>>,
    pub(crate) lines: Table<u32, List<u32>>,
}

fn row_to_enter<'a>(
    rows: &'a Table<u32, ShareNode>,
    walk: &Walk<'a>,
    id: u32,
) -> Option<&'a ShareNode>
    ensures { option_copied result ≡ row_to_line rows.now walk.now id }
{
    match walk.lines.get(&id) {
        Some(_) => None,
        None => rows.get(&id),
    }
}

fn put_node<'a>(
    alloc: Global,
    walk: &mut Walk<'a>,
    id: u32,
    row: &'a ShareNode,
    above: &[u32],
    projects: &[u32],
) -> Result<(), AllocError>
    ensures { OnOk result (walk.new ≡ with_line walk.old
        (entered id row.now above.now projects.now)) }
{
    let line = led_by(alloc, id, above)?;
    let above = copy_of(alloc, above)?;
    let projects = copy_of(alloc, projects)?;
    walk.lines.insert(id, line)?;
    walk.order.push(Node::new(id, row, above, projects))?;
    Ok(())
}

/// Enters a node and what lies below it, at most so many levels: the tree's bound, 16, is the depth of the calls.
#[tactic(auto, using(crate::proofs::Walked::walk_stays, crate::proofs::Walked::walk_ends, crate::proofs::Walked::walk_goes_on))]
fn enter<'a>(
    alloc: Global,
    rows: &'a Table<u32, ShareNode>,
    levels: usize,
    above: &[u32],
    projects: &[u32],
    walk: &mut Walk<'a>,
    id: u32,
) -> Result<(), AllocError>
    ensures { OnOk result (walk.new ≡ lined levels rows.now above.now projects.now walk.old id) }
{
    let Some(row) = row_to_enter(rows, walk, id) else {
        return Ok(());
    };
    put_node(alloc, walk, id, row, above, projects)?;
    if levels == 0 {
        return Ok(());
    }
    let own_line = led_by(alloc, id, above)?;
    let own_projects = projects_under(alloc, row, id, projects)?;
    let line = own_line.items();
    let below = own_projects.items();
    let children = row.children.items();
    for child in children {
        enter(alloc, rows, levels - 1, line, below, walk, *child)?;
    }
    Ok(())
}

/// The walk of a cluster's share tree from its root, whose id is 0.
pub(crate) fn walk_tree(alloc: Global, c: &Cluster) -> Result<Walk<'_>, AllocError>
    ensures { IfOk result (λ walk. walk ≡ walk_of (tree_of c.now)) }
{
    let mut walk = Walk {
        order: List::new(alloc),
        lines: Table::new(alloc),
    };
    enter(alloc, &c.shares, SHARE_LEVELS, &[], &[], &mut walk, 0)?;
    Ok(walk)
}
