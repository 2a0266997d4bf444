//! A node that the walk of the share tree entered.

ghost use Rattle.std.specs.Prelude.{◌≡◌, ◌∷◌, IfOk};
ghost use Rattle.ge_model_order.specs.ShareTree.{entered, projects_below};
ghost use Rattle.ge_tickets.specs.Nodes.{parent_of};

use ge_rows::{List, ShareNode};
use std::alloc::{AllocError, Global};
use std::marker::Model;

/// A node, with the nodes above it, nearest first, and the project nodes among them.
#[derive(Drop)]
pub(crate) struct Node<'a> {
    id: u32,
    row: &'a ShareNode,
    above: List<u32>,
    projects: List<u32>,
}

impl<'a> Model for Node<'a> {
    ghost use Rattle.ge_model_order.specs.ShareTree.{Entered};

    ghost Value = { Entered };

    ghost view = { λ n. record {
      id = n.id;
      row = n.row.now;
      above = n.above;
      projects = n.projects;
    } };
}

impl<'a> Node<'a> {
    pub(crate) fn new(
        id: u32,
        row: &'a ShareNode,
        above: List<u32>,
        projects: List<u32>,
    ) -> Node<'a>
        ensures { result ≡ entered id row.now above projects }
    {
        Node {
            id,
            row,
            above,
            projects,
        }
    }

    pub(crate) fn id(&self) -> u32
        ensures { result ≡ self.now.id }
    {
        self.id
    }

    pub(crate) fn row(&self) -> &ShareNode
        ensures { result.now ≡ self.now.row }
    {
        self.row
    }

    /// The node from which it was entered; the root has none.
    pub(crate) fn parent(&self) -> Option<u32>
        ensures { result ≡ parent_of self.now.above }
    {
        match self.above.items().first() {
            Some(parent) => Some(*parent),
            None => None,
        }
    }

    pub(crate) fn projects(&self) -> &[u32]
        ensures { result.now ≡ self.now.projects }
    {
        self.projects.items()
    }
}

/// These ids, copied.
pub(crate) fn copy_of(alloc: Global, ids: &[u32]) -> Result<List<u32>, AllocError>
    ensures { IfOk result (λ copy. copy ≡ ids.now) }
{
    let mut copy = Vec::new(alloc);
    copy.extend_from_slice(ids)?;
    Ok(List::from_vec(copy))
}

/// An id before others.
pub(crate) fn led_by(alloc: Global, id: u32, ids: &[u32]) -> Result<List<u32>, AllocError>
    ensures { IfOk result (λ line. line ≡ id ∷ ids.now) }
{
    let mut line = Vec::new(alloc);
    line.push(id)?;
    line.extend_from_slice(ids)?;
    Ok(List::from_vec(line))
}

/// The project nodes above the children of a node.
pub(crate) fn projects_under(
    alloc: Global,
    row: &ShareNode,
    id: u32,
    projects: &[u32],
) -> Result<List<u32>, AllocError>
    ensures { IfOk result (λ below. below ≡ projects_below row.now id projects.now) }
{
    if row.project {
        led_by(alloc, id, projects)
    } else {
        copy_of(alloc, projects)
    }
}
