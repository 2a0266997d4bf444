//! The body of a share tree: five lines for each node (share_tree(5)).

ghost use Rattle.std.specs.Prelude.{◌≡◌, ◌≤◌, ◌++◌, ◌∷◌, [], option_map, take, drop, length};
ghost use Rattle.ge_model_grammar.specs.Bodies.{value_behind, node_lines_of, nodes_after, node_body};
ghost use Rattle.ge_pieces.specs.Gives.{Gives};

use ge_model_grammar::{Body, NodeLines};
use ge_pieces::{ReadFault, begins, bytes_from, trimmed_text};
use ge_rows::{List, Text};
use std::alloc::Global;

// What stands behind a key and its `=` on a line.
fn behind_key(alloc: Global, key: &[u8], line: &Text) -> Result<Text, ReadFault>
    ensures { Gives result (value_behind key.now line.now) }
{
    let line = trimmed_text(line.bytes());
    if begins(key, line) && key.len() <= line.len() {
        Ok(Text::from_bytes(alloc, bytes_from(line, key.len()))?)
    } else {
        Err(ReadFault::Syntax)
    }
}

// The node of its five lines.
fn read_node(
    alloc: Global,
    id: &Text,
    name: &Text,
    sort: &Text,
    shares: &Text,
    children: &Text,
) -> Result<NodeLines, ReadFault>
    ensures { Gives result (node_lines_of (id.now ∷ name.now ∷ sort.now ∷ shares.now ∷ children.now ∷ [])) }
{
    let id = behind_key(alloc, b"id=", id)?;
    let name = behind_key(alloc, b"name=", name)?;
    let sort = behind_key(alloc, b"type=", sort)?;
    let shares = behind_key(alloc, b"shares=", shares)?;
    let children = behind_key(alloc, b"childnodes=", children)?;
    Ok(NodeLines {
        id,
        name,
        sort,
        shares,
        children,
    })
}

// The first node of lines that are enough for one.
fn read_first(alloc: Global, lines: &[Text]) -> Result<NodeLines, ReadFault>
    requires { 5 ≤ length lines.now }
    ensures { Gives result (node_lines_of (take 5 lines.now)) }
{
    read_node(alloc, &lines[0], &lines[1], &lines[2], &lines[3], &lines[4])
}

fn read_nodes(alloc: Global, lines: &[Text]) -> Result<List<NodeLines>, ReadFault>
    ensures { Gives result (nodes_after [] lines.now) }
{
    let mut nodes = List::new(alloc);
    let mut rest = lines;
    while rest.len() >= 5 {
        match read_first(alloc, rest) {
            Ok(node) => nodes.push(node)?,
            Err(fault) => return Err(fault),
        }
        rest = rest.split_at(5).1;
    }
    if rest.is_empty() {
        Ok(nodes)
    } else {
        Err(ReadFault::Syntax)
    }
}

/// The body of a share tree.
#[tactic(auto, unfolding(ge_model_grammar::specs::Bodies::node_body))]
pub(crate) fn read_node_body(alloc: Global, lines: &[Text]) -> Result<Body, ReadFault>
    ensures { Gives result (node_body lines.now) }
{
    let nodes = read_nodes(alloc, lines)?;
    Ok(Body::Nodes(nodes))
}
