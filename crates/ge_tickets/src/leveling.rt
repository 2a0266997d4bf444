//! A walked tree, each node before those below it: sums once for each parent, and tickets from above.

ghost use Rattle.std.specs.Prelude.{◌≡◌, ℕ, [], IfOk, OnOk, fold};
ghost use Rattle.ge_model_order.specs.ShareTables.{amount_at, raised_amount};
ghost use Rattle.ge_tickets.specs.Leveled.{sum_with, sums_of, node_weight, weight_with, weights_of, node_tickets, ticket_with, tickets_down, tickets_in};

use crate::adding::{amount, raise};
use crate::dividing_shares::{part_of, weigh};
use crate::nodes::Node;
use ge_rows::Table;
use std::alloc::{AllocError, Global};

/// Amounts by node.
type Amounts = Table<u32, u128>;

fn add_sum(sums: &mut Amounts, parts: &Amounts, node: &Node<'_>) -> Result<(), AllocError>
    ensures { OnOk result (sums.new ≡ sum_with parts.now sums.old node.now) }
{
    match node.parent() {
        None => Ok(()),
        Some(parent) => raise(sums, parent, amount(parts, node.id())),
    }
}

fn sum_children(alloc: Global, nodes: &[Node<'_>], parts: &Amounts) -> Result<Amounts, AllocError>
    ensures { IfOk result (λ sums. sums ≡ sums_of parts.now nodes.now) }
{
    let mut sums = Table::new(alloc);
    for node in nodes {
        add_sum(&mut sums, parts, node)?;
    }
    Ok(sums)
}

fn weight_of(usage: &Amounts, jobs: &Amounts, sums: &Amounts, node: &Node<'_>) -> u128
    ensures { result ≡ node_weight usage.now jobs.now sums.now node.now }
{
    match node.parent() {
        None => 0,
        Some(parent) => {
            let id = node.id();
            if amount(jobs, id) == 0 {
                0
            } else {
                weigh(node.row().shares, amount(usage, id), amount(sums, parent))
            }
        }
    }
}

fn add_weight(
    weights: &mut Amounts,
    usage: &Amounts,
    jobs: &Amounts,
    sums: &Amounts,
    node: &Node<'_>,
) -> Result<(), AllocError>
    ensures { OnOk result (weights.new ≡ weight_with usage.now jobs.now sums.now weights.old
        node.now) }
{
    let weight = weight_of(usage, jobs, sums, node);
    weights.insert(node.id(), weight)?;
    Ok(())
}

fn weigh_nodes(
    alloc: Global,
    nodes: &[Node<'_>],
    usage: &Amounts,
    jobs: &Amounts,
    sums: &Amounts,
) -> Result<Amounts, AllocError>
    ensures { IfOk result (λ weights. weights ≡ weights_of usage.now jobs.now sums.now nodes.now) }
{
    let mut weights = Table::new(alloc);
    for node in nodes {
        add_weight(&mut weights, usage, jobs, sums, node)?;
    }
    Ok(weights)
}

fn tickets_of(all: u64, weights: &Amounts, sums: &Amounts, known: &Amounts, node: &Node<'_>) -> u128
    ensures { result ≡ node_tickets all weights.now sums.now known.now node.now }
{
    match node.parent() {
        None => u128::from(all),
        Some(parent) => part_of(
            amount(known, parent),
            amount(weights, node.id()),
            amount(sums, parent),
        ),
    }
}

fn add_tickets(
    known: &mut Amounts,
    all: u64,
    weights: &Amounts,
    sums: &Amounts,
    node: &Node<'_>,
) -> Result<(), AllocError>
    ensures { OnOk result (known.new ≡ ticket_with all weights.now sums.now known.old node.now) }
{
    let tickets = tickets_of(all, weights, sums, known, node);
    known.insert(node.id(), tickets)?;
    Ok(())
}

fn divide_down(
    alloc: Global,
    nodes: &[Node<'_>],
    all: u64,
    weights: &Amounts,
    sums: &Amounts,
) -> Result<Amounts, AllocError>
    ensures { IfOk result (λ known. known ≡ tickets_down all weights.now sums.now nodes.now) }
{
    let mut known = Table::new(alloc);
    for node in nodes {
        add_tickets(&mut known, all, weights, sums, node)?;
    }
    Ok(known)
}

/// The tickets of each node, where the root has all of them and the usage and the jobs of each node are known.
pub(crate) fn divide_tickets(
    alloc: Global,
    all: u64,
    usage: &Amounts,
    jobs: &Amounts,
    nodes: &[Node<'_>],
) -> Result<Amounts, AllocError>
    ensures { IfOk result (λ tickets. tickets ≡ tickets_in all usage.now jobs.now nodes.now) }
{
    let used = sum_children(alloc, nodes, usage)?;
    let weights = weigh_nodes(alloc, nodes, usage, jobs, &used)?;
    let heavy = sum_children(alloc, nodes, &weights)?;
    let tickets = divide_down(alloc, nodes, all, &weights, &heavy)?;
    Ok(tickets)
}
