//! The item that a body makes, and what its text is answered with.

ghost use Rattle.std.specs.Prelude.{◌≡◌, [], ◌∷◌};
ghost use Rattle.ge_base.specs.declared.refusal.Refusal.TheVariants.{Syntax};
ghost use Rattle.ge_model_rows.specs.EntryRows.{Managers};
ghost use Rattle.ge_model_rows.specs.Faults.{after_faults};
ghost use Rattle.ge_model_grammar.specs.declared.Body.TheVariants.{Attributes, RuleSet, Nodes, ComplexRows};
ghost use Rattle.ge_model_config.specs.Cited.{answered};
ghost use Rattle.ge_model_config.specs.Reading.{item_of, body_read};
ghost use Rattle.ge_pieces.specs.Gives.{Reads, IsAnswered};

use crate::complexes::read_complexes;
use crate::environments::read_environment;
use crate::groups::read_group;
use crate::hosts::read_host;
use crate::people::{read_project, read_user};
use crate::queues::read_queue;
use crate::quotas::read_quota;
use crate::settings::read_sched;
use crate::shares::read_shares;
use crate::user_sets::read_user_set;
use ge_base::Refusal;
use ge_commands::body;
use ge_model_grammar::{Body, ComplexLine, NodeLines, RuleLine};
use ge_pieces::{ReadFault, note};
use ge_rows::{Cluster, Item, List, ObjectKind, Text};
use std::alloc::{AllocError, Global};

// A body of another kind is off the grammar.
fn unread(alloc: Global, faults: &mut Option<Refusal>) -> Item
    ensures item { result ≡ Managers [] }
    ensures faults { faults.new ≡ after_faults faults.old (Syntax ∷ []) }
{
    note(faults, true, Refusal::Syntax);
    Item::Managers(List::new(alloc))
}

// The item of a kind that attributes make.
#[tactic(auto, unfolding(ge_model_config::specs::Reading::item_of))]
fn read_attributes(
    alloc: Global,
    c: &Cluster,
    kind: ObjectKind,
    adding: bool,
    values: &[(Text, Text)],
    faults: &mut Option<Refusal>,
) -> Result<Item, AllocError>
    ensures { Reads result faults.old faults.new (item_of c.now kind adding
        (Attributes values.now)) }
{
    match kind {
        ObjectKind::Host => read_host(alloc, c, adding, values, faults),
        ObjectKind::Group => read_group(alloc, c, adding, values, faults),
        ObjectKind::Queue => read_queue(alloc, c, adding, values, faults),
        ObjectKind::Pe => read_environment(alloc, c, adding, values, faults),
        ObjectKind::Set => read_user_set(alloc, c, adding, values, faults),
        ObjectKind::User => read_user(alloc, c, adding, values, faults),
        ObjectKind::Project => read_project(alloc, c, adding, values, faults),
        ObjectKind::Sched => read_sched(alloc, c, values, faults),
        ObjectKind::Quota
        | ObjectKind::Shares
        | ObjectKind::Complexes
        | ObjectKind::Managers
        | ObjectKind::Operators => Ok(unread(alloc, faults)),
    }
}

#[tactic(auto, unfolding(ge_model_config::specs::Reading::item_of))]
fn read_rule_set(
    alloc: Global,
    c: &Cluster,
    kind: ObjectKind,
    adding: bool,
    values: &[(Text, Text)],
    rules: &[RuleLine],
    faults: &mut Option<Refusal>,
) -> Result<Item, AllocError>
    ensures { Reads result faults.old faults.new
        (item_of c.now kind adding (RuleSet values.now rules.now)) }
{
    match kind {
        ObjectKind::Quota => read_quota(alloc, c, adding, values, rules, faults),
        _ => Ok(unread(alloc, faults)),
    }
}

#[tactic(auto, unfolding(ge_model_config::specs::Reading::item_of))]
fn read_node_lines(
    alloc: Global,
    c: &Cluster,
    kind: ObjectKind,
    adding: bool,
    nodes: &[NodeLines],
    faults: &mut Option<Refusal>,
) -> Result<Item, AllocError>
    ensures { Reads result faults.old faults.new (item_of c.now kind adding (Nodes nodes.now)) }
{
    match kind {
        ObjectKind::Shares => read_shares(alloc, c, adding, nodes, faults),
        _ => Ok(unread(alloc, faults)),
    }
}

#[tactic(auto, unfolding(ge_model_config::specs::Reading::item_of))]
fn read_rows(
    alloc: Global,
    c: &Cluster,
    kind: ObjectKind,
    adding: bool,
    rows: &[ComplexLine],
    faults: &mut Option<Refusal>,
) -> Result<Item, AllocError>
    ensures { Reads result faults.old faults.new (item_of c.now kind adding
        (ComplexRows rows.now)) }
{
    match kind {
        ObjectKind::Complexes => read_complexes(alloc, c, adding, rows, faults),
        _ => Ok(unread(alloc, faults)),
    }
}

/// The item that a body of a kind makes of a cluster, added or in place of one that is there, and what refuses it noted
/// among the refusals: contracts see `item_of`. Where something is noted, nothing comes of the item. A body of another kind
/// is noted as Syntax, and managers and operators have none.
pub fn read_item(
    alloc: Global,
    c: &Cluster,
    kind: ObjectKind,
    adding: bool,
    body: &Body,
    faults: &mut Option<Refusal>,
) -> Result<Item, AllocError>
    ensures { Reads result faults.old faults.new (item_of c.now kind adding body.now) }
{
    match body {
        Body::Attributes(values) => {
            read_attributes(alloc, c, kind, adding, values.items(), faults)
        }
        Body::RuleSet(values, rules) => read_rule_set(
            alloc,
            c,
            kind,
            adding,
            values.items(),
            rules.items(),
            faults,
        ),
        Body::Nodes(nodes) => read_node_lines(alloc, c, kind, adding, nodes.items(), faults),
        Body::ComplexRows(rows) => read_rows(alloc, c, kind, adding, rows.items(), faults),
    }
}

// A body that was cut: its item, or the first of what refuses it.
fn answer(
    alloc: Global,
    c: &Cluster,
    kind: ObjectKind,
    adding: bool,
    body: &Body,
) -> Result<Item, Refusal>
    ensures { IsAnswered result (answered (item_of c.now kind adding body.now)) }
{
    let mut faults = None;
    match read_item(alloc, c, kind, adding, body, &mut faults) {
        Err(AllocError) => Err(Refusal::NoMemory),
        Ok(item) => match faults {
            None => Ok(item),
            Some(refusal) => Err(refusal),
        },
    }
}

/// What the text of a body makes, added or in place of what is there (qconf -A, -M): contracts see `body_read`.
///
/// # Errors
///
/// Syntax exactly where the text is off the grammar of its kind. Else the first, by code, of the refusals whose conditions
/// hold, as each kind's reader names them. NoMemory where there was no memory for the answer.
#[tactic(auto, unfolding(ge_model_config::specs::Reading::body_read))]
pub fn read_body(
    alloc: Global,
    c: &Cluster,
    kind: ObjectKind,
    adding: bool,
    text: &Text,
) -> Result<Item, Refusal>
    ensures { IsAnswered result (body_read c.now kind adding text.now) }
{
    match body(alloc, kind, text.bytes()) {
        Err(ReadFault::Memory) => Err(Refusal::NoMemory),
        Err(ReadFault::Syntax) => Err(Refusal::Syntax),
        Ok(cut) => answer(alloc, c, kind, adding, &cut),
    }
}
