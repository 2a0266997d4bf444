// Objects that are there. Of the one that is asked for a copy is made, and no other is looked at.
ghost use Rattle.std.specs.Prelude.{◌≡◌, IfOk, option_map};
ghost use Rattle.ge_collections.specs.Keyed.{at_text};
ghost use Rattle.ge_model_config.specs.Printing as printing;
ghost use Rattle.ge_model_rows.specs.EntryRows.{Item as ItemRow};

use ge_rows::{Cluster, Item, ObjectKind, Table, Text, Twin, twins2};
use std::alloc::{AllocError, Global};

// A name with its row.
fn named<V: Twin>(
    alloc: Global,
    table: &Table<Text, V>,
    name: &Text,
) -> Result<Option<(Text, V)>, AllocError>
    ensures { IfOk result (λ found. found
        ≡ option_map (λ row. (name.now, row)) (at_text table.now name.now)) }
{
    match table.get(name) {
        None => Ok(None),
        Some(row) => {
            let pair = twins2(alloc, name, row)?;
            Ok(Some(pair))
        }
    }
}

// A host with its own values: what it reported isn't configured.
fn host_at(alloc: Global, c: &Cluster, name: &Text) -> Result<Option<Item>, AllocError>
    ensures { IfOk result (λ item. item
        ≡ option_map (λ host. ItemRow.Host name.now host.values) (at_text c.now.hosts name.now)) }
{
    match c.hosts.get(name) {
        None => Ok(None),
        Some(host) => {
            let (name, values) = twins2(alloc, name, &host.values)?;
            Ok(Some(Item::Host(name, values)))
        }
    }
}

fn group_at(alloc: Global, c: &Cluster, name: &Text) -> Result<Option<Item>, AllocError>
    ensures { IfOk result (λ item. item
        ≡ option_map (ItemRow.Group name.now) (at_text c.now.groups name.now)) }
{
    let found = named(alloc, &c.groups, name)?;
    Ok(found.map(|(name, hosts)| Item::Group(name, hosts)))
}

fn queue_at(alloc: Global, c: &Cluster, name: &Text) -> Result<Option<Item>, AllocError>
    ensures { IfOk result (λ item. item
        ≡ option_map (ItemRow.Queue name.now) (at_text c.now.queues name.now)) }
{
    let found = named(alloc, &c.queues, name)?;
    Ok(found.map(|(name, queue)| Item::Queue(name, queue)))
}

fn pe_at(alloc: Global, c: &Cluster, name: &Text) -> Result<Option<Item>, AllocError>
    ensures { IfOk result (λ item. item
        ≡ option_map (ItemRow.Pe name.now) (at_text c.now.pes name.now)) }
{
    let found = named(alloc, &c.pes, name)?;
    Ok(found.map(|(name, pe)| Item::Pe(name, pe)))
}

fn quota_at(alloc: Global, c: &Cluster, name: &Text) -> Result<Option<Item>, AllocError>
    ensures { IfOk result (λ item. item
        ≡ option_map (ItemRow.Quota name.now) (at_text c.now.quotas name.now)) }
{
    let found = named(alloc, &c.quotas, name)?;
    Ok(found.map(|(name, set)| Item::Quota(name, set)))
}

fn set_at(alloc: Global, c: &Cluster, name: &Text) -> Result<Option<Item>, AllocError>
    ensures { IfOk result (λ item. item
        ≡ option_map (ItemRow.Set name.now) (at_text c.now.sets name.now)) }
{
    let found = named(alloc, &c.sets, name)?;
    Ok(found.map(|(name, entries)| Item::Set(name, entries)))
}

fn user_at(alloc: Global, c: &Cluster, name: &Text) -> Result<Option<Item>, AllocError>
    ensures { IfOk result (λ item. item
        ≡ option_map (ItemRow.User name.now) (at_text c.now.users name.now)) }
{
    let found = named(alloc, &c.users, name)?;
    Ok(found.map(|(name, user)| Item::User(name, user)))
}

fn project_at(alloc: Global, c: &Cluster, name: &Text) -> Result<Option<Item>, AllocError>
    ensures { IfOk result (λ item. item
        ≡ option_map (ItemRow.Project name.now) (at_text c.now.projects name.now)) }
{
    let found = named(alloc, &c.projects, name)?;
    Ok(found.map(|(name, project)| Item::Project(name, project)))
}

/// The object that is there under a name. The tables, the settings and the lists of managers and operators are there under any.
#[tactic(auto, unfolding(ge_model_config::specs::Printing::item_at))]
pub(crate) fn item_at(
    alloc: Global,
    c: &Cluster,
    kind: ObjectKind,
    name: &Text,
) -> Result<Option<Item>, AllocError>
    ensures { IfOk result (λ item. item ≡ printing.item_at c.now kind name.now) }
{
    match kind {
        ObjectKind::Complexes => Ok(Some(Item::Complexes(c.complexes.twin(alloc)?))),
        ObjectKind::Host => host_at(alloc, c, name),
        ObjectKind::Group => group_at(alloc, c, name),
        ObjectKind::Queue => queue_at(alloc, c, name),
        ObjectKind::Pe => pe_at(alloc, c, name),
        ObjectKind::Quota => quota_at(alloc, c, name),
        ObjectKind::Set => set_at(alloc, c, name),
        ObjectKind::User => user_at(alloc, c, name),
        ObjectKind::Project => project_at(alloc, c, name),
        ObjectKind::Shares => Ok(Some(Item::Shares(c.shares.twin(alloc)?))),
        ObjectKind::Sched => Ok(Some(Item::Sched(c.sched.twin(alloc)?))),
        ObjectKind::Managers => Ok(Some(Item::Managers(c.managers.twin(alloc)?))),
        ObjectKind::Operators => Ok(Some(Item::Operators(c.operators.twin(alloc)?))),
    }
}
