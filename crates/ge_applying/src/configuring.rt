// Objects that are put and dropped: qconf.
ghost use Rattle.std.specs.Prelude.{◌≡◌, OnOk, not};
ghost use Rattle.ge_collections.specs.Keyed.{text_eq, put_text, drop_text};
ghost use Rattle.ge_model_jobs.specs.Configuring.{with_sched, with_item, without_name, without_item};

use crate::hosts::put_host;
use crate::usages::convert;
use ge_rows::{Cluster, Item, Key, List, ObjectKind, Sched, Table, Text, Twin, twins2};
use std::alloc::{AllocError, Global};
use std::mem;

// A whole value in place of another.
fn replace<T: Twin + Drop>(alloc: Global, place: &mut T, new: &T) -> Result<(), AllocError>
    ensures { OnOk result (place.new ≡ new.now) }
{
    *place = new.twin(alloc)?;
    Ok(())
}

// A row under its name.
fn put<V: Twin + Drop>(
    alloc: Global,
    rows: &mut Table<Text, V>,
    name: &Text,
    row: &V,
) -> Result<(), AllocError>
    ensures { OnOk result (rows.new ≡ put_text rows.old name.now row.now) }
{
    let (name, row) = twins2(alloc, name, row)?;
    let _before = rows.insert(name, row)?;
    Ok(())
}

// The scheduler's settings. Where the halftime changes, the usage is converted.
fn put_sched(alloc: Global, c: &mut Cluster, moment: u64, sched: &Sched) -> Result<(), AllocError>
    ensures { OnOk result (c.new ≡ with_sched moment c.old sched.now) }
{
    convert(
        alloc,
        &mut c.usage,
        moment,
        c.sched.halftime,
        sched.halftime,
    )?;
    replace(alloc, &mut c.sched, sched)?;
    Ok(())
}

/// An object is added or replaced at a moment.
#[tactic(auto, unfolding(ge_model_jobs::specs::Configuring::with_item))]
pub(crate) fn put_item(
    alloc: Global,
    c: &mut Cluster,
    moment: u64,
    item: &Item,
) -> Result<(), AllocError>
    ensures { OnOk result (c.new ≡ with_item moment c.old item.now) }
{
    match item {
        Item::Complexes(rows) => replace(alloc, &mut c.complexes, rows),
        Item::Host(name, values) => put_host(alloc, &mut c.hosts, name, values),
        Item::Group(name, members) => put(alloc, &mut c.groups, name, members),
        Item::Queue(name, row) => put(alloc, &mut c.queues, name, row),
        Item::Pe(name, row) => put(alloc, &mut c.pes, name, row),
        Item::Quota(name, row) => put(alloc, &mut c.quotas, name, row),
        Item::Set(name, users) => put(alloc, &mut c.sets, name, users),
        Item::User(name, row) => put(alloc, &mut c.users, name, row),
        Item::Project(name, row) => put(alloc, &mut c.projects, name, row),
        Item::Shares(nodes) => replace(alloc, &mut c.shares, nodes),
        Item::Sched(sched) => put_sched(alloc, c, moment, sched),
        Item::Managers(names) => replace(alloc, &mut c.managers, names),
        Item::Operators(names) => replace(alloc, &mut c.operators, names),
    }
}

// The row of a name goes.
fn drop_row<V: Drop>(rows: &mut Table<Text, V>, name: &Text)
    ensures { rows.new ≡ drop_text rows.old name.now }
{
    let _row = rows.remove(name);
}

fn is_other(other: &Text, name: &Text) -> bool
    ensures { result ≡ not (text_eq other.now name.now) }
{
    other.bytes() != name.bytes()
}

fn keep_others(names: &mut Vec<Text>, name: &Text)
    ensures { names.new.items ≡ without_name name.now names.old.items }
{
    names.retain(|other| is_other(other, name));
}

// A name goes, wherever it stands.
fn drop_name(alloc: Global, names: &mut List<Text>, name: &Text)
    ensures { names.new ≡ without_name name.now names.old }
{
    let mut left = mem::replace(names, List::new(alloc)).into_vec();
    keep_others(&mut left, name);
    *names = List::from_vec(left);
}

/// An object is removed; the complexes and the scheduler's settings are always there.
#[tactic(auto, unfolding(ge_model_jobs::specs::Configuring::without_item))]
pub(crate) fn remove_item(alloc: Global, c: &mut Cluster, key: &Key)
    ensures { c.new ≡ without_item c.old key.now.kind key.now.name }
{
    match key.kind {
        ObjectKind::Complexes => {}
        ObjectKind::Host => drop_row(&mut c.hosts, &key.name),
        ObjectKind::Group => drop_row(&mut c.groups, &key.name),
        ObjectKind::Queue => drop_row(&mut c.queues, &key.name),
        ObjectKind::Pe => drop_row(&mut c.pes, &key.name),
        ObjectKind::Quota => drop_row(&mut c.quotas, &key.name),
        ObjectKind::Set => drop_row(&mut c.sets, &key.name),
        ObjectKind::User => drop_row(&mut c.users, &key.name),
        ObjectKind::Project => drop_row(&mut c.projects, &key.name),
        ObjectKind::Shares => c.shares = Table::new(alloc),
        ObjectKind::Sched => {}
        ObjectKind::Managers => drop_name(alloc, &mut c.managers, &key.name),
        ObjectKind::Operators => drop_name(alloc, &mut c.operators, &key.name),
    }
}
