// Instances that are closed to each job of the table, since they lack a consumable that each asks for.
ghost use Rattle.std.specs.Prelude.{◌≡◌, ◌==◌, ◌++◌, ◌∷◌, [], true, not, codes, filter, length, IfOk, OnOk};
ghost use Rattle.std.specs.List.{list_any, list_all};
ghost use Rattle.std.specs.Option.{option_copied};
ghost use Rattle.ge_collections.specs.Keyed.{at_text};
ghost use Rattle.ge_model_place.specs.Opening.{has_value as is_named_in, host_names, is_configured};
ghost use Rattle.ge_attempts.specs.Amounts.{asks_itself};
ghost use Rattle.ge_attempts.specs.Closing.{asked_by_all, lacks_in, lacks_one as lacks_one_of};

use crate::setting::Setting;
use ge_complex::is_consumable;
use ge_pieces::is_word;
use ge_rows::{
    Cluster, HostRow, InstanceId, JobMark, JobTable, List, MarkSort, QueueRow, Table, Text, Twin,
    Value,
};
use ge_site::at_host;
use std::alloc::{AllocError, Global};

fn names(values: &Table<Text, Value>, name: &Text) -> bool
    ensures { result ≡ is_named_in values.now name.now }
{
    values.get(name).is_some()
}

fn are_so_many(numbers: Vec<u32>, count: usize) -> bool
    ensures { result ≡ (length numbers.items == count) }
{
    List::from_vec(numbers).len() == count
}

/// Whether each job asks for an attribute itself: as many as there are bear its mark. No job is looked at.
fn all_ask(alloc: Global, jobs: &JobTable, name: &Text) -> Result<bool, AllocError>
    ensures { IfOk result (λ all. all ≡ list_all (asks_itself name.now) jobs.now) }
{
    let mark = JobMark::new(alloc, MarkSort::Attribute, name.bytes(), b"", 0)?;
    let bearers = jobs.bearers(alloc, &mark)?;
    Ok(are_so_many(bearers, jobs.len()))
}

fn is_asked_by_all(alloc: Global, cluster: &Cluster, name: &Text) -> Result<bool, AllocError>
    ensures { IfOk result (λ all. all ≡ asked_by_all cluster.now name.now) }
{
    if is_consumable(cluster, name) {
        all_ask(alloc, &cluster.jobs, name)
    } else {
        Ok(false)
    }
}

fn add_asked_by_all(
    alloc: Global,
    cluster: &Cluster,
    names: &mut List<Text>,
    name: &Text,
) -> Result<(), AllocError>
    ensures { OnOk result (names.new ≡ names.old
        ++ filter (asked_by_all cluster.now) (name.now ∷ [])) }
{
    if !is_asked_by_all(alloc, cluster, name)? {
        return Ok(());
    }
    let name = name.twin(alloc)?;
    names.push(name)
}

/// Values of hosts that are consumables for which each job of the table asks itself.
pub(crate) fn names_asked_by_all(alloc: Global, at: &Setting<'_>) -> Result<List<Text>, AllocError>
    ensures { IfOk result (λ names. list_all (asked_by_all at.now.cluster.now) names ≡ true) }
{
    let mut names = List::new(alloc);
    for name in at.holders.keys() {
        add_asked_by_all(alloc, at.cluster, &mut names, name)?;
    }
    Ok(names)
}

fn is_named_on(host: Option<&HostRow>, name: &Text) -> bool
    ensures { result ≡ host_names name.now (option_copied host.entry) }
{
    match host {
        Some(row) => names(&row.values, name),
        None => false,
    }
}

// Whether the queue there, its host or the host of all has an amount of a name.
fn has_amount(
    at: &Setting<'_>,
    global: Option<&HostRow>,
    instance: &InstanceId,
    queue: &QueueRow,
    name: &Text,
) -> bool
    requires { option_copied global ≡ at_text at.now.cluster.now.hosts (codes "global") }
    ensures { result ≡ is_configured at.now.cluster.now at.now.groups.now instance.now
        queue.now name.now }
{
    is_word(name.bytes(), b"slots")
        || names(at_host(&queue.values, at.groups, &instance.host), name)
        || is_named_on(at.cluster.hosts.get(&instance.host), name)
        || is_named_on(global, name)
}

fn lacks_one_there(
    at: &Setting<'_>,
    global: Option<&HostRow>,
    names: &[Text],
    instance: &InstanceId,
    queue: &QueueRow,
) -> bool
    requires { option_copied global ≡ at_text at.now.cluster.now.hosts (codes "global") }
    ensures { result ≡ list_any (λ name. not (is_configured at.now.cluster.now at.now.groups.now
        instance.now queue.now name)) names.now }
{
    for name in names {
        if !has_amount(at, global, instance, queue, name) {
            return true;
        }
    }
    false
}

fn lacks_one(
    at: &Setting<'_>,
    global: Option<&HostRow>,
    names: &[Text],
    instance: &InstanceId,
    queue: Option<&QueueRow>,
) -> bool
    requires { option_copied global ≡ at_text at.now.cluster.now.hosts (codes "global") }
    ensures { result ≡ lacks_in at.now.cluster.now at.now.groups.now names.now instance.now
        (option_copied queue.entry) }
{
    match queue {
        Some(queue) => lacks_one_there(at, global, names, instance, queue),
        None => false,
    }
}

/// Whether an instance lacks one of these names. The row of the host `global` is handed in, so that a run looks it up once.
pub(crate) fn is_closed(
    at: &Setting<'_>,
    global: Option<&HostRow>,
    names: &[Text],
    instance: &InstanceId,
) -> bool
    requires { option_copied global ≡ at_text at.now.cluster.now.hosts (codes "global") }
    ensures { result ≡ lacks_one_of at.now.cluster.now at.now.groups.now names.now
        instance.now }
{
    lacks_one(
        at,
        global,
        names,
        instance,
        at.cluster.queues.get(&instance.queue),
    )
}
