// Hosts: their complex_values, and their load reports.
ghost use Rattle.std.specs.Prelude.{◌≡◌, IfOk, OnOk, fold};
ghost use Rattle.std.specs.Option.{option_copied};
ghost use Rattle.ge_collections.specs.Keyed.{put_text};
ghost use Rattle.ge_model_jobs.specs.Configuring.{load_of, with_load_report, with_load};
ghost use Rattle.ge_applying.specs.Loads.{host_with_values};

use ge_collections::TryEdit;
use ge_rows::{Cluster, HostRow, Table, Text, Twin, Value, twins2};
use std::alloc::{AllocError, Global};

// What a host has reported, nothing where it isn't there.
fn load_so_far(alloc: Global, host: Option<&HostRow>) -> Result<Table<Text, Value>, AllocError>
    ensures { IfOk result (λ load. load ≡ load_of (option_copied host.entry)) }
{
    match host {
        None => Ok(Table::new(alloc)),
        Some(host) => host.load.twin(alloc),
    }
}

/// The `complex_values` of a host are put; what it reported stays.
pub(crate) fn put_host(
    alloc: Global,
    hosts: &mut Table<Text, HostRow>,
    name: &Text,
    values: &Table<Text, Value>,
) -> Result<(), AllocError>
    ensures { OnOk result (hosts.new ≡ host_with_values hosts.old name.now values.now) }
{
    let load = load_so_far(alloc, hosts.get(name))?;
    let (name, values) = twins2(alloc, name, values)?;
    let _before = hosts.insert(name, HostRow { values, load })?;
    Ok(())
}

fn put_value(
    alloc: Global,
    load: &mut Table<Text, Value>,
    name: &Text,
    value: &Value,
) -> Result<(), AllocError>
    ensures { OnOk result (load.new ≡ put_text load.old name.now value.now) }
{
    let (name, value) = twins2(alloc, name, value)?;
    let _before = load.insert(name, value)?;
    Ok(())
}

fn put_values(
    alloc: Global,
    load: &mut Table<Text, Value>,
    report: &Table<Text, Value>,
) -> Result<(), AllocError>
    ensures { OnOk result (load.new
        ≡ fold (λ load value. put_text load value.0 value.1) load.old report.now) }
{
    for (name, value) in report.iter() {
        put_value(alloc, load, name, value)?;
    }
    Ok(())
}

// A load report, as an edit of its host.
#[derive(Clone, Copy)]
struct Reported<'a> {
    report: &'a Table<Text, Value>,
}

impl TryEdit<HostRow> for Reported<'_> {
    ghost edited = { λ r host. with_load_report r.report.now host };

    fn try_edit(&self, alloc: Global, host: &mut HostRow) -> Result<(), AllocError> {
        let mut load = host.load.twin(alloc)?;
        put_values(alloc, &mut load, self.report)?;
        host.load = load;
        Ok(())
    }
}

/// A host reports its load: the values that it names take the place of those before. A host that isn't there changes nothing.
#[tactic(auto, unfolding(ge_model_jobs::specs::Configuring::with_load))]
pub(crate) fn put_report(
    alloc: Global,
    c: &mut Cluster,
    name: &Text,
    report: &Table<Text, Value>,
) -> Result<(), AllocError>
    ensures { OnOk result (c.new ≡ with_load c.old name.now report.now) }
{
    let _found = c.hosts.try_change(alloc, name, &Reported { report })?;
    Ok(())
}
