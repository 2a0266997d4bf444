// What a plan changes.
ghost use Rattle.std.specs.Prelude.{◌≡◌, OnOk};
ghost use Rattle.ge_model_core.specs.Trace.{after_entries};

use ge_rows::{Cluster, Entry, Planned};
use ge_serve::apply;
use std::alloc::{AllocError, Global};

fn change(alloc: Global, cluster: &mut Cluster, entry: Option<Entry>) -> Result<(), AllocError>
    ensures { OnOk result (cluster.new ≡ after_entries cluster.old entry) }
{
    match entry {
        Some(entry) => apply(alloc, cluster, entry),
        None => Ok(()),
    }
}

fn entry_of(planned: Planned) -> Option<Entry>
    ensures { result ≡ planned.entry }
{
    let (entry, _reply, _stop) = planned.into_parts();
    entry
}

/// Makes the cluster the one after a plan, whose entry it takes over. After want of memory the cluster is given up.
pub(crate) fn follow(
    alloc: Global,
    cluster: &mut Cluster,
    planned: Planned,
) -> Result<(), AllocError>
    ensures { OnOk result (cluster.new ≡ after_entries cluster.old planned.entry) }
{
    change(alloc, cluster, entry_of(planned))
}
