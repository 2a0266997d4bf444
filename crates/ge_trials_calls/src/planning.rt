//! A cluster that a script makes.

use ge_core::{apply, plan};
use ge_opening_cluster::opening;
use ge_rows::Cluster;
use ge_trials_rows::read_events;
use std::alloc::{AllocError, Global};

/// The cluster that the opening one has become behind a script.
pub(crate) fn cluster_behind(alloc: Global, script: &[u8]) -> Result<Cluster, AllocError> {
    let mut cluster = opening(alloc)?;
    for event in read_events(alloc, script)?.items() {
        let (entry, _, _) = plan(alloc, &cluster, event)?.into_parts();
        if let Some(entry) = entry {
            apply(alloc, &mut cluster, entry)?;
        }
    }
    Ok(cluster)
}
