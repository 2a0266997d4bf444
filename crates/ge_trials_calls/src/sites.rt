//! The site that a page's rows ask of: a cluster, and its groups of hosts.

use crate::planning::cluster_behind;
use ge_rows::{Cluster, Groups};
use ge_site::expand;
use std::alloc::{AllocError, Global};

/// A cluster, and the hosts of each of its groups.
#[derive(Drop)]
pub(crate) struct Site {
    pub(crate) cluster: Cluster,
    pub(crate) groups: Groups,
}

/// The site that a script makes of the opening cluster.
pub(crate) fn site_of(alloc: Global, script: &[u8]) -> Result<Site, AllocError> {
    let cluster = cluster_behind(alloc, script)?;
    let groups = expand(alloc, &cluster)?;
    Ok(Site { cluster, groups })
}
