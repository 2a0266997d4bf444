// Worlds beside a master.
ghost use Rattle.std.specs.Prelude.{◌≡◌, IfOk, IfSome, OnErr, OnOk, Some};
ghost use Rattle.ge_model_world.specs.Worlds.{arrival_event, handling};
ghost use Rattle.ge_world_laws.specs.Product.{product};
ghost use Rattle.ge_world_master.specs.Moving.{CatchesUp};

use crate::clusters::{is_same_cluster, same_cluster};
use ge_collections::{twins2, twins3};
use ge_model_world::{Arrival, World};
use ge_rows::{Cluster, Event};
use ge_world::{arriving_event, handle_arrival, stop_in_arrival};
use std::alloc::{AllocError, Global};

// Another world with the same rows.
fn same_world(alloc: Global, w: &World) -> Result<World, AllocError>
    ensures { IfOk result (λ twin. twin ≡ w.now) }
{
    let cluster = same_cluster(alloc, &w.cluster)?;
    let (daemons, sent, reports) = twins3(alloc, &w.daemons, &w.sent, &w.reports)?;
    let (started, finished) = twins2(alloc, &w.started, &w.finished)?;
    Ok(World {
        cluster,
        daemons,
        sent,
        reports,
        started,
        finished,
    })
}

/// The event of what comes to the master, if it has one, and the world after that was handled.
pub(crate) fn foresee(
    alloc: Global,
    w: &World,
    x: &Arrival,
) -> Result<Option<(Event, World)>, AllocError>
    ensures event { IfOk result (λ seen. IfSome seen (λ both.
        arrival_event product w.now.reports x.now ≡ Some both.0)) }
    ensures world { IfOk result (λ seen. IfSome seen (λ both.
        both.1 ≡ handling product w.now x.now (arrival_event product w.now.reports x.now))) }
{
    let Some(event) = arriving_event(alloc, w.reports.items(), x)? else {
        return Ok(None);
    };
    let mut next = same_world(alloc, w)?;
    handle_arrival(alloc, &mut next, x)?;
    Ok(Some((event, next)))
}

/// The world goes on to the cluster of a master that was opened: that of the world, or that after the change of what came.
pub(crate) fn catch_up(
    alloc: Global,
    w: &mut World,
    x: &Arrival,
    c: &Cluster,
) -> Result<(), AllocError>
    ensures up { OnOk result (CatchesUp c.now w.old w.new x.now) }
    ensures err { OnErr result (w.new ≡ w.old) }
{
    if is_same_cluster(alloc, c, &w.cluster)? {
        return Ok(());
    }
    let mut next = same_world(alloc, w)?;
    stop_in_arrival(alloc, &mut next, x)?;
    *w = next;
    Ok(())
}
