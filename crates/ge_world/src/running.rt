// Worlds from their first step on.
ghost use Rattle.std.specs.Prelude.{◌≡◌, IfOk, OnOk, fold, map};
ghost use Rattle.ge_execd.specs.Daemons.{new_daemon};
ghost use Rattle.ge_model_world.specs.Laws.{AreApart, AreHosts, KeepsOnce};
ghost use Rattle.ge_model_world.specs.Worlds.{new_world, step_of, world_of};
ghost use Rattle.ge_world_laws.specs.Product.{IsHost, product};

use crate::stepping::take_step;
use ge_execd::Daemon;
use ge_model_world::{Step, World};
use ge_opening_cluster::opening;
use ge_rows::{List, Text, Twin};
use ge_world_laws::dispatches_are_started_and_accounted_once;
use std::alloc::{AllocError, Global};

fn new_daemons(alloc: Global, hosts: &[Text]) -> Result<List<Daemon>, AllocError>
    ensures { IfOk result (λ daemons. daemons ≡ map new_daemon hosts.now) }
{
    let mut daemons = List::new(alloc);
    for host in hosts {
        let host = host.twin(alloc)?;
        daemons.push(Daemon::new(alloc, host))?;
    }
    Ok(daemons)
}

/// A world before its first step, with a new daemon for each host.
pub fn new_world(alloc: Global, hosts: &List<Text>) -> Result<World, AllocError>
    ensures { IfOk result (λ w. w ≡ new_world product hosts.now) }
{
    let daemons = new_daemons(alloc, hosts.items())?;
    let cluster = opening(alloc)?;
    Ok(World {
        cluster,
        daemons,
        sent: List::new(alloc),
        reports: List::new(alloc),
        started: List::new(alloc),
        finished: List::new(alloc),
    })
}

fn take_steps(alloc: Global, w: &mut World, steps: &[Step]) -> Result<(), AllocError>
    ensures { OnOk result (w.new ≡ fold (step_of product) w.old steps.now) }
{
    for step in steps {
        take_step(alloc, w, step)?;
    }
    Ok(())
}

/// The world after all steps, for different hosts that are names: each serial was started at most once over all daemons and
/// accounted at most once, the line of one that was accounted by a report has what its daemon kept, and all its reports are one.
#[tactic(auto, unfolding(ge_model_world::specs::Worlds::world_of))]
pub fn run_world(alloc: Global, hosts: &List<Text>, steps: &List<Step>) -> Result<World, AllocError>
    requires apart { AreApart hosts.now }
    requires names { AreHosts IsHost hosts.now }
    ensures world { IfOk result (λ w. w ≡ world_of product hosts.now steps.now) }
    ensures once { IfOk result (λ w. KeepsOnce product w) }
{
    let mut w = new_world(alloc, hosts)?;
    take_steps(alloc, &mut w, steps.items())?;
    dispatches_are_started_and_accounted_once();
    Ok(w)
}
