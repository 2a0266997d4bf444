// The master.
ghost use Rattle.std.specs.Prelude.{◌≡◌, ◌≤◌, true, false, Err};
ghost use Rattle.std.specs.Result.{is_err};
ghost use Rattle.ge_spool.specs.Settled.{is_dead};

use crate::Stop;
use crate::handling::handle;
use ge_outside::Disk;
use ge_rows::{Cluster, Event, List, Reply};
use ge_spool::Spool;
use std::alloc::Global;
use std::slice;

/// A cluster over a journal in two areas, which every call is lent.
#[derive(Drop)]
pub struct Master {
    pub(crate) alloc: Global,
    pub(crate) spool: Spool,
    pub(crate) cluster: Cluster,
    // whether an accepted command has asked it to stop
    pub(crate) stopping: bool,
    // whether an earlier call stopped it
    pub(crate) dead: bool,
    ghost alive: { dead ≡ false → is_dead spool ≡ false },
}

impl Master {
    ghost use Rattle.ge_model_core.specs.Plan.{plan_of};
    ghost use Rattle.ge_spool.specs.Settled.{record_count, generation_of};
    ghost use Rattle.ge_master.specs.Areas.{areas_of};
    ghost use Rattle.ge_master.specs.Handling.{HandlesBatch, HandlesEvent};
    ghost use Rattle.ge_master.specs.Masters.{cluster_of, spool_of, parts_of, is_stopping, is_gone, HasLength};
    ghost use Rattle.ge_master.specs.Storing.{OnUnwritten};
    ghost use Rattle.ge_master.specs.declared.faults.Stop.TheVariants.{Dead};

    /// The cluster.
    pub fn cluster(&self) -> &Cluster
        ensures { result.now ≡ cluster_of self.now }
    {
        &self.cluster
    }

    /// Whether an accepted command has asked it to stop.
    pub fn stopping(&self) -> bool
        ensures { result ≡ is_stopping self.now }
    {
        self.stopping
    }

    /// Whether an earlier call stopped it. Then every call answers `Dead`, and the areas are opened again.
    pub fn dead(&self) -> bool
        ensures { result ≡ is_gone self.now }
    {
        self.dead
    }

    /// How many records stand behind the snapshot.
    pub fn records(&self) -> u64
        ensures { result ≡ record_count (spool_of self.now) }
    {
        self.spool.records()
    }

    /// The generation of the area that counts.
    pub fn generation(&self) -> u64
        ensures { result ≡ generation_of (spool_of self.now) }
    {
        self.spool.generation()
    }

    // Handles events, of which what follows the one that stops the master is left out.
    fn handle_all<D: Disk>(
        &mut self,
        a: &mut D,
        b: &mut D,
        events: &[Event],
    ) -> Result<List<Reply>, Stop>
        requires { HasLength self.old (D.told a.old) (D.told b.old) }
        ensures handled { is_gone self.old ≡ false
            → HandlesBatch plan_of (parts_of self.old) (parts_of self.new) events.now result
            (areas_of D.told D.syncs D.disk_faults a.old b.old)
            (areas_of D.told D.syncs D.disk_faults a.new b.new) }
        ensures gone { is_gone self.old ≡ true → (result ≡ Err Dead) × (self.new ≡ self.old) }
        ensures goes { is_gone self.new ≡ is_err result }
        ensures untouched { OnUnwritten result ((a.new ≡ a.old) × (b.new ≡ b.old)) }
        ensures length { HasLength self.new (D.told a.new) (D.told b.new) }
        ensures syncs_a { D.syncs a.old ≤ D.syncs a.new }
        ensures syncs_b { D.syncs b.old ≤ D.syncs b.new }
        ensures faults_a { D.disk_faults a.old ≤ D.disk_faults a.new }
        ensures faults_b { D.disk_faults b.old ≤ D.disk_faults b.new }
    {
        if self.dead {
            return Err(Stop::Dead);
        }
        match handle(
            self.alloc,
            &mut self.spool,
            &mut self.cluster,
            &mut self.stopping,
            a,
            b,
            events,
        ) {
            Ok(replies) => Ok(replies),
            Err(stop) => {
                self.dead = true;
                Err(stop)
            }
        }
    }

    /// Handles a batch of 1 to 1,024 events, whose entries stand behind one gate: the replies are those of handling them one by
    /// one. What follows an accepted `qconf -km` is left out, without a reply. After any `Stop` the master is dead.
    pub fn handle_batch<D: Disk>(
        &mut self,
        a: &mut D,
        b: &mut D,
        events: &List<Event>,
    ) -> Result<List<Reply>, Stop>
        requires { HasLength self.old (D.told a.old) (D.told b.old) }
        ensures handled { is_gone self.old ≡ false
            → HandlesBatch plan_of (parts_of self.old) (parts_of self.new) events.now result
            (areas_of D.told D.syncs D.disk_faults a.old b.old)
            (areas_of D.told D.syncs D.disk_faults a.new b.new) }
        ensures gone { is_gone self.old ≡ true → (result ≡ Err Dead) × (self.new ≡ self.old) }
        ensures goes { is_gone self.new ≡ is_err result }
        ensures untouched { OnUnwritten result ((a.new ≡ a.old) × (b.new ≡ b.old)) }
        ensures length { HasLength self.new (D.told a.new) (D.told b.new) }
        ensures syncs_a { D.syncs a.old ≤ D.syncs a.new }
        ensures syncs_b { D.syncs b.old ≤ D.syncs b.new }
        ensures faults_a { D.disk_faults a.old ≤ D.disk_faults a.new }
        ensures faults_b { D.disk_faults b.old ≤ D.disk_faults b.new }
    {
        self.handle_all(a, b, events.items())
    }

    /// Handles an event: its reply, when what it changed stands in the journal. Where there was no memory before the cluster
    /// changed, that is the reply and nothing has changed. After any `Stop` the master is dead.
    pub fn handle<D: Disk>(&mut self, a: &mut D, b: &mut D, event: &Event) -> Result<Reply, Stop>
        requires { HasLength self.old (D.told a.old) (D.told b.old) }
        ensures handled { is_gone self.old ≡ false
            → HandlesEvent plan_of (parts_of self.old) (parts_of self.new) event.now result
            (areas_of D.told D.syncs D.disk_faults a.old b.old)
            (areas_of D.told D.syncs D.disk_faults a.new b.new) }
        ensures gone { is_gone self.old ≡ true → (result ≡ Err Dead) × (self.new ≡ self.old) }
        ensures goes { is_gone self.new ≡ is_err result }
        ensures untouched { OnUnwritten result ((a.new ≡ a.old) × (b.new ≡ b.old)) }
        ensures length { HasLength self.new (D.told a.new) (D.told b.new) }
        ensures syncs_a { D.syncs a.old ≤ D.syncs a.new }
        ensures syncs_b { D.syncs b.old ≤ D.syncs b.new }
        ensures faults_a { D.disk_faults a.old ≤ D.disk_faults a.new }
        ensures faults_b { D.disk_faults b.old ≤ D.disk_faults b.new }
    {
        match self.handle_all(a, b, slice::from_ref(event)) {
            Ok(mut replies) => Ok(replies.remove(0)),
            Err(stop) => Err(stop),
        }
    }
}
