// A host's daemon over its journal.
ghost use Rattle.std.specs.Prelude.{◌≡◌, ◌≤◌, ◌&&◌, true, false, Err, IfOk};
ghost use Rattle.ge_collections.specs.Keyed.{at_number};
ghost use Rattle.ge_execd.specs.Daemons.{may_end, is_claimed, is_ended as is_ended_stage, settles, after_end, after_answer};
ghost use Rattle.ge_execd.specs.Orders.{orders_in};
ghost use Rattle.ge_execd.specs.declared.rows.Stage.TheVariants.{Ended};
ghost use Rattle.ge_keeping.specs.Areas.{areas_of};
ghost use Rattle.ge_spool.specs.Settled.{is_dead};

use crate::HostStop;
use crate::storing::{stop_of, store};
use ge_execd::{Daemon, Work, WorkFault};
use ge_outside::Disk;
use ge_rows::Reply;
use ge_spool::Spool;
use std::alloc::Global;

/// The daemon of a host over a journal in two areas, which every call is lent.
#[derive(Drop)]
pub struct Host {
    pub(crate) alloc: Global,
    pub(crate) spool: Spool,
    pub(crate) daemon: Daemon,
    // whether an earlier call stopped it
    pub(crate) dead: bool,
    ghost alive: { dead ≡ false → is_dead spool ≡ false },
}

impl Host {
    ghost use Rattle.ge_execd.specs.declared.daemon.Daemon.{Daemon};
    ghost use Rattle.ge_host.specs.Hosts.{Parts, parts_of, is_gone, HasLength, is_stop, done_of, Takes, ObeysAs};
    ghost use Rattle.ge_host.specs.declared.faults.HostStop.TheVariants.{Dead};

    /// The daemon.
    pub fn daemon(&self) -> &Daemon
        ensures { result.now ≡ (parts_of self.now).daemon }
    {
        &self.daemon
    }

    // Keeps what the daemon has become, where it has changed.
    fn keep_changed<D: Disk>(&mut self, a: &mut D, b: &mut D, changed: bool) -> Result<(), HostStop>
        requires length { HasLength self.old (D.told a.old) (D.told b.old) }
        requires lives { is_gone self.old ≡ false }
        ensures takes { (old : Daemon) → (parts_of self.old).daemon.host ≡ old.host
            → (changed ≡ false → (parts_of self.old).daemon ≡ old)
            → Takes changed (parts_of self.old).daemon
            (record { spool = (parts_of self.old).spool; daemon = old }) (parts_of self.new) result
            (areas_of D.told D.syncs D.disk_faults a.old b.old)
            (areas_of D.told D.syncs D.disk_faults a.new b.new) }
        ensures goes { is_gone self.new ≡ is_stop result }
        ensures length { HasLength self.new (D.told a.new) (D.told b.new) }
        ensures syncs_a { D.syncs a.old ≤ D.syncs a.new }
        ensures syncs_b { D.syncs b.old ≤ D.syncs b.new }
        ensures faults_a { D.disk_faults a.old ≤ D.disk_faults a.new }
        ensures faults_b { D.disk_faults b.old ≤ D.disk_faults b.new }
    {
        if !changed {
            return Ok(());
        }
        match store(self.alloc, &mut self.spool, a, b, &self.daemon) {
            Ok(()) => Ok(()),
            Err(fault) => {
                self.dead = true;
                Err(stop_of(fault))
            }
        }
    }

    /// Obeys the master's reply to `orders`, as [`Daemon::orders`] does: what is to be started and killed, once the claims stand in
    /// the journal. A reply that isn't obeyed changes nothing.
    pub fn orders<D: Disk>(&mut self, a: &mut D, b: &mut D, reply: &Reply) -> Result<Work, HostStop>
        requires { HasLength self.old (D.told a.old) (D.told b.old) }
        ensures obeys { is_gone self.old ≡ false
            → ObeysAs result (orders_in reply.now) (parts_of self.old) (parts_of self.new)
            (areas_of D.told D.syncs D.disk_faults a.old b.old)
            (areas_of D.told D.syncs D.disk_faults a.new b.new) }
        ensures gone { is_gone self.old ≡ true → (result ≡ Err Dead) × (self.new ≡ self.old) × (a.new ≡ a.old) × (b.new ≡ b.old) }
        ensures goes { is_gone self.new ≡ is_stop result }
        ensures length { HasLength self.new (D.told a.new) (D.told b.new) }
        ensures syncs_a { D.syncs a.old ≤ D.syncs a.new }
        ensures syncs_b { D.syncs b.old ≤ D.syncs b.new }
        ensures faults_a { D.disk_faults a.old ≤ D.disk_faults a.new }
        ensures faults_b { D.disk_faults b.old ≤ D.disk_faults b.new }
    {
        if self.dead {
            return Err(HostStop::Dead);
        }
        let seen = self.daemon.seen;
        match self.daemon.orders(self.alloc, reply) {
            Ok(work) => {
                let changed = self.daemon.seen != seen;
                match self.keep_changed(a, b, changed) {
                    Ok(()) => Ok(work),
                    Err(stop) => Err(stop),
                }
            }
            Err(WorkFault::Refused(code)) => Err(HostStop::Refused(code)),
            Err(WorkFault::Bad(place)) => Err(HostStop::Bad(place)),
            Err(WorkFault::NoMemory) => {
                self.dead = true;
                Err(HostStop::Memory)
            }
        }
    }

    /// Keeps the end of the task of a claimed serial, as [`Daemon::ended`] does, and tells whether the serial was claimed.
    pub fn ended<D: Disk>(
        &mut self,
        a: &mut D,
        b: &mut D,
        serial: u64,
        exit: u32,
        cpu: u64,
        mem: u64,
        io: u64,
    ) -> Result<bool, HostStop>
        requires length { HasLength self.old (D.told a.old) (D.told b.old) }
        requires end { may_end exit cpu mem io ≡ true }
        ensures was { IfOk result (λ was. was ≡ is_claimed (at_number (parts_of self.old).daemon.tasks serial)) }
        ensures takes { is_gone self.old ≡ false
            → Takes (is_claimed (at_number (parts_of self.old).daemon.tasks serial))
            (after_end (parts_of self.old).daemon serial (Ended exit cpu mem io))
            (parts_of self.old) (parts_of self.new) (done_of result)
            (areas_of D.told D.syncs D.disk_faults a.old b.old)
            (areas_of D.told D.syncs D.disk_faults a.new b.new) }
        ensures gone { is_gone self.old ≡ true → (result ≡ Err Dead) × (self.new ≡ self.old) × (a.new ≡ a.old) × (b.new ≡ b.old) }
        ensures goes { is_gone self.new ≡ is_stop result }
        ensures length { HasLength self.new (D.told a.new) (D.told b.new) }
        ensures syncs_a { D.syncs a.old ≤ D.syncs a.new }
        ensures syncs_b { D.syncs b.old ≤ D.syncs b.new }
        ensures faults_a { D.disk_faults a.old ≤ D.disk_faults a.new }
        ensures faults_b { D.disk_faults b.old ≤ D.disk_faults b.new }
    {
        if self.dead {
            return Err(HostStop::Dead);
        }
        let was = self.daemon.ended(serial, exit, cpu, mem, io);
        match self.keep_changed(a, b, was) {
            Ok(()) => Ok(was),
            Err(stop) => Err(stop),
        }
    }

    /// Forgets the kept end of a serial where the master's answer to its report settles it, as [`Daemon::answered`] does.
    pub fn answered<D: Disk>(
        &mut self,
        a: &mut D,
        b: &mut D,
        serial: u64,
        reply: &Reply,
    ) -> Result<(), HostStop>
        requires { HasLength self.old (D.told a.old) (D.told b.old) }
        ensures takes { is_gone self.old ≡ false
            → Takes (settles reply.now.code && is_ended_stage (at_number (parts_of self.old).daemon.tasks serial))
            (after_answer (parts_of self.old).daemon serial reply.now)
            (parts_of self.old) (parts_of self.new) result
            (areas_of D.told D.syncs D.disk_faults a.old b.old)
            (areas_of D.told D.syncs D.disk_faults a.new b.new) }
        ensures gone { is_gone self.old ≡ true → (result ≡ Err Dead) × (self.new ≡ self.old) × (a.new ≡ a.old) × (b.new ≡ b.old) }
        ensures goes { is_gone self.new ≡ is_stop result }
        ensures length { HasLength self.new (D.told a.new) (D.told b.new) }
        ensures syncs_a { D.syncs a.old ≤ D.syncs a.new }
        ensures syncs_b { D.syncs b.old ≤ D.syncs b.new }
        ensures faults_a { D.disk_faults a.old ≤ D.disk_faults a.new }
        ensures faults_b { D.disk_faults b.old ≤ D.disk_faults b.new }
    {
        if self.dead {
            return Err(HostStop::Dead);
        }
        let settled = self.daemon.is_settled_by(serial, reply);
        self.daemon.answered(serial, reply);
        self.keep_changed(a, b, settled)
    }
}
