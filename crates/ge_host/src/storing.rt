// Keeping a daemon.
ghost use Rattle.std.specs.Prelude.{◌≡◌, ◌<◌, ◌≤◌, false, length, Some, IfOk, OnOk};
ghost use Rattle.ge_execd.specs.Daemons.{new_daemon};
ghost use Rattle.ge_keeping.specs.Areas.{areas_of};
ghost use Rattle.ge_keeping.specs.Changing.{Changes};
ghost use Rattle.ge_spool.specs.Settled.{HasRoom, is_dead};
ghost use Rattle.ge_host.specs.Hosts.{StopsAs};
ghost use Rattle.ge_host.specs.Standing.{daemon_in, daemon_bytes};

use crate::HostStop;
use ge_codec::Canon;
use ge_execd::Daemon;
use ge_keeping::{KeepFault, keep};
use ge_outside::Disk;
use ge_rows::Text;
use ge_spool::Spool;
use std::alloc::{AllocError, Global};

// The bytes of a daemon, which are read as it again.
#[tactic(auto, using(crate::proofs::Written::written_reads, crate::proofs::Written::some_written), unfolding(crate::specs::Standing::daemon_bytes))]
fn daemon_text(alloc: Global, daemon: &Daemon) -> Result<Text, AllocError>
    ensures bytes { IfOk result (λ text. text ≡ daemon_bytes daemon.now) }
    ensures reads { IfOk result (λ text. daemon_in daemon.now.host text ≡ Some daemon.now) }
    ensures some { IfOk result (λ text. 0 < length text) }
{
    let mut text = Text::new(alloc);
    daemon.put(&mut text)?;
    Ok(text)
}

/// Keeps a daemon in a journal that lives, in the place of another one of its host. At `Ok` it is there for good.
pub(crate) fn store<D: Disk>(
    alloc: Global,
    spool: &mut Spool,
    a: &mut D,
    b: &mut D,
    daemon: &Daemon,
) -> Result<(), KeepFault>
    requires alive { is_dead spool.old ≡ false }
    requires room { HasRoom spool.old (D.told a.old) (D.told b.old) }
    ensures changes { (old : Daemon) → Changes
        (daemon_in daemon.now.host) (new_daemon daemon.now.host) (daemon_bytes daemon.now)
        spool.old spool.new old daemon.now result
        (areas_of D.told D.syncs D.disk_faults a.old b.old)
        (areas_of D.told D.syncs D.disk_faults a.new b.new) }
    ensures room { OnOk result (HasRoom spool.new (D.told a.new) (D.told b.new)) }
    ensures alive { OnOk result (is_dead spool.new ≡ false) }
    ensures syncs_a { D.syncs a.old ≤ D.syncs a.new }
    ensures syncs_b { D.syncs b.old ≤ D.syncs b.new }
    ensures faults_a { D.disk_faults a.old ≤ D.disk_faults a.new }
    ensures faults_b { D.disk_faults b.old ≤ D.disk_faults b.new }
{
    let Ok(bytes) = daemon_text(alloc, daemon) else {
        return Err(KeepFault::Memory);
    };
    keep(alloc, spool, a, b, &bytes)
}

/// The stop that a fault of keeping makes.
pub(crate) fn stop_of(fault: KeepFault) -> HostStop
    ensures { StopsAs fault result }
{
    match fault {
        KeepFault::Disk => HostStop::Disk,
        KeepFault::Full(place) => HostStop::Full(place),
        KeepFault::Memory => HostStop::Memory,
        KeepFault::Dead => HostStop::Dead,
    }
}
