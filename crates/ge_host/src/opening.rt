// Opening a host.
ghost use Rattle.std.specs.Prelude.{◌≡◌, ◌≤◌, false, IfOk};

use crate::Host;
use crate::reading::read_back;
use ge_outside::Disk;
use ge_rows::Text;
use ge_spool::{OpenFault, Spool};
use std::alloc::Global;

impl Host {
    ghost use Rattle.ge_keeping.specs.Areas.{areas_of};
    ghost use Rattle.ge_host.specs.Hosts.{HasLength, OpensHost, is_gone};

    /// Opens the daemon of a host on two areas, as they stand for it; where none of them is open, a new one. A frame that is
    /// wrong is answered before anything is written, and a part that isn't the bytes of a daemon of this host when the areas are
    /// as opening leaves them. A stop at any moment leaves what the areas stood for.
    pub fn open<D: Disk>(alloc: Global, a: &mut D, b: &mut D, host: Text) -> Result<Host, OpenFault>
        ensures opens { OpensHost host result
            (areas_of D.told D.syncs D.disk_faults a.old b.old)
            (areas_of D.told D.syncs D.disk_faults a.new b.new) }
        ensures length { IfOk result (λ opened. HasLength opened (D.told a.new) (D.told b.new)) }
        ensures lives { IfOk result (λ opened. is_gone opened ≡ false) }
        ensures syncs_a { D.syncs a.old ≤ D.syncs a.new }
        ensures syncs_b { D.syncs b.old ≤ D.syncs b.new }
        ensures faults_a { D.disk_faults a.old ≤ D.disk_faults a.new }
        ensures faults_b { D.disk_faults b.old ≤ D.disk_faults b.new }
    {
        let (spool, raw) = match Spool::open(alloc, a, b) {
            Ok(opened) => opened,
            Err(fault) => return Err(fault),
        };
        match read_back(alloc, &host, &raw) {
            Ok(daemon) => Ok(Host {
                alloc,
                spool,
                daemon,
                dead: false,
            }),
            Err(fault) => Err(fault),
        }
    }
}
