// Opening a master.
ghost use Rattle.std.specs.Prelude.{◌≡◌, ◌≤◌, false, IfOk};

use crate::Master;
use crate::reading::read_back;
use ge_outside::Disk;
use ge_spool::{OpenFault, Spool};
use std::alloc::Global;

impl Master {
    ghost use Rattle.ge_master.specs.Areas.{areas_of};
    ghost use Rattle.ge_master.specs.Masters.{HasLength, is_gone, is_stopping};
    ghost use Rattle.ge_master.specs.OpeningMasters.{OpensMaster};

    /// Opens the master on two areas, with the cluster that they stand for; where none of them is open, with that before the
    /// first command. A frame that is wrong is answered before anything is written, and a snapshot or record that can't be read
    /// when the areas are as opening leaves them. A stop at any moment leaves what the areas stood for.
    pub fn open<D: Disk>(alloc: Global, a: &mut D, b: &mut D) -> Result<Master, OpenFault>
        ensures opens { OpensMaster result
            (areas_of D.told D.syncs D.disk_faults a.old b.old)
            (areas_of D.told D.syncs D.disk_faults a.new b.new) }
        ensures length { IfOk result (λ master. HasLength master (D.told a.new) (D.told b.new)) }
        ensures lives { IfOk result (λ master. is_gone master ≡ false) }
        ensures going { IfOk result (λ master. is_stopping master ≡ false) }
        ensures syncs_a { D.syncs a.old ≤ D.syncs a.new }
        ensures syncs_b { D.syncs b.old ≤ D.syncs b.new }
        ensures faults_a { D.disk_faults a.old ≤ D.disk_faults a.new }
        ensures faults_b { D.disk_faults b.old ≤ D.disk_faults b.new }
    {
        let (spool, raw) = match Spool::open(alloc, a, b) {
            Ok(opened) => opened,
            Err(fault) => return Err(fault),
        };
        match read_back(alloc, &raw) {
            Ok(cluster) => Ok(Master {
                alloc,
                spool,
                cluster,
                stopping: false,
                dead: false,
            }),
            Err(fault) => Err(fault),
        }
    }
}
