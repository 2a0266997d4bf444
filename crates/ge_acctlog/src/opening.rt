// Opening the log.
ghost use Rattle.ge_limits.specs.Limits.{area_bytes};
ghost use Rattle.std.specs.Prelude.{◌≡◌, ◌+◌, ◌≤◌, ℕ, false, List, length, IfOk};
ghost use Rattle.ge_model_journal.specs.Disk.{read_bytes, told_synced};
ghost use Rattle.ge_outside.specs.Faults.{Rose};
ghost use Rattle.ge_spool.specs.Moments.{IsQuiet, Since};
ghost use Rattle.ge_spool.specs.Opening.{Tells};
ghost use Rattle.ge_acctlog.specs.Logs.{HasRoom, is_dead, end_of};
ghost use Rattle.ge_acctlog.specs.Opens.{Opens, StandsAlike, OnWrong};
ghost use Rattle.ge_acctlog.specs.Reads.{Blames};

use crate::areas::{close, read_all};
use crate::counting::count_lines;
use crate::log::Reached;
use crate::{Log, LogFault};
use ge_outside::Disk;
use std::alloc::Global;

impl Log {
    /// Opens the log on a disk, which it syncs and reads. It answers a log at rest with the lines that the bytes stand for. Where the
    /// byte at the end of the list of records is missing or 1, in a log that isn't full, it gets a gate that isn't open, and nothing
    /// else is written. A stop at any moment leaves what the disk stood for.
    pub fn open<D: Disk>(alloc: Global, log: &mut D) -> Result<Log, LogFault>
        // The answer is the one that the bytes tell, want of memory and failures of the disk aside.
        ensures opened { Tells (D.told log.old) → Opens result (read_bytes (D.told log.old)) (D.told log.new) }

        // Where nothing was pending, each image since then stands for what the disk stood for.
        ensures since { (bytes : List ℕ) → IsQuiet (D.told log.old) bytes → Since (D.told log.old) (D.told log.new) (StandsAlike bytes) }

        ensures unwritten { OnWrong result (D.told log.new ≡ told_synced (D.told log.old)) }
        ensures far { IfOk result (λ l. area_bytes ≤ end_of l → D.told log.new ≡ told_synced (D.told log.old)) }
        ensures room { IfOk result (λ l. HasRoom l (D.told log.new)) }
        ensures alive { IfOk result (λ l. is_dead l ≡ false) }
        ensures blames { Blames result (Rose (D.disk_faults log.old) (D.disk_faults log.new)) }
        ensures grows { length (D.told log.old) ≤ length (D.told log.new) }
        ensures syncs { D.syncs log.new ≤ D.syncs log.old + 2 }
        ensures later { D.syncs log.old ≤ D.syncs log.new }
        ensures faults { D.disk_faults log.old ≤ D.disk_faults log.new }
    {
        if log.sync().is_err() {
            return Err(LogFault::Disk);
        }
        let bytes = read_all(alloc, log)?;
        let (count, end) = count_lines(alloc, bytes.as_slice())?;
        if close(log, bytes.as_slice(), end).is_err() {
            return Err(LogFault::Disk);
        }
        Ok(Log {
            alloc,
            end,
            count,
            dead: false,
            reached: Reached::start(alloc),
        })
    }
}
