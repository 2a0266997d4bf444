// Appending lines.
ghost use Rattle.std.specs.Prelude.{◌≡◌, ◌⊎◌, ◌+◌, ◌*◌, ◌<◌, ◌≤◌, ◌++◌, ℕ, List as Items, length, take, IfOk, OnOk};
ghost use Rattle.ge_model_rows.specs.AccountRows.{Line as Row};
ghost use Rattle.ge_model_log.specs.Lines.{bytes_of_lines, StandsForOneOf};
ghost use Rattle.ge_outside.specs.Faults.{Rose};
ghost use Rattle.ge_spool.specs.Moments.{Since};
ghost use Rattle.ge_acctlog.specs.Appends.{Answers, OnUnwritten, is_dead_after};
ghost use Rattle.ge_acctlog.specs.Logs.{IsLogged, HasRoom, is_dead, end_of};
ghost use Rattle.ge_acctlog.specs.Records.{AnswersRecords};

use crate::gathering::{gather, put_gate};
use crate::log::Reached;
use crate::{Log, LogStop};
use ge_outside::Disk;
use ge_rows::Line;
use ge_spool::write_behind;

impl Log {
    /// Writes the first of these lines behind the others, in records of so many each, the rest in the last: as many records as one write has
    /// room for, and no fewer than one. It answers how many lines it wrote, which are there for good then. The gate before them is opened
    /// once they are all on the disk: at each moment before, a stop leaves the lines that stood before, or those with all of these.
    pub fn append_records<D: Disk>(
        &mut self,
        log: &mut D,
        lines: &[Line],
        each: usize,
    ) -> Result<usize, LogStop>
        requires some { 0 < length lines.now }
        requires each { 0 < each }
        requires room { HasRoom self.old (D.told log.old) }

        ensures done { (held : Items Row) → IsLogged self.old (D.told log.old) held
            → IfOk result (λ n. IsLogged self.new (D.told log.new) (held ++ take n lines.now)) }

        // At each moment every image stands for the lines before, or for those with the new ones.
        ensures since { (held : Items Row) → IsLogged self.old (D.told log.old) held
            → (k : ℕ) × (0 < k) × Since (D.told log.old) (D.told log.new) (StandsForOneOf held (held ++ take (k * each) lines.now)) }

        ensures answer { AnswersRecords result (is_dead self.old) each (end_of self.old) lines.now (end_of self.new)
            (Rose (D.disk_faults log.old) (D.disk_faults log.new)) }
        ensures wrote { IfOk result (λ n. 0 < n) }
        ensures few { IfOk result (λ n. n ≤ length lines.now) }
        ensures dead { is_dead self.new ≡ is_dead_after result (is_dead self.old) }
        ensures untouched { OnUnwritten result ((self.new ≡ self.old) × (log.new ≡ log.old)) }
        ensures room { HasRoom self.new (D.told log.new) }
        ensures grows { length (D.told log.old) ≤ length (D.told log.new) }
        ensures syncs { D.syncs log.new ≤ D.syncs log.old + 2 }
        ensures later { D.syncs log.old ≤ D.syncs log.new }
        ensures faults { D.disk_faults log.old ≤ D.disk_faults log.new }
    {
        if self.dead {
            return Err(LogStop::Dead);
        }
        let (mut records, count) = gather(self.alloc, self.end, lines, each)?;
        let end = self.end + records.len() as u64;
        put_gate(&mut records)?;
        let (_, piece) = records.as_slice().split_at(1);
        if write_behind(log, self.end, piece).is_err() {
            self.dead = true;
            return Err(LogStop::Disk);
        }
        self.end = end;
        self.count += count as u64;
        self.reached = Reached::start(self.alloc);
        Ok(count)
    }

    /// Writes lines behind the others, as one record. At `Ok` they are there for good. At each moment before, a stop leaves the
    /// lines that stood before, or those with the new ones.
    pub fn append<D: Disk>(&mut self, log: &mut D, lines: &[Line]) -> Result<(), LogStop>
        requires some { 0 < length lines.now }
        requires room { HasRoom self.old (D.told log.old) }

        ensures done { (held : Items Row) → IsLogged self.old (D.told log.old) held
            → OnOk result (IsLogged self.new (D.told log.new) (held ++ lines.now)) }

        // At each moment every image stands for the lines before, or for those with the new ones.
        ensures since { (held : Items Row) → IsLogged self.old (D.told log.old) held
            → Since (D.told log.old) (D.told log.new) (StandsForOneOf held (held ++ lines.now)) }

        ensures answer { Answers result (is_dead self.old) (end_of self.old + 6 + length (bytes_of_lines lines.now))
            (Rose (D.disk_faults log.old) (D.disk_faults log.new)) }
        ensures ends { OnOk result (end_of self.new ≡ end_of self.old + 5 + length (bytes_of_lines lines.now)) }
        ensures dead { is_dead self.new ≡ is_dead_after result (is_dead self.old) }
        ensures untouched { OnUnwritten result ((self.new ≡ self.old) × (log.new ≡ log.old)) }
        ensures room { HasRoom self.new (D.told log.new) }
        ensures grows { length (D.told log.old) ≤ length (D.told log.new) }
        ensures syncs { D.syncs log.new ≤ D.syncs log.old + 2 }
        ensures later { D.syncs log.old ≤ D.syncs log.new }
        ensures faults { D.disk_faults log.old ≤ D.disk_faults log.new }
    {
        match self.append_records(log, lines, lines.len()) {
            Ok(_) => Ok(()),
            Err(stop) => Err(stop),
        }
    }
}
