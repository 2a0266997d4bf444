// Reading lines by their numbers.
ghost use Rattle.std.specs.Prelude.{◌≡◌, ◌+◌, ◌<◌, ◌≤◌, ◌^◌, ℕ, List as Items, length, Ok, IsOk, OnOk, OnErr};
ghost use Rattle.ge_model_journal.specs.Disk.{read_bytes};
ghost use Rattle.ge_model_log.specs.Lines.{logged};
ghost use Rattle.ge_model_rows.specs.AccountRows.{Line as Row};
ghost use Rattle.ge_outside.specs.Faults.{Rose};
ghost use Rattle.ge_spool.specs.Opening.{Tells};
ghost use Rattle.ge_acctlog.specs.Logs.{IsReached, IsLogged, HasReached, IsSameLog, count_of, reached_of};
ghost use Rattle.ge_acctlog.specs.Reads.{Blames, IsDiskOrMemory};
ghost use Rattle.ge_acctlog.specs.Lines.{ReadsLine, IsCounted, OnSome};

use crate::areas::{body_at, size_at};
use crate::bodies::lines_of;
use crate::copying::copied;
use crate::log::Reached;
use crate::{Log, LogFault};
use ge_outside::Disk;
use ge_rows::Line;
use std::alloc::Global;

// Goes on to the next record, of a log whose list ends at a place.
fn go_on<D: Disk>(
    reached: &mut Reached,
    alloc: Global,
    log: &mut D,
    end: u64,
) -> Result<(), LogFault>
    requires within { reached.old.next ≤ end }
    requires bound { end ≤ 2 ^ 62 }
    requires first { reached.old.first + length reached.old.lines ≤ 2 ^ 62 }
    ensures reached { (lines : Items Row) → Tells (D.told log.old) → IsReached reached.old (read_bytes (D.told log.old)) lines end
        → reached.old.first + length reached.old.lines < length lines → IsReached reached.new (read_bytes (D.told log.old)) lines end }
    ensures right { (lines : Items Row) → Tells (D.told log.old) → IsReached reached.old (read_bytes (D.told log.old)) lines end
        → reached.old.first + length reached.old.lines < length lines → IsDiskOrMemory result }
    ensures first { OnOk result (reached.new.first ≡ reached.old.first + length reached.old.lines) }
    ensures some { OnOk result (0 < length reached.new.lines) }
    ensures within { reached.new.next ≤ end }
    ensures same { OnErr result (reached.new ≡ reached.old) }
    ensures told { D.told log.new ≡ D.told log.old }
    ensures syncs { D.syncs log.new ≡ D.syncs log.old }
    ensures later { D.disk_faults log.old ≤ D.disk_faults log.new }
    ensures blames { Blames result (Rose (D.disk_faults log.old) (D.disk_faults log.new)) }
{
    let gate = reached.next;
    let Ok(size) = size_at(log, gate) else {
        return Err(LogFault::Disk);
    };
    let next = gate + 5 + u64::from(size);
    if size == 0 || next > end {
        return Err(LogFault::Frame(gate + 1));
    }
    let body = body_at(alloc, log, gate + 5, size)?;
    let read = lines_of(alloc, body.as_slice())?;
    let Some(lines) = read else {
        return Err(LogFault::Bad(gate + 5));
    };
    reached.first += reached.lines.len() as u64;
    reached.next = next;
    reached.lines = lines;
    Ok(())
}

// Goes on to the record with the line of a number, of a log whose list ends at a place.
fn reach<D: Disk>(
    reached: &mut Reached,
    alloc: Global,
    log: &mut D,
    end: u64,
    k: u64,
) -> Result<(), LogFault>
    requires within { reached.old.next ≤ end }
    requires bound { end ≤ 2 ^ 62 }
    requires below { k < end }
    requires first { reached.old.first ≤ k }
    ensures reached { (lines : Items Row) → Tells (D.told log.old) → IsReached reached.old (read_bytes (D.told log.old)) lines end
        → k < length lines → IsReached reached.new (read_bytes (D.told log.old)) lines end }
    ensures right { (lines : Items Row) → Tells (D.told log.old) → IsReached reached.old (read_bytes (D.told log.old)) lines end
        → k < length lines → IsDiskOrMemory result }
    ensures here { OnOk result (k < reached.new.first + length reached.new.lines) }
    ensures first { reached.new.first ≤ k }
    ensures within { reached.new.next ≤ end }
    ensures told { D.told log.new ≡ D.told log.old }
    ensures syncs { D.syncs log.new ≡ D.syncs log.old }
    ensures later { D.disk_faults log.old ≤ D.disk_faults log.new }
    ensures blames { Blames result (Rose (D.disk_faults log.old) (D.disk_faults log.new)) }
    ensures kept { k < reached.old.first + length reached.old.lines → (reached.new ≡ reached.old) × (log.new ≡ log.old) × IsOk result }
{
    'records: while reached.lines.len() as u64 <= k - reached.first {
        go_on(reached, alloc, log, end)?;
    }
    Ok(())
}

// Goes back to the start where the line of a number stands before the record that was read last.
fn go_back(reached: &mut Reached, alloc: Global, k: u64)
    ensures reached { (bytes : Items ℕ) (lines : Items Row) (end : ℕ) → logged bytes ≡ Ok (lines, end) → IsReached reached.old bytes lines end
        → IsReached reached.new bytes lines end }
    ensures first { reached.new.first ≤ k }
    ensures within { reached.new.next ≤ reached.old.next }
    ensures kept { reached.old.first ≤ k → reached.new ≡ reached.old }
{
    if k < reached.first {
        *reached = Reached::start(alloc);
    }
}

impl Log {
    /// The line of a number, counted from 0; none where the number isn't below the count. A line of the record that was read last is
    /// read without the disk, and from there a walk goes on record by record. On a disk that tells, where the log is at rest on it,
    /// nothing is wrong but the disk or memory.
    pub fn read<D: Disk>(&mut self, log: &mut D, k: u64) -> Result<Option<Line>, LogFault>
        ensures line { (lines : Items Row) → IsLogged self.old (D.told log.old) lines → ReadsLine result k lines }
        ensures rests { (lines : Items Row) → IsLogged self.old (D.told log.old) lines → IsLogged self.new (D.told log.new) lines }
        ensures counted { IsCounted result k (count_of self.old) }
        ensures reached { OnSome result (HasReached self.new k) }
        ensures kept { HasReached self.old k → (reached_of self.new ≡ reached_of self.old) × (log.new ≡ log.old) }
        ensures same { IsSameLog self.old self.new }
        ensures told { D.told log.new ≡ D.told log.old }
        ensures syncs { D.syncs log.new ≡ D.syncs log.old }
        ensures faults { D.disk_faults log.old ≤ D.disk_faults log.new }
        ensures blames { Blames result (Rose (D.disk_faults log.old) (D.disk_faults log.new)) }
    {
        if k >= self.count {
            return Ok(None);
        }
        go_back(&mut self.reached, self.alloc, k);
        reach(&mut self.reached, self.alloc, log, self.end, k)?;
        let at = (k - self.reached.first) as usize;
        let lines = self.reached.lines.items();
        let line = copied(self.alloc, &lines[at])?;
        Ok(Some(line))
    }
}
