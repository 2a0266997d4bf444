// The lines of a cluster, flushed to the log.
ghost use Rattle.std.specs.Prelude.{◌≡◌, ◌≢◌, ◌+◌, ◌≤◌, ◌⊎◌, ℕ, List as Items, Result, [], ◌∷◌, length, IfOk, OnOk};
ghost use Rattle.ge_model_rows.specs.AccountRows.{Line as Row};
ghost use Rattle.ge_model_journal.specs.Disk.{read_bytes};
ghost use Rattle.ge_model_log.specs.Lines.{stands_for};
ghost use Rattle.ge_model_log.specs.declared.Wrong.{Wrong};
ghost use Rattle.ge_model_program.specs.Statuses.{IsOneStatusOf};
ghost use Rattle.ge_outside.specs.Faults.{Rose};
ghost use Rattle.ge_outside.specs.Streams.{Gains, GainsPrefix};
ghost use Rattle.ge_spool.specs.Moments.{IsQuiet, Since};
ghost use Rattle.ge_spool.specs.Opening.{Tells};
ghost use Rattle.ge_master.specs.Areas.{areas_of};
ghost use Rattle.ge_gridacct.specs.Faults.{Blames};
ghost use Rattle.ge_gridacct.specs.Flushes.{FlushAnswers, FlushesLines, Flushes, flushed_line};
ghost use Rattle.ge_gridacct.specs.Fronts.{KeepsFront};
ghost use Rattle.ge_gridacct.specs.Sights.{LogSays, sight_of};

use crate::comparing::holds_front;
use crate::faults::{DONE, Fault, status_of, status_of_open};
use crate::records::append_all;
use ge_acctlog::Log;
use ge_master::Master;
use ge_outside::{Disk, Sink, write_all};
use ge_rows::{Line, Text};
use std::alloc::{AllocError, Global};

// Opens the log, compares its lines with these, and appends those that it hasn't, and tells how many.
fn append_missing<E: Disk>(alloc: Global, disk: &mut E, lines: &[Line]) -> Result<usize, Fault>
    ensures answer { (found : Result (Items Row × ℕ) Wrong) → LogSays (E.told disk.old) found
        → FlushAnswers result found lines.now }
    ensures since { (bytes : Items ℕ) → IsQuiet (E.told disk.old) bytes
        → Since (E.told disk.old) (E.told disk.new) (KeepsFront (stands_for bytes) lines.now) }
    ensures all { OnOk result (Tells (E.told disk.old)
        → IsQuiet (E.told disk.new) (read_bytes (E.told disk.new))
        × (stands_for (read_bytes (E.told disk.new)) ≡ Ok lines.now)) }
    ensures few { IfOk result (λ appended. appended ≤ length lines.now) }
    ensures blames { Blames result (Rose (E.disk_faults disk.old) (E.disk_faults disk.new)) ⊥ }
{
    let mut log = Log::open(alloc, disk)?;
    let front = holds_front(&mut log, disk, lines)?;
    if !front {
        return Err(Fault::Other);
    }
    let (_, missing) = lines.split_at(log.count() as usize);
    append_all(&mut log, disk, missing)?;
    Ok(missing.len())
}

#[tactic(auto, unfolding(crate::specs::Flushes::flushed_line))]
fn line_of(alloc: Global, appended: usize, all: usize) -> Result<Text, AllocError>
    ensures { IfOk result (λ line. line ≡ flushed_line appended all) }
{
    let mut line = Text::from_bytes(alloc, b"flushed ")?;
    line.append(appended.to_string(alloc)?.as_bytes())?;
    line.append(b" of ")?;
    line.append(all.to_string(alloc)?.as_bytes())?;
    line.push(b'\n')?;
    Ok(line)
}

// Writes how many lines were appended, and how many there are.
fn write_line<K: Sink>(alloc: Global, appended: usize, all: usize, output: &mut K) -> u8
    ensures ends { (result ≡ 0) ⊎ (result ≡ 7) ⊎ (result ≡ 10) }
    ensures whole { result ≡ 0
        → Gains (K.written output.old) (K.written output.new) (flushed_line appended all) }
    ensures cut { result ≡ 7
        → GainsPrefix (K.written output.old) (K.written output.new) (flushed_line appended all) }
    ensures unwritten { result ≡ 10 → K.written output.new ≡ K.written output.old }
    ensures write { result ≡ 7 → Rose (K.write_faults output.old) (K.write_faults output.new) }
{
    match line_of(alloc, appended, all) {
        Ok(line) => match write_all(output, line.bytes()) {
            Ok(()) => DONE,
            Err(_) => status_of(Fault::Write),
        },
        Err(_) => status_of(Fault::Memory),
    }
}

// Flushes lines to the log, and writes how many.
fn flush_lines<K: Sink, E: Disk>(alloc: Global, lines: &[Line], output: &mut K, disk: &mut E) -> u8
    ensures statuses { IsOneStatusOf (0 ∷ 4 ∷ 5 ∷ 7 ∷ 8 ∷ 10 ∷ 11 ∷ 12 ∷ []) result }
    ensures spool { result ≢ 4 }
    ensures flushes { FlushesLines result lines.now
        (sight_of K.written K.write_faults E.told E.disk_faults output.old disk.old)
        (sight_of K.written K.write_faults E.told E.disk_faults output.new disk.new) }
    ensures unwritten { result ≢ 0 → result ≢ 7 → K.written output.new ≡ K.written output.old }
    ensures write { result ≡ 7 → Rose (K.write_faults output.old) (K.write_faults output.new) }
    ensures disk { result ≡ 8 → Rose (E.disk_faults disk.old) (E.disk_faults disk.new) }
{
    match append_missing(alloc, disk, lines) {
        Ok(appended) => write_line(alloc, appended, lines.len(), output),
        Err(fault) => status_of(fault),
    }
}

/// Opens the areas and flushes the lines of the cluster that they stand for.
pub(crate) fn flush<K: Sink, D: Disk, E: Disk>(
    alloc: Global,
    output: &mut K,
    a: &mut D,
    b: &mut D,
    log: &mut E,
) -> u8
    ensures { Flushes result
        (areas_of D.told D.syncs D.disk_faults a.old b.old)
        (areas_of D.told D.syncs D.disk_faults a.new b.new)
        (sight_of K.written K.write_faults E.told E.disk_faults output.old log.old)
        (sight_of K.written K.write_faults E.told E.disk_faults output.new log.new) }
{
    match Master::open(alloc, a, b) {
        Ok(master) => flush_lines(alloc, master.cluster().lines.items(), output, log),
        Err(fault) => status_of_open(&fault),
    }
}
