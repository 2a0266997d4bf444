// What is written of the log's lines.
ghost use Rattle.std.specs.Prelude.{◌≡◌, ◌≤◌, ℕ, List as Items, Result, OnOk};
ghost use Rattle.ge_model_rows.specs.AccountRows.{Line as Row};
ghost use Rattle.ge_model_log.specs.declared.Wrong.{Wrong};
ghost use Rattle.ge_outside.specs.Faults.{Rose};
ghost use Rattle.ge_outside.specs.Streams.{Gains, GainsPrefix};
ghost use Rattle.ge_spool.specs.Moments.{IsQuiet, Since};
ghost use Rattle.ge_acctlog.specs.Logs.{IsLogged};
ghost use Rattle.ge_acctlog.specs.Opens.{StandsAlike};
ghost use Rattle.ge_gridacct.specs.Faults.{Blames};
ghost use Rattle.ge_gridacct.specs.Looks.{LookAnswers, Looks, IsNoFlushFault, IsRight, shown, summed, look_text};
ghost use Rattle.ge_gridacct.specs.Sights.{LogSays, sight_of};

use crate::faults::{DONE, Fault, status_of};
use crate::holding::{hold, write_held};
use crate::texts::{fed, shown_line};
use crate::totals::sums_of;
use crate::words::Look;
use ge_acctlog::Log;
use ge_listing::sums_text;
use ge_outside::{Disk, Sink, write_all};
use std::alloc::Global;

// Writes each line of the log.
fn write_lines<K: Sink, E: Disk>(
    alloc: Global,
    log: &mut Log,
    disk: &mut E,
    output: &mut K,
) -> Result<(), Fault>
    ensures whole { (lines : Items Row) → IsLogged log.old (E.told disk.old) lines
        → OnOk result (Gains (K.written output.old) (K.written output.new) (shown lines)) }
    ensures front { (lines : Items Row) → IsLogged log.old (E.told disk.old) lines
        → GainsPrefix (K.written output.old) (K.written output.new) (shown lines) }
    ensures right { (lines : Items Row) → IsLogged log.old (E.told disk.old) lines
        → IsRight result }
    ensures no_flush { IsNoFlushFault result }
    ensures told { E.told disk.new ≡ E.told disk.old }
    ensures blames { Blames result (Rose (E.disk_faults disk.old) (E.disk_faults disk.new))
        (Rose (K.write_faults output.old) (K.write_faults output.new)) }
    ensures faults { E.disk_faults disk.old ≤ E.disk_faults disk.new }
{
    let mut held = Vec::new(alloc);
    let mut k = 0;
    'lines: loop {
        match log.read(disk, k) {
            Ok(Some(line)) => {
                let text = shown_line(alloc, &line)?;
                hold(output, &mut held, text.bytes())?;
                k += 1;
            }
            Ok(None) => return write_held(output, &mut held),
            Err(fault) => return Err(Fault::from(fault)),
        }
    }
}

// Writes the sums of all lines of the log, or of those of an owner.
fn write_sums<K: Sink, E: Disk>(
    alloc: Global,
    log: &mut Log,
    disk: &mut E,
    output: &mut K,
    all: bool,
    name: &[u8],
) -> Result<(), Fault>
    ensures whole { (lines : Items Row) → IsLogged log.old (E.told disk.old) lines
        → OnOk result (Gains (K.written output.old) (K.written output.new)
        (summed all name.now lines)) }
    ensures front { (lines : Items Row) → IsLogged log.old (E.told disk.old) lines
        → GainsPrefix (K.written output.old) (K.written output.new)
        (summed all name.now lines) }
    ensures right { (lines : Items Row) → IsLogged log.old (E.told disk.old) lines
        → IsRight result }
    ensures no_flush { IsNoFlushFault result }
    ensures told { E.told disk.new ≡ E.told disk.old }
    ensures blames { Blames result (Rose (E.disk_faults disk.old) (E.disk_faults disk.new))
        (Rose (K.write_faults output.old) (K.write_faults output.new)) }
    ensures faults { E.disk_faults disk.old ≤ E.disk_faults disk.new }
{
    let sums = sums_of(log, disk, all, name)?;
    let line = fed(sums_text(alloc, name, &sums)?)?;
    write_all(output, line.bytes())?;
    Ok(())
}

// Writes what is asked of the log's lines.
fn write_text<K: Sink, E: Disk>(
    alloc: Global,
    what: Look,
    name: &[u8],
    log: &mut Log,
    disk: &mut E,
    output: &mut K,
) -> Result<(), Fault>
    ensures whole { (lines : Items Row) → IsLogged log.old (E.told disk.old) lines
        → OnOk result (Gains (K.written output.old) (K.written output.new)
        (look_text what name.now lines)) }
    ensures front { (lines : Items Row) → IsLogged log.old (E.told disk.old) lines
        → GainsPrefix (K.written output.old) (K.written output.new)
        (look_text what name.now lines) }
    ensures right { (lines : Items Row) → IsLogged log.old (E.told disk.old) lines
        → IsRight result }
    ensures no_flush { IsNoFlushFault result }
    ensures told { E.told disk.new ≡ E.told disk.old }
    ensures blames { Blames result (Rose (E.disk_faults disk.old) (E.disk_faults disk.new))
        (Rose (K.write_faults output.old) (K.write_faults output.new)) }
    ensures faults { E.disk_faults disk.old ≤ E.disk_faults disk.new }
{
    match what {
        Look::Lines => write_lines(alloc, log, disk, output),
        Look::Total => write_sums(alloc, log, disk, output, true, b"total"),
        Look::Owner => write_sums(alloc, log, disk, output, false, name),
    }
}

// Opens the log and writes what is asked of its lines.
fn look_at<K: Sink, E: Disk>(
    alloc: Global,
    what: Look,
    name: &[u8],
    output: &mut K,
    disk: &mut E,
) -> Result<(), Fault>
    ensures answer { (found : Result (Items Row × ℕ) Wrong) → LogSays (E.told disk.old) found
        → LookAnswers result found (look_text what name.now)
        (K.written output.old) (K.written output.new) }
    ensures since { (bytes : Items ℕ) → IsQuiet (E.told disk.old) bytes
        → Since (E.told disk.old) (E.told disk.new) (StandsAlike bytes) }
    ensures no_flush { IsNoFlushFault result }
    ensures blames { Blames result (Rose (E.disk_faults disk.old) (E.disk_faults disk.new))
        (Rose (K.write_faults output.old) (K.write_faults output.new)) }
{
    let mut log = Log::open(alloc, disk)?;
    write_text(alloc, what, name, &mut log, disk, output)
}

/// Opens the log and writes what is asked of its lines.
pub(crate) fn look<K: Sink, E: Disk>(
    alloc: Global,
    what: Look,
    name: &[u8],
    output: &mut K,
    disk: &mut E,
) -> u8
    ensures { Looks result (look_text what name.now)
        (sight_of K.written K.write_faults E.told E.disk_faults output.old disk.old)
        (sight_of K.written K.write_faults E.told E.disk_faults output.new disk.new) }
{
    match look_at(alloc, what, name, output, disk) {
        Ok(()) => DONE,
        Err(fault) => status_of(fault),
    }
}
