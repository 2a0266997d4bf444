// Lines appended in records.
ghost use Rattle.std.specs.Prelude.{◌≡◌, ◌≤◌, ◌++◌, OnOk, List as Items, false};
ghost use Rattle.ge_model_rows.specs.AccountRows.{Line as Row};
ghost use Rattle.ge_outside.specs.Faults.{Rose};
ghost use Rattle.ge_spool.specs.Moments.{Since};
ghost use Rattle.ge_acctlog.specs.Logs.{IsLogged, HasRoom, end_of, is_dead};
ghost use Rattle.ge_gridacct.specs.Fronts.{StandsBehind};
ghost use Rattle.ge_gridacct.specs.Records.{AppendsAll};

use ge_acctlog::{Log, LogStop};
use ge_outside::Disk;
use ge_rows::Line;

/// How many lines a record has, but for the last.
const RECORD_LINES: usize = 1_024;

/// Appends all of these lines. At each moment a stop leaves what stood before, and the first of them.
pub(crate) fn append_all<E: Disk>(
    log: &mut Log,
    disk: &mut E,
    lines: &[Line],
) -> Result<(), LogStop>
    requires room { HasRoom log.old (E.told disk.old) }
    requires alive { is_dead log.old ≡ false }
    ensures done { (held : Items Row) → IsLogged log.old (E.told disk.old) held
        → OnOk result (IsLogged log.new (E.told disk.new) (held ++ lines.now)) }
    ensures since { (held : Items Row) → IsLogged log.old (E.told disk.old) held
        → Since (E.told disk.old) (E.told disk.new) (StandsBehind held lines.now) }
    ensures answer { AppendsAll result (end_of log.old) lines.now
        (Rose (E.disk_faults disk.old) (E.disk_faults disk.new)) }
    ensures faults { E.disk_faults disk.old ≤ E.disk_faults disk.new }
{
    let mut rest = lines;
    'records: while !rest.is_empty() {
        match log.append_records(disk, rest, RECORD_LINES) {
            Ok(appended) => {
                let (_, others) = rest.split_at(appended);
                rest = others;
            }
            Err(stop) => return Err(stop),
        }
    }
    Ok(())
}
