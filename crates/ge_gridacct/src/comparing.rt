// Whether what the log holds is a front of the cluster's lines.
ghost use Rattle.std.specs.Prelude.{◌≡◌, ◌≤◌, ◌↔◌, IfOk, IsTrue, List as Items, length};
ghost use Rattle.ge_model_rows.specs.AccountRows.{Line as Row};
ghost use Rattle.ge_outside.specs.Faults.{Rose};
ghost use Rattle.ge_acctlog.specs.Logs.{IsLogged, IsSameLog, count_of};
ghost use Rattle.ge_acctlog.specs.Reads.{Blames, IsDiskOrMemory};
ghost use Rattle.ge_gridacct.specs.Fronts.{IsFront};
ghost use Rattle.ge_gridacct.specs.Lines.{HaveSameTexts, HaveSameNumbers};

use ge_acctlog::{Log, LogFault};
use ge_outside::Disk;
use ge_rows::Line;

fn have_same_texts(line: &Line, other: &Line) -> bool
    ensures { IsTrue result ↔ HaveSameTexts line.now other.now }
{
    line.queue == other.queue
        && line.host == other.host
        && line.group == other.group
        && line.owner == other.owner
        && line.name == other.name
        && line.account == other.account
        && line.project == other.project
        && line.pe == other.pe
}

fn have_same_numbers(line: &Line, other: &Line) -> bool
    ensures { IsTrue result ↔ HaveSameNumbers line.now other.now }
{
    line.job == other.job
        && line.priority == other.priority
        && line.submitted == other.submitted
        && line.start == other.start
        && line.end == other.end
        && line.failed == other.failed
        && line.exit == other.exit
        && line.slots == other.slots
        && line.task == other.task
        && line.cpu == other.cpu
        && line.mem == other.mem
        && line.io == other.io
}

// Whether two lines are one and the same.
fn is_same(line: &Line, other: &Line) -> bool
    ensures { IsTrue result ↔ (line.now ≡ other.now) }
{
    have_same_numbers(line, other) && have_same_texts(line, other)
}

/// Whether the lines of the log are the first of these.
pub(crate) fn holds_front<E: Disk>(
    log: &mut Log,
    disk: &mut E,
    lines: &[Line],
) -> Result<bool, LogFault>
    ensures front { (held : Items Row) → IsLogged log.old (E.told disk.old) held
        → IfOk result (λ front. IsTrue front ↔ IsFront held lines.now) }
    ensures right { (held : Items Row) → IsLogged log.old (E.told disk.old) held
        → IsDiskOrMemory result }
    ensures rests { (held : Items Row) → IsLogged log.old (E.told disk.old) held
        → IsLogged log.new (E.told disk.new) held }
    ensures few { IfOk result (λ front. IsTrue front → count_of log.old ≤ length lines.now) }
    ensures same { IsSameLog log.old log.new }
    ensures told { E.told disk.new ≡ E.told disk.old }
    ensures faults { E.disk_faults disk.old ≤ E.disk_faults disk.new }
    ensures blames { Blames result (Rose (E.disk_faults disk.old) (E.disk_faults disk.new)) }
{
    let mut k = 0;
    'lines: loop {
        match log.read(disk, k as u64) {
            Ok(Some(line)) => {
                if k >= lines.len() || !is_same(&line, &lines[k]) {
                    return Ok(false);
                }
                k += 1;
            }
            Ok(None) => return Ok(true),
            Err(fault) => return Err(fault),
        }
    }
}
