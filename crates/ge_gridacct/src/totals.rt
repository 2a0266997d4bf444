// The sums of the log's lines.
ghost use Rattle.std.specs.Prelude.{◌≡◌, ◌≤◌, ◌||◌, ℕ, IfOk, List as Items};
ghost use Rattle.ge_collections.specs.Keyed.{text_eq};
ghost use Rattle.ge_model_rows.specs.AccountRows.{Line as Row};
ghost use Rattle.ge_outside.specs.Faults.{Rose};
ghost use Rattle.ge_acctlog.specs.Logs.{IsLogged};
ghost use Rattle.ge_acctlog.specs.Reads.{Blames, IsDiskOrMemory};
ghost use Rattle.ge_listing.specs.Sums.{AreSums};
ghost use Rattle.ge_gridacct.specs.Sums.{counted};

use ge_acctlog::{Log, LogFault};
use ge_listing::{Sums, no_sums, with_line};
use ge_outside::Disk;
use ge_pieces::is_word;
use ge_rows::Line;

// Whether a line is summed: each where all are, else those of an owner.
fn counts(all: bool, name: &[u8], line: &Line) -> bool
    ensures { result ≡ (all || text_eq line.now.owner name.now) }
{
    all || is_word(line.owner.bytes(), name)
}

/// The sums of all lines of the log, or of those of an owner.
pub(crate) fn sums_of<E: Disk>(
    log: &mut Log,
    disk: &mut E,
    all: bool,
    name: &[u8],
) -> Result<Sums, LogFault>
    ensures sums { (lines : Items Row) → IsLogged log.old (E.told disk.old) lines
        → IfOk result (λ sums. AreSums sums (counted all name.now lines)) }
    ensures right { (lines : Items Row) → IsLogged log.old (E.told disk.old) lines
        → IsDiskOrMemory result }
    ensures told { E.told disk.new ≡ E.told disk.old }
    ensures faults { E.disk_faults disk.old ≤ E.disk_faults disk.new }
    ensures blames { Blames result (Rose (E.disk_faults disk.old) (E.disk_faults disk.new)) }
{
    let mut sums = no_sums();
    let mut k = 0;
    'lines: loop {
        match log.read(disk, k) {
            Ok(Some(line)) => {
                if counts(all, name, &line) {
                    sums = with_line(&sums, &line);
                }
                k += 1;
            }
            Ok(None) => return Ok(sums),
            Err(fault) => return Err(fault),
        }
    }
}
