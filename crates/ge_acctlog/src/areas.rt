// Reading the disk of a log, and closing the end of its list.
ghost use Rattle.ge_limits.specs.Limits.{area_bytes};
ghost use Rattle.std.specs.Prelude.{◌≡◌, ◌+◌, ◌^◌, ◌<◌, ◌≤◌, ℕ, length, IfOk, OnOk};
ghost use Rattle.ge_model_journal.specs.Disk.{IsWithin};
ghost use Rattle.ge_outside.specs.Faults.{HasCause, Rose};
ghost use Rattle.ge_spool.specs.Moments.{IsQuiet, Since};
ghost use Rattle.ge_acctlog.specs.Reads.{ReadsAll, ReadsSize, ReadsBody, Blames, IsDiskOrMemory};
ghost use Rattle.ge_acctlog.specs.Gates.{IsClosedAt, needs_gate, with_gate, IsGateImage, closed_at};

use crate::LogFault;
use ge_limits::AREA_BYTES;
use ge_outside::{Disk, Failed};
use ge_spool::lay;
use std::alloc::Global;

// As many bytes as no memory holds.
const TOO_MANY: u64 = 1 << 62;

/// All bytes of a disk.
pub(crate) fn read_all<D: Disk>(alloc: Global, disk: &mut D) -> Result<Vec<u8>, LogFault>
    ensures read { IfOk result (λ bytes. ReadsAll (D.told disk.old) bytes.items) }
    ensures fits { IfOk result (λ bytes. length bytes.items ≤ 2 ^ 62) }
    ensures told { D.told disk.new ≡ D.told disk.old }
    ensures syncs { D.syncs disk.new ≡ D.syncs disk.old }
    ensures later { D.disk_faults disk.old ≤ D.disk_faults disk.new }
    ensures blames { Blames result (Rose (D.disk_faults disk.old) (D.disk_faults disk.new)) }
    ensures no_other { IsDiskOrMemory result }
{
    let Ok(size) = disk.len() else {
        return Err(LogFault::Disk);
    };
    if size > TOO_MANY {
        return Err(LogFault::Memory);
    }
    let mut bytes = vec![in alloc; 0; size as usize]?;
    let Ok(count) = disk.read_at(0, bytes.as_mut_slice()) else {
        return Err(LogFault::Disk);
    };
    bytes.truncate(count);
    Ok(bytes)
}

// Whether a byte that isn't 1 stands at a place.
fn is_closed(bytes: &[u8], at: u64) -> bool
    requires { at ≤ length bytes.now }
    ensures { result ≡ closed_at bytes.now at }
{
    let at = at as usize;
    at < bytes.len() && bytes[at] != 1
}

/// Gives the end of a list, in a log that holds these bytes, a gate that isn't open, where none is there and the log isn't full.
pub(crate) fn close<D: Disk>(disk: &mut D, bytes: &[u8], end: u64) -> Result<(), Failed>
    requires read { ReadsAll (D.told disk.old) bytes.now }
    requires inside { end ≤ length bytes.now }
    ensures quiet { OnOk result (IsQuiet (D.told disk.old) bytes.now → IsQuiet (D.told disk.new) (with_gate bytes.now end)) }
    ensures since { IsQuiet (D.told disk.old) bytes.now → Since (D.told disk.old) (D.told disk.new) (IsGateImage bytes.now end) }
    ensures far { area_bytes ≤ end → D.told disk.new ≡ D.told disk.old }
    ensures room { OnOk result (end < area_bytes → IsWithin (D.told disk.new) (end + 1)) }
    ensures grows { length (D.told disk.old) ≤ length (D.told disk.new) }
    ensures syncs { D.syncs disk.new ≤ D.syncs disk.old + 1 }
    ensures later { D.syncs disk.old ≤ D.syncs disk.new }
    ensures cause { HasCause (D.disk_faults disk.old) (D.disk_faults disk.new) result }
{
    if end >= AREA_BYTES || is_closed(bytes, end) {
        return Ok(());
    }
    lay(disk, end, &[0])?;
    Ok(())
}

/// The size of the body of the record at a place; 0 where none begins there.
pub(crate) fn size_at<D: Disk>(disk: &mut D, at: u64) -> Result<u32, Failed>
    ensures size { IfOk result (λ size. ReadsSize (D.told disk.old) at size) }
    ensures told { D.told disk.new ≡ D.told disk.old }
    ensures syncs { D.syncs disk.new ≡ D.syncs disk.old }
    ensures cause { HasCause (D.disk_faults disk.old) (D.disk_faults disk.new) result }
{
    let mut head = [0; 5];
    let count = disk.read_at(at, &mut head)?;
    let [gate, n0, n1, n2, n3] = head;
    if count < 5 || gate != 1 {
        return Ok(0);
    }
    Ok(u32::from_be_bytes([n0, n1, n2, n3]))
}

/// So many bytes from a place on, as far as there are any.
pub(crate) fn body_at<D: Disk>(
    alloc: Global,
    disk: &mut D,
    at: u64,
    size: u32,
) -> Result<Vec<u8>, LogFault>
    ensures body { IfOk result (λ body. ReadsBody (D.told disk.old) at size body.items) }
    ensures fits { IfOk result (λ body. length body.items ≤ size) }
    ensures told { D.told disk.new ≡ D.told disk.old }
    ensures syncs { D.syncs disk.new ≡ D.syncs disk.old }
    ensures later { D.disk_faults disk.old ≤ D.disk_faults disk.new }
    ensures blames { Blames result (Rose (D.disk_faults disk.old) (D.disk_faults disk.new)) }
    ensures no_other { IsDiskOrMemory result }
{
    let mut body = vec![in alloc; 0; size as usize]?;
    let Ok(count) = disk.read_at(at, body.as_mut_slice()) else {
        return Err(LogFault::Disk);
    };
    body.truncate(count);
    Ok(body)
}
