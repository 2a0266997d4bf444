// Reading the area that counts.
ghost use Rattle.std.specs.Prelude.{◌≡◌, ◌+◌, ◌-◌, ◌^◌, ◌<◌, ◌≤◌, ℕ, length, drop, IfOk};
ghost use Rattle.ge_model_journal.specs.Disk.{HasLength};
ghost use Rattle.ge_outside.specs.Faults.{Rose};
ghost use Rattle.ge_spool.specs.Opening.{FindsInRest, FindsIn, FitsFound, Blames, ReadsRest, IsNoFrame};

use crate::OpenFault;
use crate::finding::Found;
use crate::surveying::read_records;
use ge_collections::Text;
use ge_outside::Disk;
use std::alloc::Global;

// Finds a snapshot of so many bytes and the records behind it in the bytes that follow a header.
fn parse(alloc: Global, area: u8, rest: &[u8], snapshot_size: u64) -> Result<Found, OpenFault>
    requires fits { 18 + length rest.now ≤ 2 ^ 63 }
    ensures found { snapshot_size ≤ length rest.now → FindsInRest result area snapshot_size rest.now }
    ensures within { IfOk result (λ found. FitsFound found (18 + length rest.now)) }
    ensures blames { Blames result ⊥ }
{
    if (rest.len() as u64) < snapshot_size {
        return Err(OpenFault::Frame(area, 10));
    }
    let (snapshot, behind) = rest.split_at(snapshot_size as usize);
    let (records, end) = read_records(alloc, area, behind, 18 + snapshot_size)?;
    let snapshot = Text::from_bytes(alloc, snapshot)?;
    Ok(Found {
        snapshot,
        records,
        end,
    })
}

// Reads what follows the header of an area of this length.
fn read_rest<D: Disk>(alloc: Global, disk: &mut D, size: u64) -> Result<Vec<u8>, OpenFault>
    requires long { 19 ≤ size }
    requires bound { size ≤ 2 ^ 63 }
    requires whole { HasLength (D.told disk.old) size }
    ensures read { IfOk result (λ rest. ReadsRest (D.told disk.old) rest.items) }
    ensures size { IfOk result (λ rest. 18 + length rest.items ≤ size) }
    ensures told { D.told disk.new ≡ D.told disk.old }
    ensures syncs { D.syncs disk.new ≡ D.syncs disk.old }
    ensures later { D.disk_faults disk.old ≤ D.disk_faults disk.new }
    ensures blames { Blames result (Rose (D.disk_faults disk.old) (D.disk_faults disk.new)) }
    ensures no_frame { IsNoFrame result }
{
    let mut rest = vec![in alloc; 0; (size - 18) as usize]?;
    let Ok(count) = disk.read_at(18, rest.as_mut_slice()) else {
        return Err(OpenFault::Disk);
    };
    rest.truncate(count);
    Ok(rest)
}

/// Finds the snapshot and the records of an area of this length, whose header is sound.
pub fn find<D: Disk>(
    alloc: Global,
    disk: &mut D,
    area: u8,
    size: u64,
    snapshot_size: u64,
) -> Result<Found, OpenFault>
    requires long { 19 ≤ size }
    requires bound { size ≤ 2 ^ 63 }
    requires fits { snapshot_size ≤ size - 18 }
    requires whole { HasLength (D.told disk.old) size }
    ensures found { FindsIn result area snapshot_size (D.told disk.old) }
    ensures within { IfOk result (λ found. FitsFound found size) }
    ensures told { D.told disk.new ≡ D.told disk.old }
    ensures syncs { D.syncs disk.new ≡ D.syncs disk.old }
    ensures later { D.disk_faults disk.old ≤ D.disk_faults disk.new }
    ensures blames { Blames result (Rose (D.disk_faults disk.old) (D.disk_faults disk.new)) }
{
    let rest = read_rest(alloc, disk, size)?;
    parse(alloc, area, rest.as_slice(), snapshot_size)
}
