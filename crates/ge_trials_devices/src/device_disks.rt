//! A disk in memory.
ghost use Rattle.ge_model_journal.specs.Disk.{IsWithin};
ghost use Rattle.ge_outside.specs.MemoryDisks.{disk_told};

use ge_outside::{Disk, Failed, MemDisk};
use ge_rows::Text;
use ge_trials_rows::{append_hex, failing};
use std::alloc::{AllocError, Global};

// How an answer without a value is told.
fn append_done(line: &mut Text, answer: Result<(), Failed>) -> Result<(), AllocError> {
    match answer {
        Ok(()) => line.append(b"done, "),
        Err(Failed) => line.append(b"failed, "),
    }
}

// How long a disk is, what it has from place 1 on, and whether it is synced.
fn append_read(alloc: Global, line: &mut Text, disk: &mut MemDisk) -> Result<(), AllocError>
    ensures { IsWithin (disk_told disk.old) 0 → IsWithin (disk_told disk.new) 0 }
{
    if let Ok(len) = disk.len() {
        line.append(format!(in alloc; "{len} long, ")?.as_bytes())?;
    }
    let mut buf = [0; 8];
    if let Ok(count) = disk.read_at(1, &mut buf) {
        let (read, _) = buf.as_slice().split_at(count);
        line.append(read)?;
        line.append(b" read, ")?;
    }
    append_done(line, disk.sync())
}

/// A row `disk CALL`: `abcd`, over which `xyz` is written from place 2 on, read, and then `!` is
/// written at its front, where a call fails.
pub(crate) fn told(alloc: Global, given: &[u8]) -> Result<Text, AllocError> {
    let mut disk = MemDisk::new(alloc, b"abcd".to_vec(alloc)?, failing(alloc, given)?);
    let mut line = Text::new(alloc);
    if disk.write_at(2, b"xyz").is_ok() {
        append_read(alloc, &mut line, &mut disk)?;
        append_done(&mut line, disk.write_at(0, b"!"))?;
    }
    line.append(disk.bytes())?;
    Ok(line)
}

// `abcd`, over which `xyz` is written from place 2 on.
fn overwritten(alloc: Global) -> Result<MemDisk, AllocError> {
    let mut disk = MemDisk::new(alloc, b"abcd".to_vec(alloc)?, Vec::new(alloc));
    match disk.write_at(2, b"xyz") {
        Ok(()) => Ok(disk),
        Err(Failed) => Err(AllocError),
    }
}

fn append_image(
    alloc: Global,
    line: &mut Text,
    disk: &MemDisk,
    pick: u64,
) -> Result<(), AllocError> {
    append_hex(alloc, line, disk.image(pick)?.bytes())?;
    line.append(b" ")
}

/// A row `image`: images of such a disk by three draws, and by the last once it is synced.
pub(crate) fn images(alloc: Global) -> Result<Text, AllocError> {
    let mut disk = overwritten(alloc)?;
    let mut line = Text::new(alloc);
    append_image(alloc, &mut line, &disk, 2)?;
    append_image(alloc, &mut line, &disk, 3)?;
    append_image(alloc, &mut line, &disk, 4)?;
    append_done(&mut line, disk.sync())?;
    append_image(alloc, &mut line, &disk, 4)?;
    Ok(line)
}
