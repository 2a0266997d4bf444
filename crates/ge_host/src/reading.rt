// The daemon that is read from a journal.
ghost use Rattle.std.specs.Prelude.{◌≡◌, ◌+◌, ◌^◌, ◌<◌, length, IfOk};
ghost use Rattle.ge_execd.specs.Daemons.{new_daemon};
ghost use Rattle.ge_keeping.specs.Reading.{ReadsPart, ReadsBack, ReadsBehind};
ghost use Rattle.ge_model_keeping.specs.Wholes.{in_snapshot};
ghost use Rattle.ge_model_journal.specs.Area.{end_from};
ghost use Rattle.ge_spool.specs.Opening.{raw_state};
ghost use Rattle.ge_host.specs.Standing.{daemon_in, held_of};

use ge_codec::{Canon, TakeFault};
use ge_execd::Daemon;
use ge_rows::{Text, Twin};
use ge_spool::{OpenFault, Raw};
use std::alloc::{AllocError, Global};

// The daemon of a host that all of these bytes are; none where they are no such daemon.
#[tactic(auto, unfolding(crate::specs::Standing::daemon_in))]
fn read_daemon(alloc: Global, host: &Text, bytes: &[u8]) -> Result<Option<Daemon>, AllocError>
    ensures { IfOk result (λ daemon. daemon ≡ daemon_in host.now bytes.now) }
{
    match Daemon::take(alloc, bytes, 0) {
        Ok((daemon, end)) => {
            if end == bytes.len() && daemon.host == *host {
                Ok(Some(daemon))
            } else {
                Ok(None)
            }
        }
        Err(TakeFault::Memory) => Err(AllocError),
        Err(TakeFault::Short) => Ok(None),
        Err(TakeFault::Tag(_)) => Ok(None),
        Err(TakeFault::Range(_)) => Ok(None),
    }
}

// The daemon of a snapshot; none where its bytes are no daemon of the host.
fn read_snapshot(alloc: Global, host: &Text, bytes: &[u8]) -> Result<Option<Daemon>, AllocError>
    ensures { IfOk result (λ daemon. ReadsPart daemon
        (in_snapshot (daemon_in host.now) (new_daemon host.now) bytes.now) 18) }
{
    if bytes.is_empty() {
        let host = host.twin(alloc)?;
        return Ok(Some(Daemon::new(alloc, host)));
    }
    let daemon = read_daemon(alloc, host, bytes)?;
    Ok(daemon)
}

// Takes the daemon of the record behind a gate of the area that counts, and tells where the next gate stands.
fn read_behind(
    alloc: Global,
    host: &Text,
    raw: &Raw,
    gate: u64,
    body: &Text,
    daemon: &mut Daemon,
) -> Result<u64, OpenFault>
    requires { gate + 5 + length body.now < 2 ^ 63 }
    ensures { ReadsBehind result raw.now.area gate (length body.now) daemon.new
        (daemon_in host.now body.now) }
{
    let read = read_daemon(alloc, host, body.bytes())?;
    match read {
        Some(later) => {
            *daemon = later;
            Ok(gate + 5 + body.len() as u64)
        }
        None => Err(OpenFault::Bad(raw.area, gate + 5)),
    }
}

/// The daemon of a host that a journal holds, or the place of the part that is none. The list of records ends below 2^63.
pub(crate) fn read_back(alloc: Global, host: &Text, raw: &Raw) -> Result<Daemon, OpenFault>
    requires { end_from (18 + length raw.now.snapshot) raw.now.records < 2 ^ 63 }
    ensures { ReadsBack result raw.now.area (held_of host.now (raw_state raw.now)) }
{
    let read = read_snapshot(alloc, host, raw.snapshot.bytes())?;
    let mut daemon = match read {
        Some(daemon) => daemon,
        None => return Err(OpenFault::Bad(raw.area, 18)),
    };
    let mut gate = 18 + raw.snapshot.len() as u64;
    let records = raw.records.items();
    for record in records {
        gate = match read_behind(alloc, host, raw, gate, record, &mut daemon) {
            Ok(next) => next,
            Err(fault) => return Err(fault),
        };
    }
    Ok(daemon)
}
