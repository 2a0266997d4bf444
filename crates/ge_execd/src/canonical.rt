// The bytes of a daemon, and of what it keeps of a serial.
ghost use Rattle.std.specs.Prelude.{◌≡◌, ◌++◌, OnOk, OnErr, IsTrue};
ghost use Rattle.ge_codec.specs.Fronts.{IsFront};
ghost use Rattle.ge_execd.specs.Bytes.{end_in as stage_end, stage_of as stage_with, kept_code};

use crate::{Daemon, Stage};
use ge_codec::{Canon, TakeFault};
use ge_rows::{Table, Text};
use std::alloc::{AllocError, Global};

// Exit, cpu, mem and io.
type End = (u32, u64, u64, u64);

// The end that a stage keeps.
fn end_in(stage: &Stage) -> Option<End>
    ensures { result ≡ stage_end stage.now }
{
    match stage {
        Stage::Claimed => None,
        Stage::Ended(exit, cpu, mem, io) => Some((*exit, *cpu, *mem, *io)),
    }
}

// The stage that keeps an end.
fn stage_of(end: Option<End>) -> Stage
    ensures { result ≡ stage_with end }
{
    match end {
        Some((exit, cpu, mem, io)) => Stage::Ended(exit, cpu, mem, io),
        None => Stage::Claimed,
    }
}

impl Canon for Stage {
    ghost use Rattle.ge_execd.specs.Bytes.{stage_code};
    ghost use Rattle.ge_execd.specs.Laws.{stage_canonical};

    ghost code = { stage_code };

    ghost canonical = { stage_canonical };

    fn put(&self, out: &mut Text) -> Result<(), AllocError> {
        end_in(self).put(out)
    }

    #[tactic(auto, using(ge_codec::specs::Passing::fault_passes_made))]
    fn take(alloc: Global, bytes: &[u8], at: usize) -> Result<(Stage, usize), TakeFault> {
        let (end, past) = <Option<End> as Canon>::take(alloc, bytes, at)?;
        Ok((stage_of(end), past))
    }
}

// What follows the host.
#[tactic(auto, using(ge_codec::specs::Fronts::front_is))]
fn put_kept(daemon: &Daemon, out: &mut Text) -> Result<(), AllocError>
    ensures ok { OnOk result (out.new ≡ out.old
        ++ (kept_code.write (daemon.now.seen, daemon.now.tasks))) }
    ensures fits { OnOk result (IsTrue (kept_code.fits (daemon.now.seen, daemon.now.tasks))) }
    ensures err { OnErr result (IsFront out.old out.new) }
{
    daemon.seen.put(out)?;
    daemon.tasks.put(out)
}

impl Canon for Daemon {
    ghost use Rattle.ge_execd.specs.Bytes.{daemon_code};
    ghost use Rattle.ge_execd.specs.Laws.{daemon_canonical};

    ghost code = { daemon_code };

    ghost canonical = { daemon_canonical };

    #[tactic(auto, using(ge_codec::specs::Fronts::front_is))]
    fn put(&self, out: &mut Text) -> Result<(), AllocError> {
        self.host.put(out)?;
        put_kept(self, out)
    }

    #[tactic(auto, using(ge_codec::specs::Passing::fault_passes_made))]
    fn take(alloc: Global, bytes: &[u8], at: usize) -> Result<(Daemon, usize), TakeFault> {
        let ((host, seen, tasks), end) = <(Text, u64, Table<u64, Stage>)>::take(alloc, bytes, at)?;
        Ok((Daemon { host, seen, tasks }, end))
    }
}
