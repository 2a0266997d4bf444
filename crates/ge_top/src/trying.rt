// The script that is made up from a number, simulated, and what became of its requests counted.
ghost use Rattle.std.specs.Prelude.{◌≡◌, ◌≤◌, List, Bool, length, IfOk, OnOk, IsErrOf};
ghost use Rattle.ge_outside.specs.Faults.{Rose};
ghost use Rattle.ge_outside.specs.Streams.{Gains, GainsPrefix};
ghost use Rattle.ge_rows.specs.declared.cluster.Cluster.{Cluster};
ghost use Rattle.ge_rows.specs.declared.events.Event.{Event};
ghost use Rattle.ge_model_program.specs.Trials.{HasMarks, trial_of, Tries};
ghost use Rattle.ge_top.specs.Tallies.{HasRoom, IsCounted, IsTallied};

use crate::changing::follow;
use crate::statuses::{DONE, NO_MEMORY, WRITE_FAULT};
use crate::tallying::Tally;
use crate::writing::WriteFault;
use ge_opening_cluster::opening;
use ge_outside::{Sink, write_all};
use ge_rows::{Cluster, Event};
use ge_script::{Generator, read_event};
use ge_serve::plan;
use std::alloc::{AllocError, Global};

/// The code of the reply to an event that found no memory.
const NO_MEMORY_CODE: u8 = 99;

// Answers an event, counts its reply, and tells whether the event stops the master. After want of memory the cluster is given
// up.
fn count_event(
    alloc: Global,
    cluster: &mut Cluster,
    event: &Event,
    tally: &mut Tally,
) -> Result<bool, AllocError>
    requires { HasRoom tally.old }
    ensures { IfOk result
        (λ stop. IsCounted cluster.old event.now tally.old tally.new stop cluster.new) }
{
    let Ok(planned) = plan(alloc, cluster, event) else {
        tally.count(NO_MEMORY_CODE, 0);
        return Ok(false);
    };
    tally.add(&planned.reply);
    let stop = planned.stop;
    follow(alloc, cluster, planned)?;
    Ok(stop)
}

// Simulates the script of a number, and counts the replies of its trace.
fn count_requests(alloc: Global, number: u32) -> Result<Tally, AllocError>
    ensures { IfOk result (λ tally. IsTallied number tally) }
{
    let mut generator = Generator::new(alloc, number);
    let mut cluster = opening(alloc)?;
    let mut tally = Tally::new();
    'requests: loop {
        let request = match generator.next() {
            Ok(Some(request)) => request,
            Ok(None) => return Ok(tally),
            Err(want) => return Err(want),
        };
        let event = read_event(alloc, request.bytes())?;
        let stops = count_event(alloc, &mut cluster, &event, &mut tally)?;
        if stops {
            return Ok(tally);
        }
    }
}

fn write_line<K: Sink>(alloc: Global, number: u32, output: &mut K) -> Result<(), WriteFault>
    ensures whole { OnOk result ((marks : List Bool) × HasMarks number marks
        × Gains (K.written output.old) (K.written output.new) (trial_of number marks)) }
    ensures front { (marks : List Bool) × HasMarks number marks
        × GainsPrefix (K.written output.old) (K.written output.new) (trial_of number marks) }
    ensures write { IsErrOf result WriteFault.Write
        → Rose (K.write_faults output.old) (K.write_faults output.new) }
{
    let tally = count_requests(alloc, number)?;
    let line = tally.line(alloc)?;
    write_all(output, line.bytes())?;
    Ok(())
}

/// Simulates the script that is made up from a number, from the opening cluster, and writes one line: how many requests were
/// answered, accepted and refused, and how many tasks were started. Reads nothing and holds one request at a time. At status 0
/// the line is that of a trace of the script, at 7, where a write failed, and at 10, where memory ran out, a front of it was
/// written.
pub fn trial<K: Sink>(alloc: Global, number: u32, output: &mut K) -> u8
    ensures { Tries result number (K.written output.old) (K.written output.new)
        (K.write_faults output.old) (K.write_faults output.new) }
{
    match write_line(alloc, number, output) {
        Ok(()) => DONE,
        Err(WriteFault::Write) => WRITE_FAULT,
        Err(WriteFault::Memory) => NO_MEMORY,
    }
}
