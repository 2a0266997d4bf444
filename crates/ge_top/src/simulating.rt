// A script in one process.
ghost use Rattle.ge_model_program.specs.Simulating.{Simulates};

use crate::answering::{AnswerFault, answer_script};
use crate::statuses::{DONE, LONG, NO_MEMORY, READ_FAULT, WRITE_FAULT};
use ge_outside::{Sink, Source};
use std::alloc::Global;

/// Reads a script piece by piece and writes the rendered replies to its requests, from the opening cluster; touches no disk.
/// At status 0 the whole output of a trace of all events was written, and the input was read to its end unless the trace
/// stops the master. At every other status the output gained a front of such an output, which ends at the end of a reply
/// except at status 7.
pub fn simulate<S: Source, K: Sink>(alloc: Global, input: &mut S, output: &mut K) -> u8
    ensures { Simulates result (S.rest input.old) (S.rest input.new)
        (S.read_faults input.old) (S.read_faults input.new)
        (K.written output.old) (K.written output.new)
        (K.write_faults output.old) (K.write_faults output.new) }
{
    match answer_script(alloc, input, output) {
        Ok(()) => DONE,
        Err(AnswerFault::Read) => READ_FAULT,
        Err(AnswerFault::Long) => LONG,
        Err(AnswerFault::Write) => WRITE_FAULT,
        Err(AnswerFault::Memory) => NO_MEMORY,
    }
}
