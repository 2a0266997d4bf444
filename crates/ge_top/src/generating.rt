// The script that is made up from a number, written.
ghost use Rattle.std.specs.Prelude.{◌≤◌, OnOk, IsErrOf};
ghost use Rattle.ge_outside.specs.Faults.{Rose};
ghost use Rattle.ge_outside.specs.Streams.{Gains, GainsPrefix};
ghost use Rattle.ge_model_grammar.specs.Generated.{generated_script};
ghost use Rattle.ge_model_program.specs.Generating.{Generates};

use crate::statuses::{DONE, NO_MEMORY, WRITE_FAULT};
use crate::writing::WriteFault;
use ge_outside::{Sink, write_all};
use ge_script::Generator;
use std::alloc::Global;

fn write_script<K: Sink>(alloc: Global, number: u32, output: &mut K) -> Result<(), WriteFault>
    ensures whole { OnOk result (Gains (K.written output.old) (K.written output.new)
        (generated_script number)) }
    ensures front { GainsPrefix (K.written output.old) (K.written output.new)
        (generated_script number) }
    ensures write { IsErrOf result WriteFault.Write
        → Rose (K.write_faults output.old) (K.write_faults output.new) }
    ensures later { K.write_faults output.old ≤ K.write_faults output.new }
{
    let mut generator = Generator::new(alloc, number);
    'requests: loop {
        let request = match generator.next() {
            Ok(Some(request)) => request,
            Ok(None) => return Ok(()),
            Err(_) => return Err(WriteFault::Memory),
        };
        write_all(output, request.bytes())?;
    }
}

/// Writes the script that is made up from a number; reads nothing. At status 0 the whole script was written, at 7, where a
/// write failed, and at 10, where memory ran out, a front of it.
pub fn generate<K: Sink>(alloc: Global, number: u32, output: &mut K) -> u8
    ensures { Generates result number (K.written output.old) (K.written output.new)
        (K.write_faults output.old) (K.write_faults output.new) }
{
    match write_script(alloc, number, output) {
        Ok(()) => DONE,
        Err(WriteFault::Write) => WRITE_FAULT,
        Err(WriteFault::Memory) => NO_MEMORY,
    }
}
