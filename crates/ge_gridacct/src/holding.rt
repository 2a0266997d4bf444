// Lines that are held, so that many are written at once.
ghost use Rattle.std.specs.Prelude.{◌≡◌, ◌≤◌, ◌++◌, ℕ, List, Option, OnOk, OnErr};
ghost use Rattle.ge_outside.specs.Faults.{Rose};
ghost use Rattle.ge_outside.specs.Streams.{Gains, GainsPrefix};
ghost use Rattle.ge_gridacct.specs.Faults.{Blames};
ghost use Rattle.ge_gridacct.specs.Holding.{HasWritten};
ghost use Rattle.ge_gridacct.specs.Looks.{IsNoFlushFault, IsRight};

use crate::faults::Fault;
use ge_outside::{Sink, write_all};

/// How many bytes are held before they are written.
const ROOM: usize = 65_536;

/// Writes what is held.
pub(crate) fn write_held<K: Sink>(output: &mut K, held: &mut Vec<u8>) -> Result<(), Fault>
    ensures whole { (start : Option (List ℕ)) (text : List ℕ)
        → HasWritten start (K.written output.old) held.old.items text
        → OnOk result (HasWritten start (K.written output.new) held.new.items text) }
    ensures all { (start : Option (List ℕ)) (text : List ℕ)
        → HasWritten start (K.written output.old) held.old.items text
        → OnOk result (Gains start (K.written output.new) text) }
    ensures front { (start : Option (List ℕ)) (text : List ℕ)
        → HasWritten start (K.written output.old) held.old.items text
        → GainsPrefix start (K.written output.new) text }
    ensures right { IsRight result }
    ensures no_flush { IsNoFlushFault result }
    ensures later { K.write_faults output.old ≤ K.write_faults output.new }
    ensures blames { Blames result ⊥
        (Rose (K.write_faults output.old) (K.write_faults output.new)) }
{
    write_all(output, held.as_slice())?;
    held.clear();
    Ok(())
}

/// Holds a line behind others, and writes them where they are many.
pub(crate) fn hold<K: Sink>(output: &mut K, held: &mut Vec<u8>, line: &[u8]) -> Result<(), Fault>
    ensures whole { (start : Option (List ℕ)) (text : List ℕ)
        → HasWritten start (K.written output.old) held.old.items text
        → OnOk result (HasWritten start (K.written output.new) held.new.items (text ++ line.now)) }
    ensures front { (start : Option (List ℕ)) (text : List ℕ)
        → HasWritten start (K.written output.old) held.old.items text
        → GainsPrefix start (K.written output.new) (text ++ line.now) }
    ensures right { IsRight result }
    ensures no_flush { IsNoFlushFault result }
    ensures later { K.write_faults output.old ≤ K.write_faults output.new }
    ensures blames { Blames result ⊥
        (Rose (K.write_faults output.old) (K.write_faults output.new)) }
{
    held.extend_from_slice(line)?;
    if held.len() < ROOM {
        return Ok(());
    }
    write_held(output, held)
}
