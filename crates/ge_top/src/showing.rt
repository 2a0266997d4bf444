// What the areas hold, in one line.
ghost use Rattle.std.specs.Prelude.{◌≡◌, ◌++◌, ◌∷◌, [], codes, decimal, length, IfOk};
ghost use Rattle.ge_model_program.specs.Showing.{status_line};
ghost use Rattle.ge_serve.specs.Masters.{cluster_of, spool_of};
ghost use Rattle.ge_spool.specs.Settled.{generation_of, record_count};
ghost use Rattle.ge_top.specs.Shows.{Shows};

use crate::statuses::{DONE, NO_MEMORY, WRITE_FAULT};
use ge_outside::{Sink, write_all};
use ge_rows::Text;
use ge_serve::Master;
use std::alloc::{AllocError, Global};

#[tactic(auto, unfolding(ge_model_program::specs::Showing::status_line))]
fn line_of(alloc: Global, generation: u64, records: u64, jobs: usize) -> Result<Text, AllocError>
    ensures { IfOk result (λ line. line ≡ status_line generation records jobs) }
{
    let mut line = Text::from_bytes(alloc, b"generation ")?;
    line.append(generation.to_string(alloc)?.as_bytes())?;
    line.append(b" records ")?;
    line.append(records.to_string(alloc)?.as_bytes())?;
    line.append(b" jobs ")?;
    line.append(jobs.to_string(alloc)?.as_bytes())?;
    line.push(b'\n')?;
    Ok(line)
}

/// Writes the line of what a master holds.
pub(crate) fn show<K: Sink>(alloc: Global, m: &Master, output: &mut K) -> u8
    ensures { Shows result
        (status_line (generation_of (spool_of m.now)) (record_count (spool_of m.now))
        (length (cluster_of m.now).jobs))
        (K.written output.old) (K.written output.new)
        (K.write_faults output.old) (K.write_faults output.new) }
{
    match line_of(alloc, m.generation(), m.records(), m.cluster().jobs.len()) {
        Ok(line) => match write_all(output, line.bytes()) {
            Ok(()) => DONE,
            Err(_) => WRITE_FAULT,
        },
        Err(_) => NO_MEMORY,
    }
}
