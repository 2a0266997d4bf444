// Replies that are held, so that many are written at once.
ghost use Rattle.std.specs.Prelude.{◌≡◌, ◌++◌, [], if◌then◌else◌, OnOk, OnErr};
ghost use Rattle.ge_outside.specs.Faults.{HasCause};
ghost use Rattle.ge_outside.specs.Streams.{Gains, GainsPrefix};
ghost use Rattle.ge_top.specs.Holding.{with_held, HasGained};

use ge_outside::{Failed, Sink, write_all};

/// How many bytes of replies are held at most.
const ROOM: usize = 65_536;

/// Writes what is held.
pub(crate) fn write_held<K: Sink>(output: &mut K, held: &mut Vec<u8>) -> Result<(), Failed>
    ensures whole { OnOk result (K.written output.new
        ≡ with_held (K.written output.old) held.old.items) }
    ensures none { OnOk result (held.new.items ≡ []) }
    ensures front { OnErr result
        (GainsPrefix (K.written output.old) (K.written output.new) held.old.items) }
    ensures gained { HasGained (K.written output.old) (K.written output.new) }
    ensures cause { HasCause (K.write_faults output.old) (K.write_faults output.new) result }
{
    write_all(output, held.as_slice())?;
    held.clear();
    Ok(())
}

// Holds a reply where there is room, and tells whether there was.
fn has_held(held: &mut Vec<u8>, reply: &[u8]) -> bool
    ensures { held.new.items ≡ if result then held.old.items ++ reply.now else held.old.items }
{
    held.len() + reply.len() <= ROOM && held.extend_from_slice(reply).is_ok()
}

/// Holds a reply. Where there is no room for it, what is held is written, and then the reply.
pub(crate) fn hold<K: Sink>(output: &mut K, held: &mut Vec<u8>, reply: &[u8]) -> Result<(), Failed>
    ensures whole { OnOk result (Gains (with_held (K.written output.old) held.old.items)
        (with_held (K.written output.new) held.new.items) reply.now) }
    ensures front { OnErr result (GainsPrefix (K.written output.old) (K.written output.new)
        (held.old.items ++ reply.now)) }
    ensures gained { HasGained (K.written output.old) (K.written output.new) }
    ensures cause { HasCause (K.write_faults output.old) (K.write_faults output.new) result }
{
    if has_held(held, reply) {
        return Ok(());
    }
    write_held(output, held)?;
    write_all(output, reply)
}
