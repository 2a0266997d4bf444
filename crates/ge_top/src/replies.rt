// The replies to a batch, as one piece.
ghost use Rattle.std.specs.Prelude.{◌≡◌, ◌≤◌, ◌++◌, flat_map, IfOk, OnOk, IsErrOf};
ghost use Rattle.ge_model_core.specs.Render.{rendered};
ghost use Rattle.ge_outside.specs.Faults.{Rose};
ghost use Rattle.ge_outside.specs.Streams.{Gains, GainsPrefix};

use crate::writing::WriteFault;
use ge_outside::{Sink, write_all};
use ge_rows::{List, Reply, Text};
use ge_serve::render;
use std::alloc::{AllocError, Global};

fn render_next(alloc: Global, text: &mut Text, reply: &Reply) -> Result<(), AllocError>
    ensures { OnOk result (text.new ≡ text.old ++ rendered reply.now) }
{
    let bytes = render(alloc, reply)?;
    text.append(bytes.bytes())
}

fn render_all(alloc: Global, replies: &[Reply]) -> Result<Text, AllocError>
    ensures { IfOk result (λ text. text ≡ flat_map rendered replies.now) }
{
    let mut text = Text::new(alloc);
    for reply in replies {
        render_next(alloc, &mut text, reply)?;
    }
    Ok(text)
}

/// Writes all replies, one after the other. Where there is no memory for them, none of them.
pub(crate) fn write_replies<K: Sink>(
    alloc: Global,
    replies: &List<Reply>,
    output: &mut K,
) -> Result<(), WriteFault>
    ensures whole { OnOk result (Gains (K.written output.old) (K.written output.new)
        (flat_map rendered replies.now)) }
    ensures front { GainsPrefix (K.written output.old) (K.written output.new)
        (flat_map rendered replies.now) }
    ensures none { IsErrOf result WriteFault.Memory → K.written output.new ≡ K.written output.old }
    ensures fault { IsErrOf result WriteFault.Write
        → Rose (K.write_faults output.old) (K.write_faults output.new) }
    ensures later { K.write_faults output.old ≤ K.write_faults output.new }
{
    let text = render_all(alloc, replies.items())?;
    write_all(output, text.bytes())?;
    Ok(())
}
