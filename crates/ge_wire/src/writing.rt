// Frames are written.
ghost use Rattle.std.specs.Prelude.{◌≡◌, ◌<◌, ◌≤◌, ◌++◌, length, OnOk, OnErr};
ghost use Rattle.ge_limits.specs.Limits.{text_bytes};
ghost use Rattle.ge_outside.specs.Faults.{HasCause};
ghost use Rattle.ge_outside.specs.Streams.{Gains, GainsPrefix};
ghost use Rattle.ge_model_wire.specs.Frames.{request_frame, reply_frame};
ghost use Rattle.ge_wire.specs.Answers.{IsWriteAlone};

use crate::WireFault;
use byteorder::{BigEndian, ByteOrder};
use ge_outside::{Failed, Sink, write_all};
use ge_rows::Text;

// Writes two pieces, one after the other.
fn write_both<K: Sink>(k: &mut K, head: &[u8], body: &[u8]) -> Result<(), Failed>
    ensures whole { OnOk result (Gains (K.written k.old) (K.written k.new) (head.now ++ body.now)) }
    ensures front { OnErr result (GainsPrefix (K.written k.old) (K.written k.new) (head.now
        ++ body.now)) }
    ensures read_side { K.read_side k.new ≡ K.read_side k.old }
    ensures cause { HasCause (K.write_faults k.old) (K.write_faults k.new) result }
    ensures no_fault { OnOk result (K.write_faults k.new ≡ K.write_faults k.old) }
{
    write_all(k, head)?;
    write_all(k, body)
}

/// Writes a request as its frame. It takes no memory. After `Write`, which comes only where the sink failed, a front of
/// the frame was written.
pub fn write_frame<K: Sink>(k: &mut K, payload: &Text) -> Result<(), WireFault>
    requires some { 0 < length payload.now }
    requires fits { length payload.now ≤ text_bytes }
    ensures whole { OnOk result (Gains (K.written k.old) (K.written k.new)
        (request_frame payload.now)) }
    ensures front { OnErr result (GainsPrefix (K.written k.old) (K.written k.new)
        (request_frame payload.now)) }
    ensures read_side { K.read_side k.new ≡ K.read_side k.old }
    ensures cause { HasCause (K.write_faults k.old) (K.write_faults k.new) result }
    ensures no_fault { OnOk result (K.write_faults k.new ≡ K.write_faults k.old) }
    ensures alone { IsWriteAlone result }
{
    let mut head = [0; 4];
    BigEndian::write_u32(&mut head, payload.len() as u32);
    match write_both(k, &head, payload.bytes()) {
        Ok(()) => Ok(()),
        Err(_) => Err(WireFault::Write),
    }
}

/// Writes a reply as its frame. It takes no memory. After `Write`, which comes only where the sink failed, a front of
/// the frame was written.
pub fn write_reply<K: Sink>(k: &mut K, text: &Text) -> Result<(), WireFault>
    ensures whole { OnOk result (Gains (K.written k.old) (K.written k.new) (reply_frame text.now)) }
    ensures front { OnErr result (GainsPrefix (K.written k.old) (K.written k.new)
        (reply_frame text.now)) }
    ensures read_side { K.read_side k.new ≡ K.read_side k.old }
    ensures cause { HasCause (K.write_faults k.old) (K.write_faults k.new) result }
    ensures no_fault { OnOk result (K.write_faults k.new ≡ K.write_faults k.old) }
    ensures alone { IsWriteAlone result }
{
    let mut head = [0; 8];
    BigEndian::write_u64(&mut head, text.len() as u64);
    match write_both(k, &head, text.bytes()) {
        Ok(()) => Ok(()),
        Err(_) => Err(WireFault::Write),
    }
}
