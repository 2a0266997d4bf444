// Streams of bytes: sources that are read, sinks that are written, and links that are both.
ghost use Rattle.std.specs.Prelude.{◌≡◌, ◌<◌, ◌≤◌, ℕ, List, Option, None, length, take, IfOk, OnOk, OnErr};
ghost use Rattle.ge_outside.specs.Faults.{HasCause};
ghost use Rattle.ge_outside.specs.Streams.{Takes, Gains, GainsPrefix};

use crate::Failed;

/// Bytes that are read from the front.
pub trait Source {
    /// The bytes that are left to read, where the source tells them.
    ghost rest: { Self → Option (List ℕ) };

    /// How often a read has failed. A read that answers `Ok` leaves it.
    ghost read_faults: { Self → ℕ };

    /// What was written to the same connection, and how often that failed: a read leaves both.
    ghost write_side: { Self → Option (List ℕ) × ℕ } = { λ _. (None, 0) };

    /// Moves bytes to the front of `buf` and answers how many. On a buffer with room, 0 means that
    /// the source has ended. A failed read takes nothing.
    fn read(&mut self, buf: &mut [u8]) -> Result<usize, Failed>
        ensures bound { IfOk result (λ n. n ≤ length buf.old) }
        ensures taken { IfOk result (λ n. Takes n (rest self.old) (rest self.new) buf.old buf.new) }
        ensures kept { OnErr result (rest self.new ≡ rest self.old) }
        ensures write_side { write_side self.new ≡ write_side self.old }
        ensures cause { HasCause (read_faults self.old) (read_faults self.new) result }
        ensures no_fault { OnOk result (read_faults self.new ≡ read_faults self.old) };
}

/// Where bytes are written, at the end.
pub trait Sink {
    /// The bytes that were written, where the sink tells them.
    ghost written: { Self → Option (List ℕ) };

    /// How often a write has failed. A write that answers `Ok` leaves it.
    ghost write_faults: { Self → ℕ };

    /// What is left to read on the same connection, and how often that failed: a write leaves both.
    ghost read_side: { Self → Option (List ℕ) × ℕ } = { λ _. (None, 0) };

    /// Writes a front of `piece` and answers how many bytes that is: at least one, if there is one.
    /// A failed write writes nothing.
    fn write(&mut self, piece: &[u8]) -> Result<usize, Failed>
        ensures bound { IfOk result (λ n. n ≤ length piece.now) }
        ensures some { IfOk result (λ n. 0 < length piece.now → 0 < n) }
        ensures gained { IfOk result (λ n. Gains (written self.old) (written self.new) (take n piece.now)) }
        ensures kept { OnErr result (written self.new ≡ written self.old) }
        ensures read_side { read_side self.new ≡ read_side self.old }
        ensures cause { HasCause (write_faults self.old) (write_faults self.new) result }
        ensures no_fault { OnOk result (write_faults self.new ≡ write_faults self.old) };
}

/// One connection: its bytes are read, and replies are written. It may be let go.
pub trait Link: Source + Sink + Drop {
    /// A read leaves what was written.
    ghost reads_leave: { (link : Self) → Self.write_side link ≡ (Self.written link, Self.write_faults link) };

    /// A write leaves what is to be read.
    ghost writes_leave: { (link : Self) → Self.read_side link ≡ (Self.rest link, Self.read_faults link) };
}

/// Writes the whole of `piece`, in as many writes as the sink takes. After `Failed`, which comes only
/// where the sink failed, a front of it was written.
pub fn write_all<K: Sink>(sink: &mut K, piece: &[u8]) -> Result<(), Failed>
    ensures whole { OnOk result (Gains (K.written sink.old) (K.written sink.new) piece.now) }
    ensures front { OnErr result (GainsPrefix (K.written sink.old) (K.written sink.new) piece.now) }
    ensures read_side { K.read_side sink.new ≡ K.read_side sink.old }
    ensures cause { HasCause (K.write_faults sink.old) (K.write_faults sink.new) result }
    ensures no_fault { OnOk result (K.write_faults sink.new ≡ K.write_faults sink.old) }
{
    let mut done = 0;
    while done < piece.len() {
        let (_, rest) = piece.split_at(done);
        done += sink.write(rest)?;
    }
    Ok(())
}
