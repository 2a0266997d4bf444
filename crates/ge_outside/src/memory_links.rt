// A connection in memory.
ghost use Rattle.std.specs.Prelude.{◌≡◌, ◌↔◌, ◌<◌, ◌≤◌, ◌+◌, List, [], IsTrue, vec_len, length, take, drop, Some, IfOk, IsErr, OnErr, OnOk};
ghost use Rattle.ge_outside.specs.Faults.{HasCause};
ghost use Rattle.ge_outside.specs.Streams.{Takes, Gains};

use crate::schedules::{Schedule, fill};
use crate::{Failed, Link, Sink, Source};
use std::alloc::Global;

/// A connection in memory, of which chosen calls fail. Its reads and writes are counted together.
#[derive(Drop)]
pub struct MemLink {
    bytes: Vec<u8>,
    at: usize,
    written: Vec<u8>,
    schedule: Schedule,
    read_faults: u64,
    write_faults: u64,
    ghost within: { at ≤ vec_len bytes },
    ghost unread: { schedule.calls ≡ 0 → at ≡ 0 },
    ghost unwritten: { schedule.calls ≡ 0 → written.items ≡ [] },
    ghost unfailed: { schedule.calls ≡ 0 → (read_faults ≡ 0) × (write_faults ≡ 0) },
}

impl MemLink {
    ghost use Rattle.ge_outside.specs.Memory.{link_rest, link_written, link_schedule, link_read_faults, link_write_faults};

    /// A connection on which these bytes come. The calls whose numbers, counted from 1, are in `fails` fail.
    pub fn new(alloc: Global, bytes: Vec<u8>, fails: Vec<u64>) -> Self
        ensures rest { link_rest result ≡ bytes.items }
        ensures written { link_written result ≡ [] }
        ensures read_faults { link_read_faults result ≡ 0 }
        ensures write_faults { link_write_faults result ≡ 0 }
        ensures schedule { link_schedule result ≡ record { fails = fails; calls = 0 } }
    {
        MemLink {
            bytes,
            at: 0,
            written: Vec::new(alloc),
            schedule: Schedule::new(fails),
            read_faults: 0,
            write_faults: 0,
        }
    }

    /// The bytes that were written to it.
    pub fn written(&self) -> &[u8]
        ensures { result.now ≡ link_written self.now }
    {
        self.written.as_slice()
    }

    /// The bytes that are left to read.
    pub fn unread(&self) -> &[u8]
        ensures { result.now ≡ link_rest self.now }
    {
        self.bytes.as_slice().split_at(self.at).1
    }

    /// Whether one of its reads or writes failed.
    pub fn has_failed(&self) -> bool
        ensures { IsTrue result ↔ (0 < link_read_faults self.now + link_write_faults self.now) }
    {
        self.read_faults > 0 || self.write_faults > 0
    }
}

impl Source for MemLink {
    ghost use Rattle.ge_outside.specs.Memory.{link_rest, link_written, link_schedule, link_read_faults, link_write_faults};
    ghost use Rattle.ge_outside.specs.Schedules.{IsDue, next_call};

    ghost rest = { λ l. Some (link_rest l) };

    ghost read_faults = { link_read_faults };

    ghost write_side = { λ l. (Some (link_written l), link_write_faults l) };

    /// It fails exactly at the calls that were chosen.
    fn read(&mut self, buf: &mut [u8]) -> Result<usize, Failed>
        ensures bound { IfOk result (λ n. n ≤ length buf.old) }
        ensures taken { IfOk result (λ n. Takes n (Some (link_rest self.old)) (Some (link_rest self.new)) buf.old buf.new) }
        ensures kept { OnErr result (link_rest self.new ≡ link_rest self.old) }
        ensures written { link_written self.new ≡ link_written self.old }
        ensures write_faults { link_write_faults self.new ≡ link_write_faults self.old }
        ensures cause { HasCause (link_read_faults self.old) (link_read_faults self.new) result }
        ensures no_fault { OnOk result (link_read_faults self.new ≡ link_read_faults self.old) }
        ensures due { IsErr result ↔ IsDue (link_schedule self.old) }
        ensures counted { link_schedule self.new ≡ next_call (link_schedule self.old) }
    {
        if self.schedule.next_fails() {
            self.read_faults = self.read_faults.saturating_add(1);
            return Err(Failed);
        }
        let (_, rest) = self.bytes.as_slice().split_at(self.at);
        let count = fill(rest, buf);
        self.at += count;
        Ok(count)
    }
}

impl Sink for MemLink {
    ghost use Rattle.ge_outside.specs.Memory.{link_rest, link_written, link_schedule, link_read_faults, link_write_faults};
    ghost use Rattle.ge_outside.specs.Schedules.{IsDue, next_call};

    ghost written = { λ l. Some (link_written l) };

    ghost write_faults = { link_write_faults };

    ghost read_side = { λ l. (Some (link_rest l), link_read_faults l) };

    /// It fails at the calls that were chosen, and where there is no memory.
    fn write(&mut self, piece: &[u8]) -> Result<usize, Failed>
        ensures bound { IfOk result (λ n. n ≤ length piece.now) }
        ensures some { IfOk result (λ n. 0 < length piece.now → 0 < n) }
        ensures gained { IfOk result (λ n. Gains (Some (link_written self.old)) (Some (link_written self.new)) (take n piece.now)) }
        ensures kept { OnErr result (link_written self.new ≡ link_written self.old) }
        ensures rest { link_rest self.new ≡ link_rest self.old }
        ensures read_faults { link_read_faults self.new ≡ link_read_faults self.old }
        ensures cause { HasCause (link_write_faults self.old) (link_write_faults self.new) result }
        ensures no_fault { OnOk result (link_write_faults self.new ≡ link_write_faults self.old) }
        ensures whole { IfOk result (λ n. n ≡ length piece.now) }
        ensures due { IsDue (link_schedule self.old) → IsErr result }
        ensures counted { link_schedule self.new ≡ next_call (link_schedule self.old) }
    {
        if self.schedule.next_fails() || self.written.extend_from_slice(piece).is_err() {
            self.write_faults = self.write_faults.saturating_add(1);
            return Err(Failed);
        }
        Ok(piece.len())
    }
}

impl Link for MemLink {
    ghost use Rattle.std.specs.Prelude.{refl};

    ghost reads_leave = { λ link. refl };

    ghost writes_leave = { λ link. refl };
}
