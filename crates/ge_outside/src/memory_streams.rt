// Streams in memory.
ghost use Rattle.std.specs.Prelude.{◌≡◌, ◌↔◌, ◌<◌, ◌≤◌, List, [], vec_len, length, take, drop, None, Some, IfOk, IsOk, IsErr, OnErr, OnOk};
ghost use Rattle.ge_outside.specs.Faults.{HasCause};
ghost use Rattle.ge_outside.specs.Streams.{Takes, Gains};

use crate::schedules::{Schedule, fill};
use crate::{Failed, Sink, Source};
use std::alloc::Global;

/// A source in memory, of which chosen reads fail.
#[derive(Drop)]
pub struct MemSource {
    bytes: Vec<u8>,
    at: usize,
    schedule: Schedule,
    faults: u64,
    ghost within: { at ≤ vec_len bytes },
}

impl MemSource {
    ghost use Rattle.ge_outside.specs.Memory.{source_rest, source_schedule, source_faults};

    /// A source of these bytes. The reads whose numbers, counted from 1, are in `fails` fail.
    pub fn new(bytes: Vec<u8>, fails: Vec<u64>) -> Self
        ensures rest { source_rest result ≡ bytes.items }
        ensures faults { source_faults result ≡ 0 }
        ensures schedule { source_schedule result ≡ record { fails = fails; calls = 0 } }
    {
        MemSource {
            bytes,
            at: 0,
            schedule: Schedule::new(fails),
            faults: 0,
        }
    }
}

impl Source for MemSource {
    ghost use Rattle.ge_outside.specs.Memory.{source_rest, source_schedule, source_faults};
    ghost use Rattle.ge_outside.specs.Schedules.{IsDue, next_call};

    ghost rest = { λ s. Some (source_rest s) };

    ghost read_faults = { source_faults };

    /// It fails exactly at the calls that were chosen.
    fn read(&mut self, buf: &mut [u8]) -> Result<usize, Failed>
        ensures bound { IfOk result (λ n. n ≤ length buf.old) }
        ensures taken { IfOk result (λ n. Takes n (Some (source_rest self.old)) (Some (source_rest self.new)) buf.old buf.new) }
        ensures kept { OnErr result (source_rest self.new ≡ source_rest self.old) }
        ensures cause { HasCause (source_faults self.old) (source_faults self.new) result }
        ensures no_fault { OnOk result (source_faults self.new ≡ source_faults self.old) }
        ensures due { IsErr result ↔ IsDue (source_schedule self.old) }
        ensures counted { source_schedule self.new ≡ next_call (source_schedule self.old) }
    {
        if self.schedule.next_fails() {
            self.faults = self.faults.saturating_add(1);
            return Err(Failed);
        }
        let (_, rest) = self.bytes.as_slice().split_at(self.at);
        let count = fill(rest, buf);
        self.at += count;
        Ok(count)
    }
}

/// A source in memory that never fails.
#[derive(Drop)]
pub struct PlainSource {
    bytes: Vec<u8>,
    at: usize,
    ghost within: { at ≤ vec_len bytes },
}

impl PlainSource {
    ghost use Rattle.ge_outside.specs.Memory.{plain_rest};

    pub fn new(bytes: Vec<u8>) -> Self
        ensures { plain_rest result ≡ bytes.items }
    {
        PlainSource { bytes, at: 0 }
    }
}

impl Source for PlainSource {
    ghost use Rattle.ge_outside.specs.Memory.{plain_rest};

    ghost rest = { λ s. Some (plain_rest s) };

    ghost read_faults = { λ s. 0 };

    fn read(&mut self, buf: &mut [u8]) -> Result<usize, Failed>
        ensures bound { IfOk result (λ n. n ≤ length buf.old) }
        ensures taken { IfOk result (λ n. Takes n (Some (plain_rest self.old)) (Some (plain_rest self.new)) buf.old buf.new) }
        ensures kept { OnErr result (plain_rest self.new ≡ plain_rest self.old) }
        ensures cause { HasCause 0 0 result }
        ensures never { IsOk result }
    {
        let (_, rest) = self.bytes.as_slice().split_at(self.at);
        let count = fill(rest, buf);
        self.at += count;
        Ok(count)
    }
}

/// A sink in memory, of which chosen writes fail. It takes each piece whole.
#[derive(Drop)]
pub struct MemSink {
    bytes: Vec<u8>,
    schedule: Schedule,
    faults: u64,
}

impl MemSink {
    ghost use Rattle.ge_outside.specs.Memory.{sink_bytes, sink_schedule, sink_faults};

    /// An empty sink. The writes whose numbers, counted from 1, are in `fails` fail.
    pub fn new(alloc: Global, fails: Vec<u64>) -> Self
        ensures bytes { sink_bytes result ≡ [] }
        ensures faults { sink_faults result ≡ 0 }
        ensures schedule { sink_schedule result ≡ record { fails = fails; calls = 0 } }
    {
        MemSink {
            bytes: Vec::new(alloc),
            schedule: Schedule::new(fails),
            faults: 0,
        }
    }

    /// The bytes that were written.
    pub fn bytes(&self) -> &[u8]
        ensures { result.now ≡ sink_bytes self.now }
    {
        self.bytes.as_slice()
    }
}

impl Sink for MemSink {
    ghost use Rattle.ge_outside.specs.Memory.{sink_bytes, sink_schedule, sink_faults};
    ghost use Rattle.ge_outside.specs.Schedules.{IsDue, next_call};

    ghost written = { λ s. Some (sink_bytes s) };

    ghost write_faults = { sink_faults };

    /// It fails at the calls that were chosen, and where there is no memory.
    fn write(&mut self, piece: &[u8]) -> Result<usize, Failed>
        ensures bound { IfOk result (λ n. n ≤ length piece.now) }
        ensures some { IfOk result (λ n. 0 < length piece.now → 0 < n) }
        ensures gained { IfOk result (λ n. Gains (Some (sink_bytes self.old)) (Some (sink_bytes self.new)) (take n piece.now)) }
        ensures kept { OnErr result (sink_bytes self.new ≡ sink_bytes self.old) }
        ensures cause { HasCause (sink_faults self.old) (sink_faults self.new) result }
        ensures no_fault { OnOk result (sink_faults self.new ≡ sink_faults self.old) }
        ensures whole { IfOk result (λ n. n ≡ length piece.now) }
        ensures due { IsDue (sink_schedule self.old) → IsErr result }
        ensures counted { sink_schedule self.new ≡ next_call (sink_schedule self.old) }
    {
        if self.schedule.next_fails() || self.bytes.extend_from_slice(piece).is_err() {
            self.faults = self.faults.saturating_add(1);
            return Err(Failed);
        }
        Ok(piece.len())
    }
}
