//! What a run of the program is: its words, its statuses, what it reads and what it writes.
//!
//! Definitions, and the small types that they share with code.
//!
//! - The trace of a batch of events: its replies, its entries, the cluster after it and whether it stops the master.
//! - What the two areas of a journal stand for as a cluster.
//! - What the words of a run say, and what a replay over two areas sees of the outside, how far it has come at each of its exits, and what
//!   a look at the areas writes.
//! - Connections to a master: the events of a frame, the trace of the frames of a connection, what each end of it leaves, and what
//!   connections leave that are served one after the other.
#![tactic(auto)]

/// Why two areas stand for nothing.
#[derive(Clone, Copy)]
pub enum Wrong {
    /// The frame of this area, 0 or 1, is wrong at this place.
    Frame(u8, u64),
    /// The snapshot or the record that begins at this place of this area can't be read.
    Bad(u8, u64),
}

/// What the words after the program's name say.
#[derive(Clone, Copy)]
pub enum Word {
    /// A script to its replies, with the cluster in memory alone.
    Simulate,
    /// A script to its replies over the two areas, so many events at a time.
    Replay(u32),
    /// So many connections over the two areas, one after the other.
    Serve(u32),
    /// What the two areas hold.
    Status,
    /// The script that is made up from a number.
    Generate(u32),
    /// That script simulated, and what became of its requests counted.
    Trial(u32),
}

/// How a connection ended.
#[derive(Clone, Copy, PartialEq, Eq)]
pub enum LinkEnd {
    /// All its bytes were read, and they end where a frame ends.
    Done,
    /// A `qconf -km` was accepted and answered.
    Stopped,
    /// A read of it failed.
    Read,
    /// A write to it failed.
    Write,
    /// No frame begins at this place, though bytes stand there.
    Frame(u64),
    /// As many bytes as a connection may have were read.
    Long,
    /// Memory ran out.
    Memory,
}
