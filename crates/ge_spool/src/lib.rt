//! A journal for any bodies, in two areas of disks. A stop before, between or within any call of a disk
//! leaves what stood before the journal's call or what stands after it, and what was acknowledged is there
//! for good. No checksum is needed: a record counts by its gate, a byte that is written alone, after a sync
//! of everything behind it.
//!
//! - [`Spool`]: the journal; it is opened, appended to and compacted. It reads areas of the formats 1 and 2,
//!   and writes the second, [`WRITTEN_FORMAT`].
//! - [`RecordBytes`], [`SnapshotBytes`]: what is written, made before any disk is touched.
//! - [`Raw`]: what was read at opening.
//! - [`OpenFault`], [`AppendFault`]: why a call fails.
#![tactic(auto)]

mod appending;
mod choosing;
mod faults;
mod finding;
mod laying;
mod opening;
mod padding;
mod pieces;
mod raw;
mod searching;
mod spool;
mod surveying;

pub use faults::{AppendFault, OpenFault};
pub use laying::{lay, write_behind};
pub use pieces::{RecordBytes, SnapshotBytes};
pub use raw::Raw;
pub use spool::{Spool, WRITTEN_FORMAT};
