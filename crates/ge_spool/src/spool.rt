// The journal: records behind a snapshot, in one of two areas.
ghost use Rattle.std.specs.Prelude.{◌≡◌, ◌^◌, ◌≤◌, true};
ghost use Rattle.ge_model_journal.specs.Area.{is_format};
ghost use Rattle.ge_spool.specs.Reads.{GoesOn};

/// The format of all that is written. A journal of another format takes no records until it is compacted.
pub const WRITTEN_FORMAT: u8 = 2;

/// A journal in two areas, `a` and `b`, which every call is lent. It keeps where its list ends, so that a
/// record is written without reading or copying what stands before it.
#[derive(Drop)]
pub struct Spool {
    // whether the second area counts
    pub(crate) second: bool,
    // the format of that area
    pub(crate) format: u8,
    pub(crate) generation: u64,
    // how many records count
    pub(crate) records: u64,
    // where the gate stands that ends the list
    pub(crate) end: u64,
    // whether the other area's gate is open
    pub(crate) other_open: bool,
    // whether a call met a failure of a disk
    pub(crate) dead: bool,
    ghost format_known: { is_format format ≡ true },
    ghost goes_on: { GoesOn format generation },
    ghost end_fits: { end ≤ 2 ^ 63 },
    ghost records_fit: { records ≤ end },
}

impl Spool {
    ghost use Rattle.ge_spool.specs.Settled.{record_count, format_of, generation_of, end_of};

    /// How many records count.
    pub fn records(&self) -> u64
        ensures { result ≡ record_count self.now }
    {
        self.records
    }

    /// The format of the area that counts, 1 or 2.
    pub fn format(&self) -> u8
        ensures value { result ≡ format_of self.now }
        ensures known { is_format result ≡ true }
    {
        self.format
    }

    /// The generation of the area that counts. In format 1 it is not the last.
    pub fn generation(&self) -> u64
        ensures value { result ≡ generation_of self.now }
        ensures goes_on { GoesOn (format_of self.now) result }
    {
        self.generation
    }

    /// Where the list of records ends.
    pub fn end(&self) -> u64
        ensures { result ≡ end_of self.now }
    {
        self.end
    }
}
