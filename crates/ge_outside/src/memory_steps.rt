// What a disk in memory keeps of its past.
ghost use Rattle.ge_limits.specs.Limits.{area_bytes};
ghost use Rattle.std.specs.Prelude.{◌+◌, ◌^◌, ◌≤◌, vec_len};

/// A write: the place and the bytes.
#[derive(Drop)]
pub struct Write {
    pub at: u64,
    pub piece: Vec<u8>,
    ghost below_limit: { at + vec_len piece ≤ area_bytes },
}

/// What a call did to a disk.
#[derive(Drop)]
pub enum Step {
    Wrote(Write),
    Synced,
}
