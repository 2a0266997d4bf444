// How long a connection is waited for.
ghost use Rattle.std.specs.Prelude.{◌≡◌, min};
ghost use Rattle.std.specs.Duration.{as_nanos};

use std::time::Duration;

/// How long a connection may wait for the other side before a read or a write of it fails. None is zero.
#[derive(Clone, Copy)]
pub struct Waits {
    /// One read.
    pub read: Duration,
    /// One write.
    pub write: Duration,
    /// All reads and writes together: the time between them doesn't count.
    pub whole: Duration,
}

impl Waits {
    /// Waits of one read or write, and of all together.
    pub fn new(each: Duration, whole: Duration) -> Self
        ensures read { result.read ≡ each }
        ensures write { result.write ≡ each }
        ensures whole { result.whole ≡ whole }
    {
        Waits {
            read: each,
            write: each,
            whole,
        }
    }
}

/// The shorter of two times.
pub(crate) fn shorter(one: Duration, other: Duration) -> Duration
    ensures { as_nanos result ≡ min (as_nanos one) (as_nanos other) }
{
    if one < other { one } else { other }
}
