// Counting the lines of all records.
ghost use Rattle.std.specs.Prelude.{◌≡◌, ◌+◌, ◌^◌, ◌<◌, ◌≤◌, true, false, length, IfOk, MatchOption};
ghost use Rattle.ge_model_journal.specs.Area.{is_bad_length, number4};
ghost use Rattle.ge_model_log.specs.Records.{ends_list};
ghost use Rattle.ge_model_log.specs.Lines.{logged};
ghost use Rattle.ge_acctlog.specs.Bodies.{Counts};

use crate::LogFault;
use crate::bodies::count_in;
use std::alloc::Global;

// Whether a byte with what follows it ends the list of records.
fn ends_list(gate: u8, after: &[u8]) -> bool
    ensures { result ≡ ends_list gate after.now }
{
    gate != 1 || after.len() < 5
}

// The length of the body whose length field begins these bytes, if it is one.
fn body_length(bytes: &[u8]) -> Option<usize>
    ensures { MatchOption result (is_bad_length bytes.now ≡ true)
        (λ size. (is_bad_length bytes.now ≡ false) × (size ≡ number4 bytes.now 0) × (4 + size ≤ length bytes.now)) }
{
    let [n0, n1, n2, n3, ..] = bytes else {
        return None;
    };
    let size = u32::from_be_bytes([*n0, *n1, *n2, *n3]) as usize;
    if size == 0 || bytes.len() - 4 < size {
        return None;
    }
    Some(size)
}

/// How many lines the bytes of a log stand for, and where the list of their records ends.
pub(crate) fn count_lines(alloc: Global, bytes: &[u8]) -> Result<(u64, u64), LogFault>
    requires { length bytes.now ≤ 2 ^ 62 }
    ensures counted { Counts result (logged bytes.now) }
    ensures end { IfOk result (λ found. found.1 ≤ length bytes.now) }
    ensures count { IfOk result (λ found. found.0 ≤ found.1) }
{
    let mut count = 0;
    let mut place = 0;
    let mut rest = bytes;
    while let Some((gate, after)) = rest.split_first() {
        if ends_list(*gate, after) {
            return Ok((count, place));
        }
        let Some(size) = body_length(after) else {
            return Err(LogFault::Frame(place + 1));
        };
        let (_, behind) = after.split_at(4);
        let (body, others) = behind.split_at(size);
        let read = count_in(alloc, body)?;
        let Some(more) = read else {
            return Err(LogFault::Bad(place + 5));
        };
        count += more as u64;
        place = place + 5 + size as u64;
        rest = others;
    }
    Ok((count, place))
}
