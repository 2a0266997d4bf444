// Where the requests of a script end.
ghost use Rattle.std.specs.Prelude.{◌≡◌, ◌+◌, ◌<◌, ◌≤◌, ◌∷◌, take, drop, length};
ghost use Rattle.ge_model_grammar.specs.ScriptLines.{is_header, requests_of};

use ge_pieces::{bytes_from, line_len};

/// Whether a line begins a request.
pub(crate) fn begins_request(line: &[u8]) -> bool
    ensures { result ≡ is_header line.now }
{
    match line {
        [] => false,
        [first] => *first == b'@',
        [first, second, ..] => *first == b'@' && *second != b'@',
    }
}

/// How many bytes the first request takes.
pub(crate) fn request_len(bytes: &[u8]) -> usize
    requires { 0 < length bytes.now }
    ensures taken { 0 < result }
    ensures within { result ≤ length bytes.now }
    ensures first { requests_of bytes.now ≡ take result bytes.now
        ∷ requests_of (drop result bytes.now) }
{
    let mut end = line_len(bytes);
    while end < bytes.len() && !begins_request(bytes_from(bytes, end)) {
        end += line_len(bytes_from(bytes, end));
    }
    end
}
