//! What names, lines and texts may be, and which names a pattern stands for.

use crate::answers::{is_named, no_call, yes_or_no};
use ge_pieces::{
    before, behind, has_plain_lines, is_a_group_name, is_a_job_name, is_a_name, is_a_plain_line,
    is_too_long_text,
};
use ge_rows::Text;
use ge_text::matches;
use std::alloc::{AllocError, Global};

/// Whether it is so: of a pattern and a name at `matches`, else of a text.
pub(crate) fn answer(alloc: Global, name: &[u8], given: &[u8]) -> Result<Text, AllocError> {
    let holds = if is_named(name, b"matches") {
        matches(before(b'|', given), behind(b'|', given))
    } else if is_named(name, b"is_a_name") {
        is_a_name(given)
    } else if is_named(name, b"is_a_job_name") {
        is_a_job_name(given)
    } else if is_named(name, b"is_a_group_name") {
        is_a_group_name(given)
    } else if is_named(name, b"has_plain_lines") {
        has_plain_lines(given)
    } else if is_named(name, b"is_a_plain_line") {
        is_a_plain_line(given)
    } else if is_named(name, b"is_too_long_text") {
        is_too_long_text(given)
    } else {
        return no_call(alloc);
    };
    yes_or_no(alloc, holds)
}
