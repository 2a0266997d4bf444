//! What every reader and printer of texts stands on: texts cut into pieces, put together and compared, the names that
//! may stand in them, the lines of a text, and the refusals of a reading gathered into the one that answers.
//!
//! Contracts see a text as the list of its bytes, and say by the definitions of `ge_model_rows` and
//! `ge_model_grammar` what each call gives. What only looks at a text takes no memory and lends parts of it; what
//! gives a [`List`](ge_rows::List) of texts or a new [`Text`](ge_rows::Text) copies them, and wants memory as its one
//! failure.
//!
//! - Cut: [`before`], [`behind`], [`has`], [`slices_at`], [`pieces`]; between blanks [`first_word`], [`behind_word`],
//!   [`split_word`], [`words_between`], [`trimmed_text`], [`without_first`], [`without_last`]; lists in bodies
//!   [`items_of_list`].
//! - Digits: [`has_digits`], [`is_decimal_number`], [`digits_worth`], [`number_up_to`].
//! - Put together: [`append_joined`], [`join`], [`join_list`], [`or_none_text`], [`lower`].
//! - Compared: [`is_same`], [`is_word`], [`same_key`], [`is_among`], [`is_in`], [`begins`], [`ends`].
//! - Names: [`is_a_name`], [`is_a_job_name`], [`is_a_group_name`], [`may_stand_in_job_name`], [`has_job_name_bytes`],
//!   [`starts_with_digit`].
//! - Lines: [`first_line`], [`line_len`], [`bare_line`], [`first_bare_line`], [`bytes_from`], [`has_a_long_line`],
//!   [`is_too_long_text`]; plain lines and the lines of a body [`is_a_plain_line`], [`has_plain_lines`],
//!   [`lines_of_body`].
//! - Refusals: [`note`], [`earlier`], [`sooner_of`]. A reader of a grammar fails with a [`ReadFault`]; `specs/Gives`
//!   has the forms of results that readers promise.
#![tactic(auto)]

mod body_lines;
mod comparing;
mod cutting;
mod digits;
mod faults;
mod joining;
mod lines;
mod naming;
mod reading;

pub use body_lines::{has_plain_lines, is_a_plain_line, lines_of_body};
pub use comparing::{begins, ends, is_among, is_in, is_same, is_word, same_key};
pub use cutting::{
    before, behind, behind_word, first_word, has, is_blank_byte, items_of_list, pieces, slices_at,
    split_word, trimmed_text, without_first, without_last, words_between,
};
pub use digits::{digits_worth, has_digits, is_decimal_number, number_up_to};
pub use faults::{earlier, note, sooner_of};
pub use joining::{append_joined, join, join_list, lower, or_none_text};
pub use lines::{
    bare_line, bytes_from, first_bare_line, first_line, has_a_long_line, is_too_long_text, line_len,
};
pub use naming::{
    has_job_name_bytes, is_a_group_name, is_a_job_name, is_a_name, may_stand_in_job_name,
    starts_with_digit,
};
pub use reading::ReadFault;
