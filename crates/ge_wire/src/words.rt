// The words of a question.
ghost use Rattle.std.specs.Prelude.{◌≡◌, map, string_bytes, MatchOption, None, Some};
ghost use Rattle.ge_model_wire.specs.Questions.{is_without_zero, is_port, names_of, names_where, port_in, port_named};

use ge_pieces::{begins, digits_worth, has_digits, is_a_name};

/// The greatest port.
const LAST_PORT: u64 = 65_535;

fn has_no_zero_in_front(text: &[u8]) -> bool
    ensures { result ≡ is_without_zero text.now }
{
    !begins(b"0", text)
}

fn is_a_port(text: &[u8]) -> bool
    ensures { result ≡ is_port text.now }
{
    has_no_zero_in_front(text) && has_digits(text) && digits_worth(text) <= LAST_PORT
}

// The user and the group, where all three words are good.
fn names_if_good<'a>(port: &[u8], user: &'a [u8], group: &'a [u8]) -> Option<(&'a [u8], &'a [u8])>
    ensures { MatchOption result (names_where port.now user.now group.now
        ≡ None) (λ names. names_where port.now user.now group.now
        ≡ Some (names.0.now, names.1.now)) }
{
    if is_a_port(port) && is_a_name(user) && is_a_name(group) {
        Some((user, group))
    } else {
        None
    }
}

/// The user and the group of the words PORT, USER and GROUP; nothing where the words are no such three.
pub(crate) fn names_in(words: &[String]) -> Option<(&[u8], &[u8])>
    ensures { MatchOption result (names_of (map string_bytes words.now)
        ≡ None) (λ names. names_of (map string_bytes words.now) ≡ Some (names.0.now, names.1.now)) }
{
    match words {
        [port, user, group] => names_if_good(port.as_bytes(), user.as_bytes(), group.as_bytes()),
        _ => None,
    }
}

fn port_number(text: &[u8]) -> u16
    ensures { result ≡ port_in text.now }
{
    if is_a_port(text) {
        digits_worth(text) as u16
    } else {
        0
    }
}

/// The port that the words of a question name; 0 where they name none.
pub fn port_of(words: &Vec<String>) -> u16
    ensures { result ≡ port_named (map string_bytes words.now.items) }
{
    match words.as_slice() {
        [port, _, _] => port_number(port.as_bytes()),
        _ => 0,
    }
}
