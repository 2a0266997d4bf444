//! The relational operators (complex, relop).

ghost use Rattle.std.specs.Prelude.{◌≡◌};
ghost use Rattle.std.specs.Bool.{beq};
ghost use Rattle.ge_collections.specs.Keyed.{text_eq};
ghost use Rattle.ge_model_rows.specs.Pieces.{lower_case};
ghost use Rattle.ge_model_rows.specs.Relops.{numbers_hold, sameness_holds, same_words};
ghost use Rattle.ge_model_rows.specs.Relops as relops;

use ge_pieces::is_word;
use ge_rows::{ComplexDef, Kind, Relop, Value};
use ge_text::matches;

/// Whether one amount stands in a relation to another: `left relop right`.
pub fn amounts_hold(relop: Relop, left: u64, right: u64) -> bool
    ensures { result ≡ numbers_hold relop left right }
{
    match relop {
        Relop::Eq => left == right,
        Relop::Ne => left != right,
        Relop::Lt => left < right,
        Relop::Le => left <= right,
        Relop::Gt => left > right,
        Relop::Ge => left >= right,
    }
}

// What is the same or not meets no order.
fn same_holds(relop: Relop, same: bool) -> bool
    ensures { result ≡ sameness_holds relop same }
{
    match relop {
        Relop::Eq => same,
        Relop::Ne => !same,
        _ => false,
    }
}

fn are_same_flags(left: bool, right: bool) -> bool
    ensures { result ≡ beq left right }
{
    left == right
}

/// Whether two texts are the same without regard to the case of ASCII letters.
pub(crate) fn is_same_but_for_case(left: &[u8], right: &[u8]) -> bool
    ensures { result ≡ text_eq (lower_case left.now) (lower_case right.now) }
{
    left.eq_ignore_ascii_case(right)
}

fn are_same_words(kind: Kind, left: &[u8], right: &[u8]) -> bool
    ensures { result ≡ same_words kind left.now right.now }
{
    match kind {
        Kind::CStr => is_same_but_for_case(left, right),
        Kind::Host => is_same_but_for_case(left, right),
        Kind::ReStr => matches(left, right),
        _ => is_word(left, right),
    }
}

/// Whether one value stands in a relation to another: `left relop right`. Words are compared as the kind says: CSTRING and
/// HOST without regard to case, RESTRING by the left one as a pattern. Values of different form stand in none.
pub fn holds_between(kind: Kind, relop: Relop, left: &Value, right: &Value) -> bool
    ensures { result ≡ relops.holds_between kind relop left.now right.now }
{
    match (left, right) {
        (Value::Amount(left), Value::Amount(right)) => amounts_hold(relop, *left, *right),
        (Value::Flag(left), Value::Flag(right)) => {
            same_holds(relop, are_same_flags(*left, *right))
        }
        (Value::Word(left), Value::Word(right)) => {
            same_holds(relop, are_same_words(kind, left.bytes(), right.bytes()))
        }
        _ => false,
    }
}

/// Whether an asked value is admitted where another one is there: `asked relop there`.
pub fn admits(complex: &ComplexDef, asked: &Value, there: &Value) -> bool
    ensures { result ≡ relops.admits complex.now asked.now there.now }
{
    holds_between(complex.kind, complex.relop, asked, there)
}
