//! What a job asks for against what is there (complex, `relop`).

ghost use Rattle.std.specs.Prelude.{◌≡◌};
ghost use Rattle.std.specs.Option.{option_copied, option_map};
ghost use Rattle.ge_model_rows.specs.ValueRows.{Word};
ghost use Rattle.ge_model_rows.specs.Relops.{sameness_holds, same_words, admits as admits_there};
ghost use Rattle.ge_model_place.specs.Opening.{is_admitted};
ghost use Rattle.ge_site.specs.Found.{value_found};

use ge_complex::admits;
use ge_pieces::is_word;
use ge_rows::{ComplexDef, Kind, Relop, Text, Value};
use ge_site::Found;
use ge_text::matches;

// Words are the same or not, which meets no order.
fn same_meets(relop: Relop, same: bool) -> bool
    ensures { result ≡ sameness_holds relop same }
{
    match relop {
        Relop::Eq => same,
        Relop::Ne => !same,
        _ => false,
    }
}

fn are_same(kind: Kind, asked: &[u8], there: &[u8]) -> bool
    ensures { result ≡ same_words kind asked.now there.now }
{
    match kind {
        Kind::CStr => asked.eq_ignore_ascii_case(there),
        Kind::Host => asked.eq_ignore_ascii_case(there),
        Kind::ReStr => matches(asked, there),
        _ => is_word(asked, there),
    }
}

// Whether what is asked for is admitted where this word is there, which needs no copy of it.
fn admits_word(complex: &ComplexDef, asked: &Value, there: &Text) -> bool
    ensures { result ≡ admits_there complex.now asked.now (Word there.now) }
{
    match asked {
        Value::Word(word) => {
            same_meets(
                complex.relop,
                are_same(complex.kind, word.bytes(), there.bytes()),
            )
        }
        Value::Amount(_) => false,
        Value::Flag(_) => false,
    }
}

fn admits_found(complex: &ComplexDef, asked: &Value, there: Found<'_>) -> bool
    ensures { result ≡ admits_there complex.now asked.now (value_found there.entry) }
{
    match there {
        Found::Kept(value) => admits(complex, asked, value),
        Found::Limit(amount) => admits(complex, asked, &Value::Amount(amount)),
        Found::Name(word) => admits_word(complex, asked, word),
    }
}

/// Whether what is asked for is admitted by what is there; a name that is no complex, or has no value there, admits nothing.
pub(crate) fn is_met(asked: &Value, complex: Option<&ComplexDef>, there: Option<Found<'_>>) -> bool
    ensures { result ≡ is_admitted asked.now (option_copied complex.entry)
        (option_map value_found there.entry) }
{
    match (complex, there) {
        (Some(complex), Some(there)) => admits_found(complex, asked, there),
        _ => false,
    }
}
