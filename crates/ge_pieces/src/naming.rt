//! Which texts are names.

ghost use Rattle.std.specs.Prelude.{◌≡◌};
ghost use Rattle.std.specs.List.{list_all};
ghost use Rattle.std.specs.Int.{is_in_range};
ghost use Rattle.ge_model_grammar.specs.Names.{is_name_byte, is_name, is_barred, is_job_name_byte, is_job_name, begins_with_digit};
ghost use Rattle.ge_model_grammar.specs.Configuring.{is_group_name};

fn may_stand_in_name(b: u8) -> bool
    ensures { result ≡ is_name_byte b }
{
    b.is_ascii_lowercase()
        || b.is_ascii_uppercase()
        || b.is_ascii_digit()
        || b == b'_'
        || b == b'-'
        || b == b'.'
        || b == b'+'
}

fn has_name_bytes(text: &[u8]) -> bool
    ensures { result ≡ list_all is_name_byte text.now }
{
    text.iter().all(|b| may_stand_in_name(*b))
}

/// Whether a text is a name: 1 to 255 letters, digits, `_`, `-`, `.` and `+`.
pub fn is_a_name(text: &[u8]) -> bool
    ensures { result ≡ is_name text.now }
{
    text.len() >= 1 && text.len() <= 255 && has_name_bytes(text)
}

fn is_barred_byte(b: u8) -> bool
    ensures { result ≡ is_barred b }
{
    b == b'/'
        || b == b':'
        || b == b'@'
        || b == b'\\'
        || b == b'*'
        || b == b'?'
        || b == b'"'
        || b == b'\''
}

fn prints_and_is_no_blank(b: u8) -> bool
    ensures { result ≡ is_in_range 33 126 b }
{
    b >= 33 && b <= 126
}

/// Whether a byte may stand in a job name: it prints, is no blank and none of `/ : @ \ * ? " '` (sge_types, job_name).
pub fn may_stand_in_job_name(b: u8) -> bool
    ensures { result ≡ is_job_name_byte b }
{
    prints_and_is_no_blank(b) && !is_barred_byte(b)
}

/// Whether a text has bytes alone that a job name may have.
pub fn has_job_name_bytes(text: &[u8]) -> bool
    ensures { result ≡ list_all is_job_name_byte text.now }
{
    text.iter().all(|b| may_stand_in_job_name(*b))
}

/// Whether a text begins with a digit.
pub fn starts_with_digit(text: &[u8]) -> bool
    ensures { result ≡ begins_with_digit text.now }
{
    match text {
        [] => false,
        [first, ..] => first.is_ascii_digit(),
    }
}

/// Whether a text is a job name: 1 to 128 bytes that may stand in one, and no digit first (sge_types, job_name).
pub fn is_a_job_name(text: &[u8]) -> bool
    ensures { result ≡ is_job_name text.now }
{
    text.len() >= 1 && text.len() <= 128 && has_job_name_bytes(text) && !starts_with_digit(text)
}

/// Whether a text is the name of a host group: `@` and a name (hostgroup).
pub fn is_a_group_name(text: &[u8]) -> bool
    ensures { result ≡ is_group_name text.now }
{
    match text {
        [b'@', name @ ..] => is_a_name(name),
        _ => false,
    }
}
