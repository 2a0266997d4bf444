// What the words of a command line say.
ghost use Rattle.std.specs.Prelude.{◌≡◌, not, ◌==◌, ◌≤◌, IfSome, map, slice_index, string_bytes, unwrap_or};
ghost use Rattle.ge_model_program.specs.Words.{number_to, last_port, HasEvents, word_alone, word_at_port, word_with_number, port_served, port_in_words, word_with_jobs, word_of};

use ge_model_program::Word;
use ge_pieces::{digits_worth, has_digits, is_word};

// How many events a batch may have.
const BATCH_EVENTS: u32 = 1_024;

// How many jobs a script that is made up may have.
const MADE_UP_JOBS: u32 = 100_000;

// The greatest port.
const LAST_PORT: u32 = 65_535;

// How many connections may be served.
const SERVED_CONNECTIONS: u32 = 1_000_000;

// Whether a text begins with a zero.
fn leads_with_zero(text: &[u8]) -> bool
    ensures { result ≡ (slice_index text.now 0 == 48) }
{
    match text {
        [] => false,
        [first, ..] => *first == b'0',
    }
}

// The decimal number that a text is, from 1 to a greatest one.
fn read_number(greatest: u32, text: &[u8]) -> Option<u32>
    ensures value { result ≡ number_to greatest text.now }
    ensures some { IfSome result (λ number. 1 ≤ number) }
    ensures below { IfSome result (λ number. number ≤ greatest) }
{
    if !has_digits(text) || leads_with_zero(text) {
        return None;
    }
    let worth = digits_worth(text);
    if 1 <= worth && worth <= u64::from(greatest) {
        Some(worth as u32)
    } else {
        None
    }
}

fn read_alone(word: &[u8]) -> Option<Word>
    ensures value { result ≡ word_alone word.now }
    ensures some { IfSome result HasEvents }
{
    if is_word(word, b"simulate") {
        Some(Word::Simulate)
    } else if is_word(word, b"replay") {
        Some(Word::Replay(1))
    } else if is_word(word, b"status") {
        Some(Word::Status)
    } else {
        None
    }
}

fn read_at_port(port: &[u8], number: &[u8]) -> Option<Word>
    ensures value { result ≡ word_at_port port.now number.now }
    ensures some { IfSome result HasEvents }
{
    read_number(LAST_PORT, port)?;
    let count = read_number(SERVED_CONNECTIONS, number)?;
    Some(Word::Serve(count))
}

fn port_number(text: &[u8]) -> u16
    ensures { result ≡ unwrap_or (number_to last_port text.now) 0 }
{
    match read_number(LAST_PORT, text) {
        Some(port) => port as u16,
        None => 0,
    }
}

fn port_where_served(word: &[u8], port: &[u8]) -> u16
    ensures { result ≡ port_served word.now port.now }
{
    if is_word(word, b"serve") {
        port_number(port)
    } else {
        0
    }
}

/// The port that the words name where connections are served, and 0 elsewhere.
pub fn port_of(words: &Vec<String>) -> u16
    ensures { result ≡ port_in_words (map string_bytes words.now.items) }
{
    match words.as_slice() {
        [word, port, _] => port_where_served(word.as_bytes(), port.as_bytes()),
        _ => 0,
    }
}

fn read_with_number(word: &[u8], option: &[u8], number: &[u8]) -> Option<Word>
    ensures value { result ≡ word_with_number word.now option.now number.now }
    ensures some { IfSome result HasEvents }
{
    if is_word(word, b"serve") {
        return read_at_port(option, number);
    }
    if !is_word(word, b"replay") || !is_word(option, b"-batch") {
        return None;
    }
    let batch = read_number(BATCH_EVENTS, number)?;
    Some(Word::Replay(batch))
}

fn read_with_jobs(word: &[u8], jobs: &[u8]) -> Option<Word>
    ensures value { result ≡ word_with_jobs word.now jobs.now }
    ensures some { IfSome result HasEvents }
{
    if is_word(word, b"generate") {
        let jobs = read_number(MADE_UP_JOBS, jobs)?;
        Some(Word::Generate(jobs))
    } else if is_word(word, b"trial") {
        let jobs = read_number(MADE_UP_JOBS, jobs)?;
        Some(Word::Trial(jobs))
    } else {
        None
    }
}

/// What the words say, or nothing where they are no line of the table of words.
pub(crate) fn read_words(words: &[String]) -> Option<Word>
    ensures value { result ≡ word_of (map string_bytes words.now) }
    ensures some { IfSome result HasEvents }
{
    match words {
        [] => None,
        [word] => read_alone(word.as_bytes()),
        [word, jobs] => read_with_jobs(word.as_bytes(), jobs.as_bytes()),
        [word, option, number] => {
            read_with_number(word.as_bytes(), option.as_bytes(), number.as_bytes())
        }
        [_, _, _, _, ..] => None,
    }
}
