//! The options of jobs read, and what refuses them.

use crate::answers::{is_named, no_call};
use ge_base::{Refusal, code};
use ge_complex::pair_text;
use ge_pieces::{before, behind, join};
use ge_request::{change_request, read_request};
use ge_rows::{Cluster, List, Options, Request, Text};
use std::alloc::{AllocError, Global};

// An option with a word and perhaps a second, left out where the last of them is empty.
fn give(
    alloc: Global,
    options: &mut Options,
    name: &[u8],
    words: &[&[u8]],
) -> Result<(), AllocError> {
    let mut texts = List::new(alloc);
    for word in words {
        if word.is_empty() {
            return Ok(());
        }
        texts.push(Text::from_bytes(alloc, word)?)?;
    }
    options.items.push((Text::from_bytes(alloc, name)?, texts))
}

// `-l`, `-q` and the two words of `-pe`, with bars between, each left out where it is empty.
fn options(alloc: Global, given: &[u8]) -> Result<Options, AllocError> {
    let mut options = Options {
        items: List::new(alloc),
    };
    let (asked, rest) = (before(b'|', given), behind(b'|', given));
    let (queues, rest) = (before(b'|', rest), behind(b'|', rest));
    give(alloc, &mut options, b"-l", &[asked])?;
    give(alloc, &mut options, b"-q", &[queues])?;
    give(
        alloc,
        &mut options,
        b"-pe",
        &[before(b'|', rest), behind(b'|', rest)],
    )?;
    Ok(options)
}

fn append_asked(
    alloc: Global,
    c: &Cluster,
    line: &mut Text,
    request: &Request,
) -> Result<(), AllocError> {
    for (name, value) in request.asked.iter() {
        if !line.is_empty() {
            line.append(b",")?;
        }
        line.append(pair_text(alloc, c, name, value)?.bytes())?;
    }
    Ok(())
}

fn append_range(alloc: Global, line: &mut Text, request: &Request) -> Result<(), AllocError> {
    if let Some(pe) = &request.pe {
        line.append(pe.name.bytes())?;
        line.append(format!(in alloc; " {}-{}", pe.low, pe.high)?.as_bytes())?;
    }
    Ok(())
}

// A request as a line: what it asks, its patterns, its environment and range, with `;` between.
fn line_of(alloc: Global, c: &Cluster, request: &Request) -> Result<Text, AllocError> {
    let mut line = Text::new(alloc);
    append_asked(alloc, c, &mut line, request)?;
    line.append(b";")?;
    line.append(join(alloc, b",", request.queues.items())?.bytes())?;
    line.append(b";")?;
    append_range(alloc, &mut line, request)?;
    Ok(line)
}

// What is answered, as such a line, or as the code of the refusal.
fn shown(alloc: Global, c: &Cluster, answer: Result<Request, Refusal>) -> Result<Text, AllocError> {
    match answer {
        Ok(request) => line_of(alloc, c, &request),
        Err(refusal) => Text::from_bytes(alloc, code(refusal).to_string(alloc)?.as_bytes()),
    }
}

// A request of one hour in all.q on two slots of mpi, changed by options.
fn changed(alloc: Global, c: &Cluster, given: &Options) -> Result<Text, AllocError> {
    match read_request(alloc, c, &options(alloc, b"h_rt=60|all.q|mpi|2")?) {
        Ok(older) => shown(alloc, c, change_request(alloc, c, given, &older)),
        Err(_) => Text::from_bytes(alloc, b"no request"),
    }
}

/// What a call answers that is given options: `request`, and `change` of another request.
pub(crate) fn answer(
    alloc: Global,
    c: &Cluster,
    name: &[u8],
    given: &[u8],
) -> Result<Text, AllocError> {
    let options = options(alloc, given)?;
    if is_named(name, b"request") {
        shown(alloc, c, read_request(alloc, c, &options))
    } else if is_named(name, b"change") {
        changed(alloc, c, &options)
    } else {
        no_call(alloc)
    }
}
