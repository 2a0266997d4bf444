//! Events read, planned and applied, and replies rendered.

use ge_core::{apply, plan, render};
use ge_opening_cluster::opening;
use ge_outside::PlainSource;
use ge_pieces::{before, behind, digits_worth, slices_at};
use ge_rows::{Event, Form, List, Reply, Text};
use ge_script::read_script;
use ge_trials_rows::{first_event, read_events};
use std::alloc::{AllocError, Global};

fn form_word(form: Form) -> &'static str {
    match form {
        Form::Good => "good",
        Form::BadHeader => "bad header",
        Form::TooLong => "too long",
    }
}

fn push_text(text: &mut Vec<u8>, sort: &[u8], bytes: &[u8]) -> Result<(), AllocError> {
    text.extend_from_slice(sort)?;
    text.extend_from_slice(bytes)?;
    text.extend_from_slice(b"\n")
}

fn push_event(alloc: Global, text: &mut Vec<u8>, event: &Event) -> Result<(), AllocError> {
    push_text(text, b"moment ", event.moment.to_string(alloc)?.as_bytes())?;
    push_text(text, b"user ", event.user.bytes())?;
    push_text(text, b"group ", event.group.bytes())?;
    push_text(text, b"form ", form_word(event.form).as_bytes())?;
    push_text(text, b"", event.text.bytes())
}

/// A page `script`, which is a script, read from a source. It tells each of its events.
pub(crate) fn requests_page(alloc: Global, body: &[u8]) -> Result<Vec<u8>, AllocError> {
    let mut input = PlainSource::new(body.to_vec(alloc)?);
    let mut text = Vec::new(alloc);
    let Ok(script) = read_script(alloc, &mut input) else {
        return Ok(text);
    };
    for event in read_events(alloc, script.as_slice())?.items() {
        push_event(alloc, &mut text, event)?;
    }
    Ok(text)
}

/// A page `plan`: a script, whose first event is planned from the opening cluster and applied. It tells the reply, whether the
/// master is to stop, and of the cluster then its last moment, the number of its next job and how many jobs it has.
pub(crate) fn plan_page(alloc: Global, script: &[u8]) -> Result<Vec<u8>, AllocError> {
    let event = first_event(alloc, script)?;
    let mut cluster = opening(alloc)?;
    let (entry, reply, stop) = plan(alloc, &cluster, &event)?.into_parts();
    if let Some(entry) = entry {
        apply(alloc, &mut cluster, entry)?;
    }
    let stop = if stop { "stop" } else { "go on" };
    let (last, next, jobs) = (cluster.last, cluster.next_job, cluster.jobs.len());
    let mut text = Vec::from_slice(alloc, render(alloc, &reply)?.bytes())?;
    let line = format!(in alloc; "{stop}, last {last}, next job {next}, jobs {jobs}\n")?;
    text.extend_from_slice(line.as_bytes())?;
    Ok(text)
}

/// A page `reply`: a code, and then the lines of a reply. It tells the reply rendered.
pub(crate) fn reply_page(alloc: Global, body: &[u8]) -> Result<Vec<u8>, AllocError> {
    let (code, rest) = (before(b'\n', body), behind(b'\n', body));
    let mut lines = List::new(alloc);
    for line in slices_at(alloc, b'\n', rest)?.as_slice() {
        lines.push(Text::from_bytes(alloc, line)?)?;
    }
    let code = digits_worth(code).min(255) as u8;
    Vec::from_slice(alloc, render(alloc, &Reply { code, lines })?.bytes())
}
