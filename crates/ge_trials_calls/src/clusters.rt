//! Clusters that are read from bytes and changed by entries: what no command shows of them, and
//! what commands show.

use crate::canonical::push_hex;
use ge_codec::Canon;
use ge_core::{apply, plan, render};
use ge_opening_cluster::opening;
use ge_pieces::{before, behind, behind_word, first_word, is_word};
use ge_rows::{
    Advance, Cluster, Entry, Event, Grant, Job, Request, Running, Table, TaskSpan, Text, Value,
};
use ge_snapshot::{take_cluster, take_cluster_1, take_entry_1};
use ge_trials_rows::{append_all, bytes_of, read_events};
use std::alloc::{AllocError, Global};

fn is_of_format_1(line: &[u8]) -> bool {
    is_word(first_word(line), b"1")
}

// The cluster that a line gives: its format and its bytes, or the word for the opening cluster. Wrong bytes end a run as want of
// memory does.
fn cluster_on(alloc: Global, line: &[u8]) -> Result<Cluster, AllocError> {
    if is_word(line, b"opening") {
        return opening(alloc);
    }
    let bytes = bytes_of(alloc, behind_word(line))?;
    let taken = if is_of_format_1(line) {
        take_cluster_1(alloc, bytes.as_slice())
    } else {
        take_cluster(alloc, bytes.as_slice())
    };
    match taken {
        Ok(cluster) => Ok(cluster),
        Err(_) => Err(AllocError),
    }
}

// The entry that some bytes begin with, and where it ends. Wrong bytes end a run as want of memory does.
fn first_entry(alloc: Global, is_old: bool, bytes: &[u8]) -> Result<(Entry, usize), AllocError> {
    let taken = if is_old {
        take_entry_1(alloc, bytes, 0)
    } else {
        Entry::take(alloc, bytes, 0)
    };
    match taken {
        Ok(found) => Ok(found),
        Err(_) => Err(AllocError),
    }
}

// Applies the entries of a line, which gives their format and their bytes, one behind the other.
fn apply_all(alloc: Global, cluster: &mut Cluster, line: &[u8]) -> Result<(), AllocError> {
    let is_old = is_of_format_1(line);
    let bytes = bytes_of(alloc, behind_word(line))?;
    let mut rest = bytes.as_slice();
    for _ in 0..bytes.len() {
        if rest.is_empty() {
            return Ok(());
        }
        let (entry, end) = first_entry(alloc, is_old, rest)?;
        apply(alloc, cluster, entry)?;
        rest = rest.get(end..).unwrap_or(&[]);
    }
    Ok(())
}

// A blank, a field's name, a blank and its number.
fn push_number(alloc: Global, text: &mut Text, name: &str, number: u64) -> Result<(), AllocError> {
    text.append(format!(in alloc; " {name} {number}")?.as_bytes())
}

// The same of some fields.
fn push_numbers(
    alloc: Global,
    text: &mut Text,
    fields: &[(&'static str, u64)],
) -> Result<(), AllocError> {
    for (name, number) in fields {
        push_number(alloc, text, name, *number)?;
    }
    Ok(())
}

fn flag_word(flag: bool) -> &'static [u8] {
    if flag { b"TRUE" } else { b"FALSE" }
}

// A blank, a field's name, a blank and whether it holds.
fn push_flag(text: &mut Text, name: &[u8], flag: bool) -> Result<(), AllocError> {
    append_all(text, &[b" ", name, b" "])?;
    text.append(flag_word(flag))
}

fn push_value(alloc: Global, text: &mut Text, value: &Value) -> Result<(), AllocError> {
    match value {
        Value::Amount(amount) => {
            let amount = *amount;
            text.append(format!(in alloc; "{amount}")?.as_bytes())
        }
        Value::Flag(flag) => text.append(flag_word(*flag)),
        Value::Word(word) => text.append(word.bytes()),
    }
}

// Names with their values, each behind a blank.
fn push_values(
    alloc: Global,
    text: &mut Text,
    values: &Table<Text, Value>,
) -> Result<(), AllocError> {
    for (name, value) in values.iter() {
        append_all(text, &[b" ", name.bytes(), b"="])?;
        push_value(alloc, text, value)?;
    }
    Ok(())
}

// Places with their slots, each behind a blank.
fn push_grants(alloc: Global, text: &mut Text, grants: &[Grant]) -> Result<(), AllocError> {
    for grant in grants {
        let at = &grant.at;
        let slots = grant.slots.to_string(alloc)?;
        append_all(
            text,
            &[
                b" ",
                at.queue.bytes(),
                b"@",
                at.host.bytes(),
                b"=",
                slots.as_bytes(),
            ],
        )?;
    }
    Ok(())
}

// A field's name and spans of tasks, each behind a blank.
fn push_spans(
    alloc: Global,
    text: &mut Text,
    name: &[u8],
    spans: &[TaskSpan],
) -> Result<(), AllocError> {
    append_all(text, &[b" ", name])?;
    for span in spans {
        let (first, last, step) = (span.first, span.last, span.step);
        text.append(format!(in alloc; " {first}-{last}:{step}")?.as_bytes())?;
    }
    Ok(())
}

fn push_queues(text: &mut Text, queues: &[Text]) -> Result<(), AllocError> {
    text.append(b"queues")?;
    for queue in queues {
        append_all(text, &[b" ", queue.bytes()])?;
    }
    text.append(b"\n")
}

// What a job or an advance reservation asks for: lines of values, of queues, and of a parallel
// environment where there is one.
fn push_request(alloc: Global, text: &mut Text, request: &Request) -> Result<(), AllocError> {
    text.append(b"asked")?;
    push_values(alloc, text, &request.asked)?;
    text.append(b"\n")?;
    push_queues(text, request.queues.items())?;
    if let Some(pe) = &request.pe {
        let range = format!(in alloc; " low {} high {}\n", pe.low, pe.high)?;
        append_all(text, &[b"pe ", pe.name.bytes(), range.as_bytes()])?;
    }
    Ok(())
}

fn push_running(
    alloc: Global,
    text: &mut Text,
    task: u32,
    running: &Running,
) -> Result<(), AllocError> {
    text.append(format!(in alloc; "task {task}")?.as_bytes())?;
    let fields = [("serial", running.serial), ("start", running.start)];
    push_numbers(alloc, text, fields.as_slice())?;
    push_flag(text, b"deleting", running.deleting)?;
    push_grants(alloc, text, running.grants.items())?;
    text.append(b"\n")
}

// Each running task of a job.
fn push_tasks(alloc: Global, text: &mut Text, job: &Job) -> Result<(), AllocError> {
    for (task, running) in job.running.iter() {
        push_running(alloc, text, *task, running)?;
    }
    Ok(())
}

fn push_job(alloc: Global, text: &mut Text, key: u32, job: &Job) -> Result<(), AllocError> {
    text.append(format!(in alloc; "job key {key}")?.as_bytes())?;
    let fields = [
        ("number", u64::from(job.number)),
        ("share", job.share),
        ("not_before", job.not_before),
        ("deadline", job.deadline),
        ("hold", u64::from(job.hold)),
        ("oticket", job.oticket),
        ("advance", u64::from(job.advance)),
    ];
    push_numbers(alloc, text, fields.as_slice())?;
    push_flag(text, b"reserve", job.reserve)?;
    push_flag(text, b"array", job.array)?;
    push_spans(alloc, text, b"span", [job.span].as_slice())?;
    push_spans(alloc, text, b"queued", job.queued.spans())?;
    push_spans(alloc, text, b"broken", job.broken.spans())?;
    text.append(b"\n")?;
    push_request(alloc, text, &job.request)?;
    push_tasks(alloc, text, job)
}

fn push_jobs(alloc: Global, text: &mut Text, cluster: &Cluster) -> Result<(), AllocError> {
    for (key, row) in cluster.jobs.iter() {
        push_job(alloc, text, *key, row.job())?;
    }
    Ok(())
}

fn push_advance(
    alloc: Global,
    text: &mut Text,
    key: u32,
    advance: &Advance,
) -> Result<(), AllocError> {
    text.append(format!(in alloc; "advance key {key}")?.as_bytes())?;
    append_all(text, &[b" group ", advance.group.bytes(), b"\n"])?;
    push_request(alloc, text, &advance.request)
}

fn push_advances(alloc: Global, text: &mut Text, cluster: &Cluster) -> Result<(), AllocError> {
    for (key, advance) in cluster.advances.iter() {
        push_advance(alloc, text, *key, advance)?;
    }
    Ok(())
}

// What each host has reported.
fn push_loads(alloc: Global, text: &mut Text, cluster: &Cluster) -> Result<(), AllocError> {
    for (name, host) in cluster.hosts.iter() {
        append_all(text, &[b"load ", name.bytes()])?;
        push_values(alloc, text, &host.load)?;
        text.append(b"\n")?;
    }
    Ok(())
}

// Each sum of usage with its key.
fn push_usage(alloc: Global, text: &mut Text, cluster: &Cluster) -> Result<(), AllocError> {
    for (key, sum) in cluster.usage.iter() {
        let (epoch, sum) = (key.2, *sum);
        let line = format!(in alloc; " epoch {epoch} sum {sum}\n")?;
        let (user, project) = (key.0.bytes(), key.1.bytes());
        append_all(
            text,
            &[b"usage user ", user, b" project ", project, line.as_bytes()],
        )?;
    }
    Ok(())
}

fn push_cluster(alloc: Global, text: &mut Text, cluster: &Cluster) -> Result<(), AllocError> {
    text.append(b"cluster")?;
    let fields = [
        ("last", cluster.last),
        ("last_run", cluster.last_run),
        ("next_job", u64::from(cluster.next_job)),
        ("next_serial", cluster.next_serial),
        ("next_advance", u64::from(cluster.next_advance)),
    ];
    push_numbers(alloc, text, fields.as_slice())?;
    text.append(b"\n")
}

fn push_tables(alloc: Global, text: &mut Text, cluster: &Cluster) -> Result<(), AllocError> {
    text.append(b"tables")?;
    let fields = [
        ("complexes", cluster.complexes.len() as u64),
        ("hosts", cluster.hosts.len() as u64),
        ("groups", cluster.groups.len() as u64),
        ("queues", cluster.queues.len() as u64),
        ("pes", cluster.pes.len() as u64),
        ("quotas", cluster.quotas.len() as u64),
        ("sets", cluster.sets.len() as u64),
        ("users", cluster.users.len() as u64),
        ("projects", cluster.projects.len() as u64),
        ("shares", cluster.shares.len() as u64),
        ("jobs", cluster.jobs.len() as u64),
        ("usage", cluster.usage.len() as u64),
        ("lines", cluster.lines.len() as u64),
        ("advances", cluster.advances.len() as u64),
    ];
    push_numbers(alloc, text, fields.as_slice())?;
    text.append(b"\n")
}

// What no command shows of a cluster.
fn push_unshown(alloc: Global, text: &mut Text, cluster: &Cluster) -> Result<(), AllocError> {
    push_cluster(alloc, text, cluster)?;
    push_tables(alloc, text, cluster)?;
    push_loads(alloc, text, cluster)?;
    push_usage(alloc, text, cluster)?;
    push_jobs(alloc, text, cluster)?;
    push_advances(alloc, text, cluster)
}

// The reply to a request over a cluster, and the bytes of the entry that it makes.
fn push_reply(
    alloc: Global,
    text: &mut Text,
    cluster: &Cluster,
    event: &Event,
) -> Result<(), AllocError> {
    let (entry, reply, _) = plan(alloc, cluster, event)?.into_parts();
    text.append(render(alloc, &reply)?.bytes())?;
    if let Some(entry) = entry {
        let mut bytes = Text::new(alloc);
        entry.put(&mut bytes)?;
        text.append(b"entry ")?;
        push_hex(alloc, text, &bytes)?;
    }
    Ok(())
}

/// A page `cluster`: on a line the format, 1 or 2, and the bytes of a cluster, or `opening`; on a
/// line the format and the bytes of entries that are applied to it; and then a script. It tells
/// by the names of the fields what no command shows of the cluster, and then the reply to each
/// request over this same cluster, with the bytes of the entry that the request makes.
pub(crate) fn cluster_page(alloc: Global, body: &[u8]) -> Result<Vec<u8>, AllocError> {
    let rest = behind(b'\n', body);
    let mut cluster = cluster_on(alloc, before(b'\n', body))?;
    apply_all(alloc, &mut cluster, before(b'\n', rest))?;
    let mut text = Text::new(alloc);
    push_unshown(alloc, &mut text, &cluster)?;
    for event in read_events(alloc, behind(b'\n', rest))?.items() {
        push_reply(alloc, &mut text, &cluster, event)?;
    }
    Vec::from_slice(alloc, text.bytes())
}
