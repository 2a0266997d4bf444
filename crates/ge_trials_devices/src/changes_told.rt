//! What the table of jobs tells, as a line.

use ge_jobs::find_running;
use ge_rows::{Cluster, JobMark, Text};
use ge_snapshot::put_cluster;
use ge_trials_rows::{checksum, times_borne};
use std::alloc::{AllocError, Global};

// The task of a serial, or a dash.
fn running_words(alloc: Global, cluster: &Cluster, of: u64) -> Result<String, AllocError> {
    match find_running(alloc, &cluster.jobs, of) {
        Some((job, _, task, _)) => format!(in alloc; "{job}.{task}"),
        None => String::from_str(alloc, "-"),
    }
}

// Numbers of jobs, each behind a blank.
fn push_numbers(alloc: Global, text: &mut Vec<u8>, numbers: &[u32]) -> Result<(), AllocError> {
    for job in numbers {
        let number = *job;
        text.extend_from_slice(format!(in alloc; " {number}")?.as_bytes())?;
    }
    Ok(())
}

/// A comma and the checksum of a cluster's bytes.
pub(crate) fn push_checksum(
    alloc: Global,
    text: &mut Vec<u8>,
    cluster: &Cluster,
) -> Result<(), AllocError> {
    let mut bytes = Text::new(alloc);
    put_cluster(cluster, &mut bytes)?;
    let sum = checksum(bytes.bytes());
    text.extend_from_slice(format!(in alloc; ", {sum}")?.as_bytes())
}

/// The totals, live tasks and bytes of scripts; the task of a serial; and how often a mark is
/// borne and by which jobs.
pub(crate) fn push_told(
    alloc: Global,
    text: &mut Vec<u8>,
    cluster: &Cluster,
    serial: u64,
    wanted: &JobMark,
) -> Result<(), AllocError> {
    let (tasks, scripts) = cluster.jobs.totals();
    let running = running_words(alloc, cluster, serial)?;
    let bearers = cluster.jobs.bearers(alloc, wanted)?;
    let times = times_borne(alloc, &cluster.jobs, bearers.as_slice(), wanted)?;
    let told = format!(in alloc; "{tasks} {scripts}, {running}, {times}:")?;
    text.extend_from_slice(told.as_bytes())?;
    push_numbers(alloc, text, bearers.as_slice())
}
