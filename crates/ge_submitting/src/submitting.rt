//! The plan of qsub.

ghost use Rattle.std.specs.Prelude.{◌≡◌, ◌++◌, Some, IfOk, IsTrue, codes, option_map};
ghost use Rattle.ge_model_rows.specs.Faults.{after_faults};
ghost use Rattle.ge_model_config.specs.Requests.{request_of, no_request as nothing_asked};
ghost use Rattle.ge_model_core.specs.JobOptions.{option_faults};
ghost use Rattle.ge_model_core.specs.JobAdvances.{join_faults};
ghost use Rattle.ge_model_core.specs.Submitting.{submitted_tasks, submitter, submitted_job, size_faults, submission_answer, submit_plan};
ghost use Rattle.ge_commands.specs.Real.{is_real};
ghost use Rattle.ge_commands.specs.Shown.{range_shown};
ghost use Rattle.ge_pieces.specs.Gives.{Reads};
ghost use Rattle.ge_job_options.specs.Holding.{holds_given};

use ge_answers::{accept, refuse};
use ge_base::Refusal;
use ge_commands::WideRange;
use ge_job_options::{
    Holder, Holds, both_known, job_of_parts, no_request, note_join, note_sizes, read_options,
    submitted_line, tasks_submitted,
};
use ge_rows::{Change, Cluster, Event, JobRow, List, Options, Planned, Request, Text};
use std::alloc::{AllocError, Global};

// What the options ask for and their hold lists, with what refuses them.
fn read_submission(
    alloc: Global,
    c: &Cluster,
    e: &Event,
    options: &Options,
    tasks: WideRange,
    faults: &mut Option<Refusal>,
) -> Result<(Request, Holds, Holds), AllocError>
    requires { range_shown tasks ≡ submitted_tasks options.now.items }
    ensures { Reads result faults.old faults.new (
      (
        (request_of c.now options.now.items nothing_asked).0,
        holds_given c.now options.now.items e.now.user (codes "-hold_jid"),
        holds_given c.now options.now.items e.now.user (codes "-hold_jid_ad"),
      ),
      option_faults c.now e.now options.now.items (submitter e.now options.now.items),
    ) }
{
    let older = no_request(alloc);
    let holder = Holder {
        who: &e.user,
        team: &e.group,
        tasks,
        older: &older,
    };
    let looked = read_options(alloc, c, e, options, &holder, faults)?;
    Ok(looked)
}

// The plan of a submission that nothing refuses.
fn accept_submission(
    alloc: Global,
    c: &Cluster,
    e: &Event,
    options: &Options,
    words: &List<Text>,
    script: &Text,
    tasks: &WideRange,
    looked: (Request, Holds, Holds),
) -> Result<Planned, AllocError>
    requires real { IsTrue (is_real tasks.now) }
    requires range { range_shown tasks.now ≡ submitted_tasks options.now.items }
    requires looked { looked ≡ (
      (request_of c.now options.now.items nothing_asked).0,
      holds_given c.now options.now.items e.now.user (codes "-hold_jid"),
      holds_given c.now options.now.items e.now.user (codes "-hold_jid_ad"),
    ) }
    ensures { IfOk result (λ planned. planned
        ≡ submission_answer e.now (submitted_job c.now e.now options.now.items words.now
        script.now)) }
{
    let (request, after, after_each) = looked;
    let (after, after_each) = both_known(after, after_each)?;
    let job = job_of_parts(
        alloc, c, e, options, words, script, tasks, request, after, after_each,
    )?;
    let line = submitted_line(alloc, &job)?;
    let row = JobRow::new(alloc, job)?;
    accept(alloc, e, Change::Submit(row), line)
}

/// The plan of qsub with these options, words of a command and script.
///
/// A submission is refused for its options, `NoSuchObject`, `NotPermitted`, `BadValue`, `NotRequestable` or `Limit`, for what a
/// job in an advance reservation can't have, and for its size: `Limit`. Of the refusals whose conditions hold the first by its
/// code answers.
#[tactic(auto, unfolding(ge_model_core::specs::Submitting::submit_plan))]
pub fn plan_submission(
    alloc: Global,
    cluster: &Cluster,
    e: &Event,
    options: &Options,
    words: &List<Text>,
    script: &Text,
) -> Result<Planned, AllocError>
    ensures { IfOk result (λ planned. planned
        ≡ submit_plan cluster.now e.now options.now.items words.now script.now) }
{
    let tasks = tasks_submitted(options);
    let mut faults = None;
    let looked = read_submission(alloc, cluster, e, options, tasks, &mut faults)?;
    note_join(cluster, e, options, &looked.0, &mut faults);
    note_sizes(cluster, &tasks, words, script, &mut faults);
    match faults {
        Some(refusal) => refuse(alloc, refusal),
        None => accept_submission(alloc, cluster, e, options, words, script, &tasks, looked),
    }
}
