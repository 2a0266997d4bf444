//! What the options of qsub and qalter set in a job, and what refuses them.

ghost use Rattle.std.specs.Prelude.{◌≡◌, ◌^◌, IfOk, OnOk, Some, if◌then◌else◌, None, codes, option_map};
ghost use Rattle.std.specs.Option.{option_copied};
ghost use Rattle.ge_model_rows.specs.Faults.{after_faults};
ghost use Rattle.ge_model_grammar.specs.Options.{option_words as words_of_option};
ghost use Rattle.ge_model_config.specs.Requests.{request_of};
ghost use Rattle.ge_model_core.specs.OptionValues.{option_word as word_given, number_given as given_number, integer_of};
ghost use Rattle.ge_model_core.specs.HoldLists.{hold_faults};
ghost use Rattle.ge_model_core.specs.JobOptions.{faults_in, priority_faults, admission_faults, project_faults, override_faults, width_faults, array_hold_faults, option_faults};
ghost use Rattle.ge_model_core.specs.JobOptions as job_options;
ghost use Rattle.ge_pieces.specs.Gives.{Reads};
ghost use Rattle.ge_job_options.specs.Held.{holder_shown, job_words_faults, patch_with};
ghost use Rattle.ge_job_options.specs.Holding.{holds_given as given_holds};

use crate::hold_lists::{holds_given, note_array_holds, note_holds};
use crate::holders::Holder;
use crate::option_values::{
    is_negative, magnitude, note_deadline, note_moment, note_wide, note_width, number_given,
    option_text, option_word, small_integer, small_number_given, text_given, yes_given,
};
use ge_base::Refusal;
use ge_commands::has_option;
use ge_pieces::note;
use ge_request::request_over;
use ge_rows::{Cluster, Event, List, Options, Patch, ProjectRow, Request, Text};
use ge_site::{is_operator, may_use};
use std::alloc::{AllocError, Global};

/// A hold list that was read, where one is given: its predecessors, or nothing where one of its numbers no job has had.
pub type Holds = Option<Option<List<u32>>>;

/// Whether options ask for another request: `-l`, `-q` or `-pe`.
pub fn asks(options: &Options) -> bool
    ensures { result ≡ job_options.asks options.now.items }
{
    has_option(options, b"-l") || has_option(options, b"-q") || has_option(options, b"-pe")
}

// The greatest size of a priority, below 0 and above.
fn greatest_size(below: bool) -> u128
    ensures { result ≡ (if below then 1023 else 1024) }
{
    if below { 1023 } else { 1024 }
}

// A priority lies between -1023 and 1024; one above 0 is for operators (qsub, -p).
fn note_priority(c: &Cluster, e: &Event, options: &Options, faults: &mut Option<Refusal>)
    ensures { faults.new ≡ after_faults faults.old
        (faults_in (word_given options.now.items (codes "-p")) (priority_faults c.now e.now)) }
{
    if let Some(word) = option_word(options, b"-p") {
        let below = is_negative(word);
        let size = magnitude(word);
        note(
            faults,
            !below && size > 0 && !is_operator(c, &e.user),
            Refusal::NotPermitted,
        );
        note(faults, size > greatest_size(below), Refusal::BadValue);
    }
}

// A project that was looked up is there and admits the owner.
fn note_admission(
    c: &Cluster,
    holder: &Holder,
    project: Option<&ProjectRow>,
    faults: &mut Option<Refusal>,
)
    ensures { faults.new ≡ after_faults faults.old
        (admission_faults c.now (holder_shown holder.now) (option_copied project.entry)) }
{
    match project {
        None => note(faults, true, Refusal::NoSuchObject),
        Some(project) => note(
            faults,
            !may_use(c, &project.acl, &project.xacl, holder.who, holder.team),
            Refusal::NotPermitted,
        ),
    }
}

// A project is there and admits the owner (qsub, -P; project).
fn note_project(c: &Cluster, options: &Options, holder: &Holder, faults: &mut Option<Refusal>)
    ensures { faults.new ≡ after_faults faults.old
        (faults_in (word_given options.now.items (codes "-P")) (project_faults c.now (holder_shown holder.now))) }
{
    if let Some(name) = option_text(options, b"-P") {
        note_admission(c, holder, c.projects.get(name), faults);
    }
}

// Override tickets are for operators, and below 2^32 (qalter, -ot).
fn note_override(c: &Cluster, e: &Event, options: &Options, faults: &mut Option<Refusal>)
    ensures { faults.new ≡ after_faults faults.old
        (faults_in (given_number options.now.items (codes "-ot")) (override_faults c.now e.now)) }
{
    if let Some(number) = number_given(options, b"-ot") {
        note(faults, !is_operator(c, &e.user), Refusal::NotPermitted);
        note_wide(faults, number);
    }
}

// Everything but the request and the hold lists.
fn note_words(
    c: &Cluster,
    e: &Event,
    options: &Options,
    holder: &Holder,
    faults: &mut Option<Refusal>,
)
    ensures { faults.new ≡ after_faults faults.old (job_words_faults c.now e.now options.now.items
        (holder_shown holder.now)) }
{
    note_priority(c, e, options, faults);
    note_width(faults, number_given(options, b"-js"));
    note_project(c, options, holder, faults);
    note_moment(faults, number_given(options, b"-a"));
    note_deadline(faults, number_given(options, b"-dl"));
    note_override(c, e, options, faults);
}

// -hold_jid: what it names, and whether all its numbers are known.
#[tactic(auto, using(crate::proofs::Held::holds_noted))]
fn read_holds(
    alloc: Global,
    c: &Cluster,
    options: &Options,
    holder: &Holder,
    faults: &mut Option<Refusal>,
) -> Result<Holds, AllocError>
    ensures { Reads result faults.old faults.new (
      given_holds c.now options.now.items (holder_shown holder.now).owner (codes "-hold_jid"),
      faults_in (word_given options.now.items (codes "-hold_jid")) (hold_faults c.now),
    ) }
{
    let holds = holds_given(alloc, c, options, holder.who, b"-hold_jid")?;
    note_holds(faults, &holds);
    Ok(holds)
}

// -hold_jid_ad: what it names, whether all its numbers are known, and whether all have the job's range of tasks.
#[tactic(auto, using(crate::proofs::Held::array_holds_noted))]
fn read_array_holds(
    alloc: Global,
    c: &Cluster,
    options: &Options,
    holder: &Holder,
    faults: &mut Option<Refusal>,
) -> Result<Holds, AllocError>
    ensures { Reads result faults.old faults.new (
      given_holds c.now options.now.items (holder_shown holder.now).owner (codes "-hold_jid_ad"),
      faults_in (word_given options.now.items (codes "-hold_jid_ad")) (array_hold_faults c.now (holder_shown holder.now)),
    ) }
{
    let holds = holds_given(alloc, c, options, holder.who, b"-hold_jid_ad")?;
    note_array_holds(c, &holder.tasks, faults, &holds);
    Ok(holds)
}

/// Reads the options of a job, and notes what refuses them: what they ask for in place of the older request, and their hold
/// lists. The other words are read once nothing refuses them.
pub fn read_options(
    alloc: Global,
    c: &Cluster,
    e: &Event,
    options: &Options,
    holder: &Holder,
    faults: &mut Option<Refusal>,
) -> Result<(Request, Holds, Holds), AllocError>
    ensures { Reads result faults.old faults.new (
      (
        (request_of c.now options.now.items holder.now.older.now).0,
        given_holds c.now options.now.items (holder_shown holder.now).owner (codes "-hold_jid"),
        given_holds c.now options.now.items (holder_shown holder.now).owner (codes "-hold_jid_ad"),
      ),
      option_faults c.now e.now options.now.items (holder_shown holder.now),
    ) }
{
    let request = request_over(alloc, c, options, holder.older, faults)?;
    note_words(c, e, options, holder, faults);
    let after = read_holds(alloc, c, options, holder, faults)?;
    let after_each = read_array_holds(alloc, c, options, holder, faults)?;
    Ok((request, after, after_each))
}

// A hold list that isn't refused.
fn known(holds: Holds) -> Result<Option<List<u32>>, AllocError>
    ensures { IfOk result (λ list. option_map Some list ≡ holds) }
{
    match holds {
        None => Ok(None),
        Some(None) => Err(AllocError),
        Some(Some(numbers)) => Ok(Some(numbers)),
    }
}

/// Hold lists that aren't refused.
pub fn both_known(
    after: Holds,
    after_each: Holds,
) -> Result<(Option<List<u32>>, Option<List<u32>>), AllocError>
    ensures first { IfOk result (λ both. option_map Some both.0 ≡ after) }
    ensures second { IfOk result (λ both. option_map Some both.1 ≡ after_each) }
{
    let after = known(after)?;
    let after_each = known(after_each)?;
    Ok((after, after_each))
}

/// The words of `-N`, `-P` and `-A`.
pub(crate) fn texts_given(
    alloc: Global,
    options: &Options,
) -> Result<(Option<Text>, Option<Text>, Option<Text>), AllocError>
    ensures { IfOk result (λ three. three ≡ (
      word_given options.now.items (codes "-N"),
      word_given options.now.items (codes "-P"),
      word_given options.now.items (codes "-A"),
    )) }
{
    let name = text_given(alloc, options, b"-N")?;
    let project = text_given(alloc, options, b"-P")?;
    let account = text_given(alloc, options, b"-A")?;
    Ok((name, project, account))
}

/// The numbers of `-js`, `-a`, `-dl` and `-ot`, which aren't refused.
pub(crate) fn numbers_given(
    options: &Options,
) -> Result<(Option<u64>, Option<u64>, Option<u64>, Option<u64>), AllocError>
    ensures { IfOk result (λ four. four ≡ (
      given_number options.now.items (codes "-js"),
      given_number options.now.items (codes "-a"),
      given_number options.now.items (codes "-dl"),
      given_number options.now.items (codes "-ot"),
    )) }
{
    let share = small_number_given(options, b"-js")?;
    let not_before = small_number_given(options, b"-a")?;
    let deadline = small_number_given(options, b"-dl")?;
    let oticket = small_number_given(options, b"-ot")?;
    Ok((share, not_before, deadline, oticket))
}

/// The number of `-p`, which isn't refused.
pub(crate) fn priority_given(options: &Options) -> Result<Option<i32>, AllocError>
    ensures { IfOk result (λ number. number ≡ option_map integer_of (word_given options.now.items
        (codes "-p"))) }
{
    match option_word(options, b"-p") {
        None => Ok(None),
        Some(word) => match small_integer(word) {
            None => Err(AllocError),
            Some(number) => Ok(Some(number)),
        },
    }
}

fn if_asked(options: &Options, request: Request) -> Option<Request>
    ensures { result ≡ (if job_options.asks options.now.items then Some request else None) }
{
    if asks(options) { Some(request) } else { None }
}

/// What options that aren't refused set in a job, with the request and the predecessors that were looked up.
pub fn patch_of_parts(
    alloc: Global,
    options: &Options,
    request: Request,
    after: Option<List<u32>>,
    after_each: Option<List<u32>>,
) -> Result<Patch, AllocError>
    ensures { IfOk result (λ patch. patch ≡ patch_with options.now.items request after after_each) }
{
    let (name, project, account) = texts_given(alloc, options)?;
    let (share, not_before, deadline, oticket) = numbers_given(options)?;
    let priority = priority_given(options)?;
    Ok(Patch {
        name,
        request: if_asked(options, request),
        priority,
        share,
        project,
        reserve: yes_given(options, b"-R"),
        not_before,
        deadline,
        account,
        after,
        after_each,
        oticket,
    })
}
