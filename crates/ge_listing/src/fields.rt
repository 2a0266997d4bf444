//! What one job is.

ghost use Rattle.std.specs.Prelude.{◌≡◌, ◌++◌, ◌∷◌, [], IfOk, OnOk, codes, decimal, map};
ghost use Rattle.std.specs.Fmt.{signed_decimal};
ghost use Rattle.ge_model_rows.specs.Complexes.{pair_text};
ghost use Rattle.ge_model_rows.specs.Pieces.{list_text};
ghost use Rattle.ge_model_rows.specs.SetText.{set_text};
ghost use Rattle.ge_model_jobs.specs.Holds.{live_tasks, running_tasks};
ghost use Rattle.ge_ranges.specs.Forming.{is_rising};
ghost use Rattle.ge_model_report.specs.JobFields.{field_line, hold_letter, hold_text, job_fields, one_listing, or_none, pe_text};

use ge_pieces::or_none_text;
use ge_printing::{decimal_text, number_list, values_text};
use ge_ranges::{set_of, text, union};
use ge_rows::{Cluster, Job, List, PeRequest, TaskSet, Text, job_at};
use std::alloc::{AllocError, Global};

// A name with its value behind a blank, or NONE where the value is empty.
fn put_field(
    alloc: Global,
    lines: &mut List<Text>,
    name: &[u8],
    value: &Text,
) -> Result<(), AllocError>
    ensures { OnOk result (lines.new ≡ lines.old ++ field_line name.now value.now ∷ []) }
{
    let mut line = Text::from_bytes(alloc, name)?;
    line.push(b' ')?;
    line.append(or_none_text(value))?;
    lines.push(line)
}

fn put_number(alloc: Global, lines: &mut List<Text>, name: &[u8], n: u64) -> Result<(), AllocError>
    ensures { OnOk result (lines.new ≡ lines.old ++ field_line name.now (decimal n) ∷ []) }
{
    let value = decimal_text(alloc, u128::from(n))?;
    put_field(alloc, lines, name, &value)
}

fn append_letter(text: &mut Text, hold: u8, bit: u8, letter: u8) -> Result<(), AllocError>
    ensures { OnOk result (text.new ≡ text.old ++ hold_letter hold bit (letter ∷ [])) }
{
    if hold & bit == 0 {
        return Ok(());
    }
    text.push(letter)
}

// The letters of the holds that stand, or a dash.
fn holds(alloc: Global, hold: u8) -> Result<Text, AllocError>
    ensures { IfOk result (λ text. text ≡ hold_text hold) }
{
    let mut text = Text::new(alloc);
    append_letter(&mut text, hold, 1, b'u')?;
    append_letter(&mut text, hold, 2, b'o')?;
    append_letter(&mut text, hold, 4, b's')?;
    if text.is_empty() {
        text.push(b'-')?;
    }
    Ok(text)
}

// A parallel environment with the range of its slots.
fn environment(alloc: Global, pe: &Option<PeRequest>) -> Result<Text, AllocError>
    ensures { IfOk result (λ text. text ≡ pe_text pe.now) }
{
    let Some(pe) = pe else {
        return Ok(Text::new(alloc));
    };
    let mut text = Text::from_bytes(alloc, pe.name.bytes())?;
    text.push(b' ')?;
    text.append(pe.low.to_string(alloc)?.as_bytes())?;
    text.push(b'-')?;
    text.append(pe.high.to_string(alloc)?.as_bytes())?;
    Ok(text)
}

fn priority_text(alloc: Global, priority: i32) -> Result<Text, AllocError>
    ensures { IfOk result (λ text. text ≡ signed_decimal priority) }
{
    Text::from_bytes(alloc, priority.to_string(alloc)?.as_bytes())
}

// The numbers of the tasks that run.
fn running_numbers(alloc: Global, job: &Job) -> Result<List<u32>, AllocError>
    ensures { IfOk result (λ numbers. numbers ≡ map (λ task. task.0) job.now.running) }
{
    let mut numbers = List::new(alloc);
    for (number, _running) in job.running.iter() {
        numbers.push(*number)?;
    }
    Ok(numbers)
}

// Whether numbers rise above one that lies below them all.
fn rise_above(low: u32, numbers: &[u32]) -> bool
    ensures { result ≡ is_rising low numbers.now }
{
    let mut last = low;
    for number in numbers {
        if *number <= last {
            return false;
        }
        last = *number;
    }
    true
}

// The tasks that run. They are keys of a table and at least 1, so that the test never fails.
fn running_tasks(alloc: Global, job: &Job) -> Result<TaskSet, AllocError>
    ensures { IfOk result (λ set. set ≡ running_tasks job.now) }
{
    let numbers = running_numbers(alloc, job)?;
    if !rise_above(0, numbers.items()) {
        return Err(AllocError);
    }
    set_of(alloc, numbers.items())
}

fn live_tasks(alloc: Global, job: &Job) -> Result<TaskSet, AllocError>
    ensures { IfOk result (λ set. set ≡ live_tasks job.now) }
{
    let waiting = union(alloc, &job.queued, &job.broken)?;
    let running = running_tasks(alloc, job)?;
    union(alloc, &waiting, &running)
}

// The tasks that live, by their spans.
fn tasks_of(alloc: Global, job: &Job) -> Result<Text, AllocError>
    ensures { IfOk result (λ text. text ≡ set_text (live_tasks job.now)) }
{
    let tasks = live_tasks(alloc, job)?;
    text(alloc, &tasks)
}

// What a job was submitted as.
fn first_fields(alloc: Global, number: u32, job: &Job) -> Result<List<Text>, AllocError>
    ensures { IfOk result (λ lines. lines ≡ field_line (codes "job_number") (decimal number)
        ∷ field_line (codes "job_name") job.now.name ∷ field_line (codes "owner") job.now.owner
        ∷ field_line (codes "group") job.now.group ∷ field_line (codes "account") job.now.account
        ∷ field_line (codes "submission_time") (decimal job.now.submitted) ∷ []) }
{
    let mut lines = List::new(alloc);
    put_number(alloc, &mut lines, b"job_number", u64::from(number))?;
    put_field(alloc, &mut lines, b"job_name", &job.name)?;
    put_field(alloc, &mut lines, b"owner", &job.owner)?;
    put_field(alloc, &mut lines, b"group", &job.group)?;
    put_field(alloc, &mut lines, b"account", &job.account)?;
    put_number(alloc, &mut lines, b"submission_time", job.submitted)?;
    Ok(lines)
}

// What a job asks for and may be altered.
fn middle_fields(alloc: Global, c: &Cluster, job: &Job) -> Result<List<Text>, AllocError>
    ensures { IfOk result (λ lines. lines ≡ field_line (codes "priority")
        (signed_decimal job.now.priority)
        ∷ field_line (codes "project") job.now.project ∷ field_line (codes "hold") (hold_text job.now.hold)
        ∷ field_line (codes "hard_resource_list") (list_text (map (pair_text c.now) job.now.request.asked)) ∷ []) }
{
    let priority = priority_text(alloc, job.priority)?;
    let hold = holds(alloc, job.hold)?;
    let asked = values_text(alloc, c, &job.request.asked)?;
    let mut lines = List::new(alloc);
    put_field(alloc, &mut lines, b"priority", &priority)?;
    put_field(alloc, &mut lines, b"project", &job.project)?;
    put_field(alloc, &mut lines, b"hold", &hold)?;
    put_field(alloc, &mut lines, b"hard_resource_list", &asked)?;
    Ok(lines)
}

// What a job waits for, and its tasks.
fn last_fields(alloc: Global, job: &Job) -> Result<List<Text>, AllocError>
    ensures { IfOk result (λ lines. lines ≡ field_line (codes "parallel_environment")
        (pe_text job.now.request.pe)
        ∷ field_line (codes "predecessors") (list_text (map decimal job.now.after))
        ∷ field_line (codes "array_predecessors") (list_text (map decimal job.now.after_each))
        ∷ field_line (codes "tasks") (set_text (live_tasks job.now)) ∷ []) }
{
    let pe = environment(alloc, &job.request.pe)?;
    let after = number_list(alloc, job.after.items())?;
    let after_each = number_list(alloc, job.after_each.items())?;
    let tasks = tasks_of(alloc, job)?;
    let mut lines = List::new(alloc);
    put_field(alloc, &mut lines, b"parallel_environment", &pe)?;
    put_field(alloc, &mut lines, b"predecessors", &after)?;
    put_field(alloc, &mut lines, b"array_predecessors", &after_each)?;
    put_field(alloc, &mut lines, b"tasks", &tasks)?;
    Ok(lines)
}

// Lines behind others.
fn put_all(lines: &mut List<Text>, more: List<Text>) -> Result<(), AllocError>
    ensures { OnOk result (lines.new ≡ lines.old ++ more) }
{
    for line in more.into_vec() {
        lines.push(line)?;
    }
    Ok(())
}

fn fields_of(alloc: Global, c: &Cluster, number: u32, job: &Job) -> Result<List<Text>, AllocError>
    ensures { IfOk result (λ lines. lines ≡ job_fields c.now number job.now) }
{
    let mut lines = first_fields(alloc, number, job)?;
    put_all(&mut lines, middle_fields(alloc, c, job)?)?;
    put_all(&mut lines, last_fields(alloc, job)?)?;
    Ok(lines)
}

/// What a job is, one field a line: `qstat -j`. See the manual page qstat. A job that isn't there has no lines.
///
/// The fields are `job_number`, `job_name`, `owner`, `group`, `account`, `submission_time` (in seconds), `priority`,
/// `project`, `hold` (the letters of `u`, `o` and `s` whose holds stand, or `-`), `hard_resource_list`,
/// `parallel_environment` (its name and the range of slots), `predecessors`, `array_predecessors` and `tasks` (all that
/// live), each with a blank and its value, or `NONE` where that is empty.
pub fn show_job(alloc: Global, c: &Cluster, number: u32) -> Result<List<Text>, AllocError>
    ensures { IfOk result (λ lines. lines ≡ one_listing c.now number) }
{
    match job_at(&c.jobs, number) {
        None => Ok(List::new(alloc)),
        Some(job) => fields_of(alloc, c, number, job),
    }
}
