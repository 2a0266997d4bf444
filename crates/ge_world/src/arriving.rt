// The event of what comes to the master.
ghost use Rattle.std.specs.Prelude.{◌≡◌, IfOk, None, Some, if◌then◌else◌, option_copied, option_map};
ghost use Rattle.std.specs.List.{slice_get};
ghost use Rattle.ge_execd.specs.Daemons.{end_text};
ghost use Rattle.ge_model_world.specs.Worlds.{arrival_event, report_event, root_event};
ghost use Rattle.ge_world_laws.specs.Product.{is_end_command, is_end_text, orders_text, product};

use ge_base::Refusal;
use ge_collections::twins3;
use ge_commands::parse;
use ge_execd::end_line;
use ge_model_world::{Arrival, Report};
use ge_printing::{Column, join_columns};
use ge_rows::{Command, Event, Form, Text};
use std::alloc::{AllocError, Global};

fn is_end_command(command: &Command) -> bool
    ensures { result ≡ is_end_command command.now }
{
    match command {
        Command::End(_, _, _, _, _) => true,
        _ => false,
    }
}

// Whether a text is read as the request `end`.
fn is_end_text(alloc: Global, text: &Text) -> Result<bool, AllocError>
    ensures { IfOk result (λ is. is ≡ is_end_text text.now) }
{
    match parse(alloc, text) {
        Ok(command) => Ok(is_end_command(&command)),
        Err(Refusal::NoMemory) => Err(AllocError),
        Err(_) => Ok(false),
    }
}

fn same_event(alloc: Global, e: &Event) -> Result<Event, AllocError>
    ensures { IfOk result (λ event. event ≡ e.now) }
{
    let (user, group, text) = twins3(alloc, &e.user, &e.group, &e.text)?;
    Ok(Event {
        moment: e.moment,
        user,
        group,
        text,
        form: e.form,
    })
}

// The event of a request, if that isn't `end`.
fn event_of_command(alloc: Global, e: &Event) -> Result<Option<Event>, AllocError>
    ensures { IfOk result (λ event. event
        ≡ if is_end_text e.now.text then None else Some e.now) }
{
    if is_end_text(alloc, &e.text)? {
        return Ok(None);
    }
    let event = same_event(alloc, e)?;
    Ok(Some(event))
}

// Root's request.
fn event_of_root(alloc: Global, moment: u64, text: Text) -> Result<Event, AllocError>
    ensures { IfOk result (λ event. event ≡ root_event moment text) }
{
    let user = Text::from_bytes(alloc, b"root")?;
    let group = Text::from_bytes(alloc, b"root")?;
    Ok(Event {
        moment,
        user,
        group,
        text,
        form: Form::Good,
    })
}

/// Root's request for the orders of a host.
pub(crate) fn event_of_orders(alloc: Global, moment: u64, host: &Text) -> Result<Event, AllocError>
    ensures { IfOk result (λ event. event ≡ root_event moment (orders_text host.now)) }
{
    let columns = [Column::Word(b"orders"), Column::Word(host.bytes())];
    let text = join_columns(alloc, &columns)?;
    event_of_root(alloc, moment, text)
}

fn event_of_report(alloc: Global, moment: u64, r: &Report) -> Result<Event, AllocError>
    ensures { IfOk result (λ event. event ≡ report_event moment r.now) }
{
    let text = end_line(alloc, r.serial, r.exit, r.cpu, r.mem, r.io)?;
    event_of_root(alloc, moment, text)
}

/// The report at a place, if there is one.
pub(crate) fn report_at(reports: &[Report], place: u64) -> Option<&Report>
    ensures { option_copied result ≡ slice_get reports.now place }
{
    reports.get(place as usize)
}

fn event_at(
    alloc: Global,
    moment: u64,
    report: Option<&Report>,
) -> Result<Option<Event>, AllocError>
    ensures { IfOk result (λ event. event
        ≡ option_map (report_event moment) (option_copied report.entry)) }
{
    let Some(report) = report else {
        return Ok(None);
    };
    let event = event_of_report(alloc, moment, report)?;
    Ok(Some(event))
}

/// The event of what comes to the master, if it has one: the request `end` of a user has none, nor has a report that wasn't sent.
pub fn arriving_event(
    alloc: Global,
    reports: &[Report],
    x: &Arrival,
) -> Result<Option<Event>, AllocError>
    ensures { IfOk result (λ event. event ≡ arrival_event product reports.now x.now) }
{
    match x {
        Arrival::Command(e) => event_of_command(alloc, e),
        Arrival::Report(place, moment) => event_at(alloc, *moment, report_at(reports, *place)),
    }
}
