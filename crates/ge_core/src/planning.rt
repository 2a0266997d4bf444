// The plan of an event.
ghost use Rattle.std.specs.Prelude.{◌≡◌, false, IfOk};
ghost use Rattle.std.specs.Option.{option_copied};
ghost use Rattle.ge_model_core.specs.Forms.{is_cut};
ghost use Rattle.ge_model_core.specs.Plan.{event_command, command_plan, timely_plan, plan_of};
ghost use Rattle.ge_model_grammar.specs.ScriptLines.{is_too_long};

use crate::booking::plan_booking;
use crate::showing::plan_list;
use ge_answers::refuse;
use ge_base::Refusal;
use ge_commands::parse;
use ge_configuring::{plan_addition, plan_modification, plan_print, plan_removal};
use ge_deleting::{plan_clearing, plan_deletion, plan_hold, plan_release};
use ge_dispatching::plan_run;
use ge_pieces::is_too_long_text;
use ge_reporting::{
    plan_account, plan_end, plan_load, plan_orders, plan_show_booked, plan_stop, plan_task,
    plan_unbooking,
};
use ge_rows::{Cluster, Command, Event, Form, Planned};
use ge_submitting::{plan_alteration, plan_submission};
use std::alloc::{AllocError, Global};

fn is_cut_short(form: Form) -> bool
    ensures { result ≡ is_cut form }
{
    match form {
        Form::TooLong => true,
        Form::Good | Form::BadHeader => false,
    }
}

// The command that an event is, if its text is one.
#[tactic(auto, unfolding(ge_model_grammar::specs::Parsing::parsed))]
fn command_in_event(alloc: Global, e: &Event) -> Result<Option<Command>, AllocError>
    ensures { is_too_long e.now.text ≡ false
        → IfOk result (λ command. command ≡ event_command e.now.form e.now.text) }
{
    match e.form {
        Form::Good => match parse(alloc, &e.text) {
            Ok(command) => Ok(Some(command)),
            Err(Refusal::NoMemory) => Err(AllocError),
            Err(_) => Ok(None),
        },
        Form::BadHeader | Form::TooLong => Ok(None),
    }
}

fn plan_command(
    alloc: Global,
    c: &Cluster,
    e: &Event,
    command: &Command,
) -> Result<Planned, AllocError>
    ensures { IfOk result (λ planned. planned ≡ command_plan c.now e.now command.now) }
{
    match command {
        Command::Submit(options, words, script) => {
            plan_submission(alloc, c, e, options, words, script)
        }
        Command::Alter(options, numbers) => plan_alteration(alloc, c, e, options, numbers),
        Command::Delete(force, picks) => plan_deletion(alloc, c, e, *force, picks),
        Command::Hold(bits, numbers) => plan_hold(alloc, c, e, *bits, numbers),
        Command::Release(bits, numbers) => plan_release(alloc, c, e, *bits, numbers),
        Command::Clear(picks) => plan_clearing(alloc, c, e, picks),
        Command::Show(what) => plan_list(alloc, c, e, what),
        Command::Account(what) => plan_account(alloc, c, what),
        Command::Add(kind, text) => plan_addition(alloc, c, e, *kind, text),
        Command::Modify(kind, text) => plan_modification(alloc, c, e, *kind, text),
        Command::Remove(key) => plan_removal(alloc, c, e, key),
        Command::Print(key) => plan_print(alloc, c, key),
        Command::Load(host, pairs) => plan_load(alloc, c, e, host, pairs),
        Command::End(serial, exit, cpu, mem, io) => {
            plan_end(alloc, c, e, *serial, *exit, *cpu, *mem, *io)
        }
        Command::Sched => plan_run(alloc, c, e),
        Command::Orders(host) => plan_orders(alloc, c, e, host),
        Command::JobOf(serial) => plan_task(alloc, c, e, *serial),
        Command::Stop => plan_stop(alloc, c, e),
        Command::Book(options) => plan_booking(alloc, c, e, options),
        Command::Unbook(numbers) => plan_unbooking(alloc, c, e, numbers),
        Command::ShowBooked(one) => plan_show_booked(alloc, c, e, *one),
    }
}

fn plan_timely(
    alloc: Global,
    c: &Cluster,
    e: &Event,
    command: Option<&Command>,
) -> Result<Planned, AllocError>
    ensures { IfOk result (λ planned. planned ≡ timely_plan c.now e.now
        (option_copied command.entry)) }
{
    match command {
        None => refuse(alloc, Refusal::Syntax),
        Some(_) if e.moment < c.last => refuse(alloc, Refusal::TimeBack),
        Some(command) => plan_command(alloc, c, e, command),
    }
}

/// The plan of an event: its reply, the entry that it has where it is accepted and changes something, and whether it
/// stops the master. A refused event has one line and no entry.
#[tactic(auto, unfolding(ge_model_core::specs::Plan::plan_of))]
pub fn plan(alloc: Global, c: &Cluster, e: &Event) -> Result<Planned, AllocError>
    ensures { IfOk result (λ planned. planned ≡ plan_of c.now e.now) }
{
    if is_cut_short(e.form) || is_too_long_text(e.text.bytes()) {
        return refuse(alloc, Refusal::TooLong);
    }
    let command = command_in_event(alloc, e)?;
    plan_timely(alloc, c, e, command.as_ref())
}
