// The steps of a world.
ghost use Rattle.std.specs.Prelude.{◌≡◌, ◌++◌, OnOk};
ghost use Rattle.std.specs.List.{slice_get};
ghost use Rattle.ge_model_world.specs.Worlds.{arrival_event, asking, handling, sent_for, step_of, stopping};
ghost use Rattle.ge_world_laws.specs.Product.{product};

use crate::acting::{act, daemon_at, send};
use crate::arriving::{arriving_event, event_of_orders, report_at};
use crate::entering::handle_event;
use ge_core::plan;
use ge_model_world::{Arrival, Message, Step, World};
use ge_rows::Reply;
use std::alloc::{AllocError, Global};

// Sends the reply to what came to the master: the reply to a report goes to its daemon.
fn send_reply(w: &mut World, x: &Arrival, reply: Reply) -> Result<(), AllocError>
    ensures { OnOk result (w.new
        ≡ record w.old { sent = w.old.sent ++ sent_for w.old.reports x.now reply }) }
{
    match x {
        Arrival::Command(_) => Ok(()),
        Arrival::Report(place, _) => match report_at(w.reports.items(), *place) {
            Some(report) => {
                let answer = Message::Answer(report.serial, reply);
                w.sent.push((report.daemon, answer))
            }
            None => Ok(()),
        },
    }
}

/// The master handles what comes to it.
pub fn handle_arrival(alloc: Global, w: &mut World, x: &Arrival) -> Result<(), AllocError>
    ensures { OnOk result (w.new
        ≡ handling product w.old x.now (arrival_event product w.old.reports x.now)) }
{
    let Some(event) = arriving_event(alloc, w.reports.items(), x)? else {
        return Ok(());
    };
    let reply = handle_event(alloc, w, &event)?;
    send_reply(w, x, reply)
}

/// The master stops while it handles what comes to it, when its change is kept, and opens again.
pub fn stop_in_arrival(alloc: Global, w: &mut World, x: &Arrival) -> Result<(), AllocError>
    ensures { OnOk result (w.new
        ≡ stopping product w.old (arrival_event product w.old.reports x.now)) }
{
    let Some(event) = arriving_event(alloc, w.reports.items(), x)? else {
        return Ok(());
    };
    handle_event(alloc, w, &event)?;
    Ok(())
}

// The daemon at a place asks for orders, if there is one.
fn ask(alloc: Global, w: &mut World, place: u32, moment: u64) -> Result<(), AllocError>
    ensures { OnOk result (w.new
        ≡ asking product w.old place moment (slice_get w.old.daemons place)) }
{
    let Some(d) = daemon_at(w.daemons.items(), place) else {
        return Ok(());
    };
    let event = event_of_orders(alloc, moment, &d.host)?;
    let (_entry, reply, _stop) = plan(alloc, &w.cluster, &event)?.into_parts();
    w.sent.push((place, Message::Orders(reply)))
}

/// The world after a step. After want of memory it is given up.
pub fn take_step(alloc: Global, w: &mut World, s: &Step) -> Result<(), AllocError>
    ensures { OnOk result (w.new ≡ step_of product w.old s.now) }
{
    match s {
        Step::Handle(x) => handle_arrival(alloc, w, x),
        Step::Stop(x, true) => stop_in_arrival(alloc, w, x),
        Step::Stop(_, false) => Ok(()),
        Step::Ask(place, moment) => ask(alloc, w, *place, *moment),
        Step::Daemon(place, what) => act(alloc, w, *place, *what, None),
        Step::Send(place, serial) => send(w, *place, *serial),
        Step::Cut(place, what, true, starts) => act(alloc, w, *place, *what, Some(*starts)),
        Step::Cut(_, _, false, _) => Ok(()),
    }
}
