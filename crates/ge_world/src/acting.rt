// What daemons do.
ghost use Rattle.std.specs.Prelude.{◌≡◌, ◌++◌, IfOk, OnOk, map, option_copied};
ghost use Rattle.std.specs.List.{slice_get};
ghost use Rattle.ge_model_world.specs.Worlds.{acted, acting, cut_short, delivered, order_serial, report_of, sending, starts_at, taking};

use ge_execd::{Daemon, Order, Stage, WorkFault, can_end};
use ge_model_world::{Act, Message, Report, World};
use ge_rows::{List, Text};
use std::alloc::{AllocError, Global};

fn serials_of(alloc: Global, orders: &[Order]) -> Result<List<u64>, AllocError>
    ensures { IfOk result (λ serials. serials ≡ map order_serial orders.now) }
{
    let mut serials = List::new(alloc);
    for order in orders {
        serials.push(order.serial)?;
    }
    Ok(serials)
}

// A daemon takes a message: the serials that it starts.
fn take(alloc: Global, d: &mut Daemon, message: &Message) -> Result<List<u64>, AllocError>
    ensures daemon { OnOk result (d.new ≡ (taking d.old message.now).0) }
    ensures starts { IfOk result (λ serials. serials ≡ (taking d.old message.now).1) }
{
    match message {
        Message::Orders(reply) => match d.orders(alloc, reply) {
            Ok(work) => serials_of(alloc, work.starts.items()),
            Err(WorkFault::Refused(_)) => Ok(List::new(alloc)),
            Err(WorkFault::Bad(_)) => Ok(List::new(alloc)),
            Err(WorkFault::NoMemory) => Err(AllocError),
        },
        Message::Answer(serial, reply) => {
            d.answered(*serial, reply);
            Ok(List::new(alloc))
        }
    }
}

// A daemon takes what may be a message, if that was sent to it.
fn deliver(
    alloc: Global,
    place: u32,
    d: &mut Daemon,
    sent: Option<&(u32, Message)>,
) -> Result<List<u64>, AllocError>
    ensures daemon { OnOk result (d.new ≡ (delivered place d.old (option_copied sent.entry)).0) }
    ensures starts { IfOk result (λ serials. serials
        ≡ (delivered place d.old (option_copied sent.entry)).1) }
{
    match sent {
        Some((to, message)) => {
            if *to == place {
                take(alloc, d, message)
            } else {
                Ok(List::new(alloc))
            }
        }
        None => Ok(List::new(alloc)),
    }
}

fn message_at(sent: &[(u32, Message)], place: u64) -> Option<&(u32, Message)>
    ensures { option_copied result ≡ slice_get sent.now place }
{
    sent.get(place as usize)
}

// A daemon acts: the serials that it starts.
fn act_alone(
    alloc: Global,
    sent: &[(u32, Message)],
    place: u32,
    d: &mut Daemon,
    act: Act,
) -> Result<List<u64>, AllocError>
    ensures daemon { OnOk result (d.new ≡ (acted sent.now place d.old act).0) }
    ensures starts { IfOk result (λ serials. serials ≡ (acted sent.now place d.old act).1) }
{
    match act {
        Act::Deliver(k) => deliver(alloc, place, d, message_at(sent, k)),
        Act::Finish(serial, exit, cpu, mem, io) => {
            if can_end(exit, cpu, mem, io) {
                d.ended(serial, exit, cpu, mem, io);
            }
            Ok(List::new(alloc))
        }
    }
}

// A daemon acts, and stops in that act where at most a number of starts is made: the serials that it starts.
fn act_or_stop(
    alloc: Global,
    sent: &[(u32, Message)],
    place: u32,
    d: &mut Daemon,
    act: Act,
    most: Option<u64>,
) -> Result<List<u64>, AllocError>
    ensures daemon { OnOk result (d.new
        ≡ (cut_short most (acted sent.now place d.old act)).0) }
    ensures starts { IfOk result (λ serials. serials
        ≡ (cut_short most (acted sent.now place d.old act)).1) }
{
    let mut serials = act_alone(alloc, sent, place, d, act)?;
    if let Some(most) = most {
        serials.truncate(most as usize);
    }
    Ok(serials)
}

// Notes serials as started by the daemon at a place.
fn note_starts(
    started: &mut List<(u32, u64)>,
    place: u32,
    serials: &[u64],
) -> Result<(), AllocError>
    ensures { OnOk result (started.new ≡ started.old ++ starts_at place serials.now) }
{
    for serial in serials {
        started.push((place, *serial))?;
    }
    Ok(())
}

/// The daemon at a place acts, if there is one, and stops in that act where at most a number of starts is made. It is taken
/// out of the list meanwhile.
pub(crate) fn act(
    alloc: Global,
    w: &mut World,
    place: u32,
    act: Act,
    most: Option<u64>,
) -> Result<(), AllocError>
    ensures { OnOk result (w.new
        ≡ acting w.old place act most (slice_get w.old.daemons place)) }
{
    let at = place as usize;
    if at >= w.daemons.len() {
        return Ok(());
    }
    let mut d = w.daemons.replace(at, Daemon::new(alloc, Text::new(alloc)));
    let serials = act_or_stop(alloc, w.sent.items(), place, &mut d, act, most)?;
    w.daemons.replace(at, d);
    note_starts(&mut w.started, place, serials.items())?;
    Ok(())
}

/// The daemon at a place, if there is one.
pub(crate) fn daemon_at(daemons: &[Daemon], place: u32) -> Option<&Daemon>
    ensures { option_copied result ≡ slice_get daemons.now place }
{
    daemons.get(place as usize)
}

// Puts the report of a kept end behind others.
fn put_report(
    reports: &mut List<Report>,
    daemon: u32,
    serial: u64,
    stage: Option<&Stage>,
) -> Result<(), AllocError>
    ensures { OnOk result (reports.new
        ≡ reports.old ++ report_of daemon serial (option_copied stage.entry)) }
{
    match stage {
        Some(Stage::Ended(exit, cpu, mem, io)) => reports.push(Report {
            daemon,
            serial,
            exit: *exit,
            cpu: *cpu,
            mem: *mem,
            io: *io,
        }),
        Some(Stage::Claimed) => Ok(()),
        None => Ok(()),
    }
}

/// The daemon at a place sends the report of the end that it keeps of a serial, if there is one.
pub(crate) fn send(w: &mut World, place: u32, serial: u64) -> Result<(), AllocError>
    ensures { OnOk result (w.new ≡ sending w.old place serial (slice_get w.old.daemons place)) }
{
    let Some(d) = daemon_at(w.daemons.items(), place) else {
        return Ok(());
    };
    put_report(&mut w.reports, place, serial, d.tasks.get(&serial))
}
