//! The world of a master and its execution daemons: steps as text, and what becomes of it.

use ge_execd::{Daemon, Stage};
use ge_model_world::{Act, Arrival, Finished, Message, Report, Step, World};
use ge_pieces::{before, behind, behind_word, digits_worth, first_word, is_in, is_word, slices_at};
use ge_printing::append_decimal;
use ge_rows::{Event, Form, List, Text};
use ge_world::{new_world, take_step};
use std::alloc::{AllocError, Global};

// The first number of a text, and what stands behind it.
fn number(text: &[u8]) -> (u64, &[u8]) {
    (digits_worth(first_word(text)), behind_word(text))
}

fn place(number: u64) -> u32 {
    u32::try_from(number).unwrap_or(u32::MAX)
}

// A text in which each bar stands for a line feed.
fn with_line_feeds(alloc: Global, text: &[u8]) -> Result<Text, AllocError> {
    let mut bytes = Vec::new(alloc);
    for byte in text {
        bytes.push(if *byte == b'|' { b'\n' } else { *byte })?;
    }
    Ok(Text::from_vec(bytes))
}

// `MOMENT USER GROUP TEXT`.
fn event(alloc: Global, line: &[u8]) -> Result<Event, AllocError> {
    let (moment, rest) = number(line);
    let behind_user = behind_word(rest);
    let user = Text::from_bytes(alloc, first_word(rest))?;
    let group = Text::from_bytes(alloc, first_word(behind_user))?;
    let text = with_line_feeds(alloc, behind_word(behind_user))?;
    Ok(Event {
        moment,
        user,
        group,
        text,
        form: Form::Good,
    })
}

// `PLACE MOMENT` of a report, or else the event of a request.
fn arrival(alloc: Global, is_report: bool, text: &[u8]) -> Result<Arrival, AllocError> {
    if is_report {
        let (report, rest) = number(text);
        Ok(Arrival::Report(report, number(rest).0))
    } else {
        Ok(Arrival::Command(event(alloc, text)?))
    }
}

// `SERIAL EXIT CPU MEM IO`.
fn finish(text: &[u8]) -> Act {
    let (serial, rest) = number(text);
    let (exit, rest) = number(rest);
    let (cpu, rest) = number(rest);
    let (mem, rest) = number(rest);
    Act::Finish(serial, place(exit), cpu, mem, number(rest).0)
}

// `PLACE` of `deliver`, or else what `finish` has.
fn act_of(sort: &[u8], text: &[u8]) -> Act {
    if is_word(sort, b"deliver") {
        Act::Deliver(number(text).0)
    } else {
        finish(text)
    }
}

// `DONE STARTS ACT ..`.
fn cut(daemon: u32, text: &[u8]) -> Step {
    let (done, rest) = number(text);
    let (starts, rest) = number(rest);
    let act = act_of(first_word(rest), behind_word(rest));
    Step::Cut(daemon, act, done == 1, starts)
}

fn daemon_step(sort: &[u8], daemon: u32, text: &[u8]) -> Step {
    if is_word(sort, b"ask") {
        Step::Ask(daemon, number(text).0)
    } else if is_word(sort, b"send") {
        Step::Send(daemon, number(text).0)
    } else if is_word(sort, b"cut") {
        cut(daemon, text)
    } else {
        Step::Daemon(daemon, act_of(sort, text))
    }
}

fn step(alloc: Global, line: &[u8]) -> Result<Step, AllocError> {
    let (sort, rest) = (first_word(line), behind_word(line));
    let (first, others) = number(rest);
    if is_in(sort, &[b"handle", b"report"]) {
        let x = arrival(alloc, is_word(sort, b"report"), rest)?;
        Ok(Step::Handle(x))
    } else if is_in(sort, &[b"stop", b"stopreport"]) {
        let x = arrival(alloc, is_word(sort, b"stopreport"), others)?;
        Ok(Step::Stop(x, first == 1))
    } else {
        Ok(daemon_step(sort, place(first), others))
    }
}

fn take_line(alloc: Global, w: &mut World, line: &[u8]) -> Result<(), AllocError> {
    let step = step(alloc, line)?;
    take_step(alloc, w, &step)
}

fn push_number(text: &mut Vec<u8>, lead: u8, number: u64) -> Result<(), AllocError> {
    text.push(lead)?;
    append_decimal(text, u128::from(number))
}

fn push_pair(text: &mut Vec<u8>, first: u64, between: u8, second: u64) -> Result<(), AllocError> {
    push_number(text, b' ', first)?;
    push_number(text, between, second)
}

fn push_started(text: &mut Vec<u8>, started: &[(u32, u64)]) -> Result<(), AllocError> {
    text.extend_from_slice(b"started")?;
    for (daemon, serial) in started {
        push_pair(text, u64::from(*daemon), b'.', *serial)?;
    }
    Ok(())
}

fn push_finish(text: &mut Vec<u8>, finished: Finished) -> Result<(), AllocError> {
    match finished {
        Finished::Reported(serial, line) => push_pair(text, serial, b'@', line),
        Finished::Forced(serial) => {
            push_number(text, b' ', serial)?;
            text.extend_from_slice(b"!")
        }
    }
}

fn push_finished(text: &mut Vec<u8>, finished: &[Finished]) -> Result<(), AllocError> {
    text.extend_from_slice(b"\nfinished")?;
    for one in finished {
        push_finish(text, *one)?;
    }
    Ok(())
}

fn code_of(message: &Message) -> u8 {
    match message {
        Message::Orders(reply) => reply.code,
        Message::Answer(_, reply) => reply.code,
    }
}

fn push_sent(text: &mut Vec<u8>, sent: &[(u32, Message)]) -> Result<(), AllocError> {
    text.extend_from_slice(b"\nsent")?;
    for (daemon, message) in sent {
        push_pair(text, u64::from(*daemon), b':', u64::from(code_of(message)))?;
    }
    Ok(())
}

// `E.C.M.I`.
fn push_end(text: &mut Vec<u8>, lead: u8, end: (u32, u64, u64, u64)) -> Result<(), AllocError> {
    push_number(text, lead, u64::from(end.0))?;
    push_number(text, b'.', end.1)?;
    push_number(text, b'.', end.2)?;
    push_number(text, b'.', end.3)
}

fn push_reports(text: &mut Vec<u8>, reports: &[Report]) -> Result<(), AllocError> {
    text.extend_from_slice(b"\nreports")?;
    for r in reports {
        push_pair(text, u64::from(r.daemon), b'.', r.serial)?;
        push_end(text, b'.', (r.exit, r.cpu, r.mem, r.io))?;
    }
    Ok(())
}

fn push_stage(text: &mut Vec<u8>, stage: Stage) -> Result<(), AllocError> {
    match stage {
        Stage::Claimed => text.extend_from_slice(b"=c"),
        Stage::Ended(exit, cpu, mem, io) => push_end(text, b'=', (exit, cpu, mem, io)),
    }
}

fn push_daemon(text: &mut Vec<u8>, daemon: &Daemon) -> Result<(), AllocError> {
    text.extend_from_slice(b"\ndaemon")?;
    push_number(text, b' ', daemon.seen)?;
    for (serial, stage) in daemon.tasks.iter() {
        push_number(text, b' ', *serial)?;
        push_stage(text, *stage)?;
    }
    Ok(())
}

fn push_daemons(text: &mut Vec<u8>, daemons: &[Daemon]) -> Result<(), AllocError> {
    for daemon in daemons {
        push_daemon(text, daemon)?;
    }
    Ok(())
}

// What became of a world.
fn world_text(alloc: Global, w: &World) -> Result<Vec<u8>, AllocError> {
    let mut text = Vec::new(alloc);
    push_started(&mut text, w.started.items())?;
    push_finished(&mut text, w.finished.items())?;
    push_sent(&mut text, w.sent.items())?;
    push_reports(&mut text, w.reports.items())?;
    push_daemons(&mut text, w.daemons.items())?;
    text.extend_from_slice(b"\nlines")?;
    push_number(&mut text, b' ', w.cluster.lines.len() as u64)?;
    text.push(b'\n')?;
    Ok(text)
}

fn hosts_of(alloc: Global, line: &[u8]) -> Result<List<Text>, AllocError> {
    let mut hosts = List::new(alloc);
    for host in slices_at(alloc, b' ', line)?.as_slice() {
        hosts.push(Text::from_bytes(alloc, host)?)?;
    }
    Ok(hosts)
}

/// A page `world`: a line of hosts, and then a line for each step, as `handle MOMENT USER GROUP TEXT` (a bar in the text stands for
/// a line feed), `stop DONE MOMENT USER GROUP TEXT`, `report PLACE MOMENT`, `stopreport DONE PLACE MOMENT`, `ask DAEMON MOMENT`,
/// `deliver DAEMON PLACE`, `finish DAEMON SERIAL EXIT CPU MEM IO`, `send DAEMON SERIAL`, `cut DAEMON DONE STARTS deliver PLACE` and
/// `cut DAEMON DONE STARTS finish SERIAL EXIT CPU MEM IO`. It tells what was started, accounted, sent and reported, what each daemon
/// keeps, and how many accounting lines there are.
pub(crate) fn world_page(alloc: Global, body: &[u8]) -> Result<Vec<u8>, AllocError> {
    let hosts = hosts_of(alloc, before(b'\n', body))?;
    let mut w = new_world(alloc, &hosts)?;
    for line in slices_at(alloc, b'\n', behind(b'\n', body))?.as_slice() {
        take_line(alloc, &mut w, line)?;
    }
    world_text(alloc, &w)
}
