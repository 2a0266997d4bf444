//! A command as one line of a table.

use ge_rows::{Command, Key, Listing, ObjectKind, Options, Pick, Query, Text};
use ge_trials_rows::append_all;
use std::alloc::{AllocError, Global};

fn bracketed(line: &mut Text, words: &[Text]) -> Result<(), AllocError> {
    for word in words {
        append_all(line, &[b"(", word.bytes(), b")"])?;
    }
    Ok(())
}

fn options(line: &mut Text, options: &Options) -> Result<(), AllocError> {
    for (name, words) in options.items.items() {
        append_all(line, &[b" ", name.bytes()])?;
        bracketed(line, words.items())?;
    }
    Ok(())
}

fn number(alloc: Global, line: &mut Text, number: u64) -> Result<(), AllocError> {
    line.append(format!(in alloc; "{number}")?.as_bytes())
}

fn numbers(alloc: Global, line: &mut Text, values: &[u32]) -> Result<(), AllocError> {
    for value in values {
        line.append(b" ")?;
        number(alloc, line, u64::from(*value))?;
    }
    Ok(())
}

fn spans(alloc: Global, line: &mut Text, pick: &Pick) -> Result<(), AllocError> {
    if let Some(tasks) = &pick.tasks {
        line.append(b".")?;
        for span in tasks.spans() {
            let (first, last, step) = (span.first, span.last, span.step);
            line.append(format!(in alloc; "[{first}-{last}:{step}]")?.as_bytes())?;
        }
    }
    Ok(())
}

fn picks(alloc: Global, line: &mut Text, picks: &[Pick]) -> Result<(), AllocError> {
    for pick in picks {
        line.append(b" ")?;
        number(alloc, line, u64::from(pick.job))?;
        spans(alloc, line, pick)?;
    }
    Ok(())
}

fn kind(kind: ObjectKind) -> &'static [u8] {
    match kind {
        ObjectKind::Complexes => b"complexes",
        ObjectKind::Host => b"host",
        ObjectKind::Group => b"group",
        ObjectKind::Queue => b"queue",
        ObjectKind::Pe => b"pe",
        ObjectKind::Quota => b"quota",
        ObjectKind::Set => b"set",
        ObjectKind::User => b"user",
        ObjectKind::Project => b"project",
        ObjectKind::Shares => b"shares",
        ObjectKind::Sched => b"sched",
        ObjectKind::Managers => b"managers",
        ObjectKind::Operators => b"operators",
    }
}

fn key(line: &mut Text, key: &Key) -> Result<(), AllocError> {
    line.append(kind(key.kind))?;
    append_all(line, &[b" ", key.name.bytes()])
}

fn body(line: &mut Text, of: ObjectKind, text: &Text) -> Result<(), AllocError> {
    line.append(kind(of))?;
    append_all(line, &[b" |", text.bytes()])
}

fn listing(alloc: Global, line: &mut Text, listing: &Listing) -> Result<(), AllocError> {
    match listing {
        Listing::All(pattern) => append_all(line, &[b"jobs of ", pattern.bytes()]),
        Listing::One(job) => {
            line.append(b"job ")?;
            number(alloc, line, u64::from(*job))
        }
        Listing::Queues => line.append(b"queues"),
        Listing::Prios => line.append(b"priorities"),
    }
}

fn query(alloc: Global, line: &mut Text, query: &Query) -> Result<(), AllocError> {
    match query {
        Query::Total => line.append(b"sums"),
        Query::Owner(owner) => append_all(line, &[b"sums of ", owner.bytes()]),
        Query::Job(job) => {
            line.append(b"lines of ")?;
            number(alloc, line, u64::from(*job))
        }
    }
}

fn reports(line: &mut Text, reports: &[(Text, Text)]) -> Result<(), AllocError> {
    for (name, value) in reports {
        append_all(line, &[b" ", name.bytes(), b"(", value.bytes(), b")"])?;
    }
    Ok(())
}

fn submission(
    line: &mut Text,
    given: &Options,
    words: &[Text],
    script: &Text,
) -> Result<(), AllocError> {
    options(line, given)?;
    line.append(b" :")?;
    bracketed(line, words)?;
    append_all(line, &[b" |", script.bytes()])
}

fn alteration(
    alloc: Global,
    line: &mut Text,
    given: &Options,
    jobs: &[u32],
) -> Result<(), AllocError> {
    options(line, given)?;
    line.append(b" :")?;
    numbers(alloc, line, jobs)
}

fn holds(alloc: Global, line: &mut Text, bits: u8, jobs: &[u32]) -> Result<(), AllocError> {
    number(alloc, line, u64::from(bits))?;
    line.append(b" :")?;
    numbers(alloc, line, jobs)
}

fn ended(alloc: Global, line: &mut Text, values: &[u64]) -> Result<(), AllocError> {
    for value in values {
        line.append(b" ")?;
        number(alloc, line, *value)?;
    }
    Ok(())
}

fn booked(alloc: Global, line: &mut Text, of: Option<u32>) -> Result<(), AllocError> {
    match of {
        None => Ok(()),
        Some(of) => numbers(alloc, line, &[of]),
    }
}

// The first word of a command's line, with what stands between it and the rest.
fn verb(command: &Command) -> &'static [u8] {
    match command {
        Command::Submit(_, _, _) => b"submit",
        Command::Alter(_, _) => b"alter",
        Command::Delete(by_force, _) => { if *by_force { b"force" } else { b"delete" } }
        Command::Hold(_, _) => b"hold ",
        Command::Release(_, _) => b"release ",
        Command::Clear(_) => b"clear",
        Command::Show(_) | Command::Account(_) => b"",
        Command::Add(_, _) => b"add ",
        Command::Modify(_, _) => b"modify ",
        Command::Remove(_) => b"remove ",
        Command::Print(_) => b"print ",
        Command::Load(_, _) => b"load ",
        Command::End(_, _, _, _, _) => b"end",
        Command::Sched => b"run",
        Command::Orders(_) => b"orders ",
        Command::JobOf(_) => b"dispatch ",
        Command::Stop => b"stop",
        Command::Book(_) => b"book",
        Command::Unbook(_) => b"unbook",
        Command::ShowBooked(_) => b"booked",
    }
}

/// A command as one line: its verb, and what it has.
pub(crate) fn rendered(alloc: Global, command: &Command) -> Result<Text, AllocError> {
    let mut line = Text::from_bytes(alloc, verb(command))?;
    match command {
        Command::Submit(given, words, script) => {
            submission(&mut line, given, words.items(), script)?;
        }
        Command::Alter(given, jobs) => alteration(alloc, &mut line, given, jobs.items())?,
        Command::Delete(_, targets) | Command::Clear(targets) => {
            picks(alloc, &mut line, targets.items())?;
        }
        Command::Hold(bits, jobs) | Command::Release(bits, jobs) => {
            holds(alloc, &mut line, *bits, jobs.items())?;
        }
        Command::Show(of) => listing(alloc, &mut line, of)?,
        Command::Account(of) => query(alloc, &mut line, of)?,
        Command::Add(of, text) | Command::Modify(of, text) => body(&mut line, *of, text)?,
        Command::Remove(of) | Command::Print(of) => key(&mut line, of)?,
        Command::Load(host, values) => {
            line.append(host.bytes())?;
            reports(&mut line, values.items())?;
        }
        Command::End(serial, exit, cpu, mem, io) => {
            ended(alloc, &mut line, &[*serial, *exit, *cpu, *mem, *io])?;
        }
        Command::Orders(host) => line.append(host.bytes())?,
        Command::JobOf(serial) => number(alloc, &mut line, *serial)?,
        Command::Book(given) => options(&mut line, given)?,
        Command::Unbook(of) => numbers(alloc, &mut line, of.items())?,
        Command::ShowBooked(of) => booked(alloc, &mut line, *of)?,
        Command::Sched | Command::Stop => {}
    }
    Ok(line)
}
