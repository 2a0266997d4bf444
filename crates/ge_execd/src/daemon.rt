// A daemon.
ghost use Rattle.std.specs.Prelude.{◌≡◌, ◌&&◌, true, IfOk, option_copied};
ghost use Rattle.ge_collections.specs.Keyed.{at_number};
ghost use Rattle.ge_execd.specs.declared.rows.Stage.TheVariants.{Ended};
ghost use Rattle.ge_execd.specs.Orders.{orders_in};
ghost use Rattle.ge_execd.specs.Daemons.{is_amount as is_amount_below, may_end, end_with, is_claimed as is_claimed_stage, is_ended as is_ended_stage, settles, after_end, after_answer, new_daemon, end_text, report_text};
ghost use Rattle.ge_execd.specs.Shows.{Obeys};

use crate::obeying::{all_kills, all_starts, is_claimed, seen_after, tasks_after};
use crate::reading::read_orders;
use crate::rows::{Stage, Work, WorkFault};
use ge_collections::Edit;
use ge_limits::AMOUNTS;
use ge_printing::{Column, join_columns};
use ge_rows::{Reply, Table, Text, Twin, twins2};
use std::alloc::{AllocError, Global};

/// An execution daemon.
#[derive(Drop)]
pub struct Daemon {
    /// Its host.
    pub host: Text,
    /// The greatest serial that was named to it, 0 before the first. A task starts only above it, so none starts twice.
    pub seen: u64,
    /// What it keeps of serials.
    pub tasks: Table<u64, Stage>,
}

impl Twin for Daemon {
    fn twin(&self, alloc: Global) -> Result<Daemon, AllocError> {
        let (host, tasks) = twins2(alloc, &self.host, &self.tasks)?;
        Ok(Daemon {
            host,
            seen: self.seen,
            tasks,
        })
    }
}

// A claimed task ends; one that ended stays so.
#[derive(Clone, Copy)]
struct Ending {
    end: Stage,
}

impl Edit<Stage> for Ending {
    ghost edited = { λ e stage. end_with e.end stage };

    fn edit(&self, stage: &mut Stage) {
        if is_claimed(Some(&*stage)) {
            *stage = self.end;
        }
    }
}

fn is_amount(n: u64) -> bool
    ensures { result ≡ is_amount_below n }
{
    n < AMOUNTS
}

/// Whether these can be the exit and the amounts of an end: the exit is at most 255, and each amount is below 2^48.
pub fn can_end(exit: u32, cpu: u64, mem: u64, io: u64) -> bool
    ensures { result ≡ may_end exit cpu mem io }
{
    exit <= 255 && is_amount(cpu) && is_amount(mem) && is_amount(io)
}

fn is_ended(stage: Option<&Stage>) -> bool
    ensures { result ≡ is_ended_stage (option_copied stage.entry) }
{
    match stage {
        Some(Stage::Claimed) => false,
        Some(Stage::Ended(_, _, _, _)) => true,
        None => false,
    }
}

/// The request `end SERIAL EXIT CPU MEM IO`, by which an end is reported.
pub fn end_line(
    alloc: Global,
    serial: u64,
    exit: u32,
    cpu: u64,
    mem: u64,
    io: u64,
) -> Result<Text, AllocError>
    ensures { IfOk result (λ text. text ≡ end_text serial exit cpu mem io) }
{
    let columns = [
        Column::Word(b"end"),
        Column::Number(u128::from(serial)),
        Column::Number(u128::from(exit)),
        Column::Number(u128::from(cpu)),
        Column::Number(u128::from(mem)),
        Column::Number(u128::from(io)),
    ];
    join_columns(alloc, &columns)
}

fn is_settled(code: u8) -> bool
    ensures { result ≡ settles code }
{
    code == 0 || code == 22
}

impl Daemon {
    /// A daemon of a host, before its first message.
    pub fn new(alloc: Global, host: Text) -> Daemon
        ensures { result ≡ new_daemon host }
    {
        Daemon {
            host,
            seen: 0,
            tasks: Table::new(alloc),
        }
    }

    /// Obeys the master's reply to `orders`: what is to be started and killed. A fault leaves the daemon as it was.
    pub fn orders(&mut self, alloc: Global, reply: &Reply) -> Result<Work, WorkFault>
        ensures { Obeys result (orders_in reply.now) self.old self.new }
    {
        let lines = read_orders(alloc, reply)?;
        let starts = all_starts(alloc, self.seen, lines.items())?;
        let kills = all_kills(alloc, self.seen, &self.tasks, lines.items())?;
        let tasks = tasks_after(alloc, self.seen, &self.tasks, lines.items())?;
        self.seen = seen_after(self.seen, lines.items());
        self.tasks = tasks;
        Ok(Work { starts, kills })
    }

    /// Keeps the end of the task of a claimed serial, and tells whether the serial was claimed. It takes no memory.
    pub fn ended(&mut self, serial: u64, exit: u32, cpu: u64, mem: u64, io: u64) -> bool
        requires { may_end exit cpu mem io ≡ true }
        ensures was { result ≡ is_claimed_stage (at_number self.old.tasks serial) }
        ensures kept { self.new ≡ after_end self.old serial (Ended exit cpu mem io) }
    {
        let was = is_claimed(self.tasks.get(&serial));
        let end = Stage::Ended(exit, cpu, mem, io);
        self.tasks.change(&serial, &Ending { end });
        was
    }

    /// The text that reports the kept end of a serial, where there is one.
    pub fn report(&self, alloc: Global, serial: u64) -> Result<Option<Text>, AllocError>
        ensures { IfOk result (λ text. text ≡ report_text serial (at_number self.now.tasks serial)) }
    {
        match self.tasks.get(&serial) {
            Some(Stage::Ended(exit, cpu, mem, io)) => {
                let text = end_line(alloc, serial, *exit, *cpu, *mem, *io)?;
                Ok(Some(text))
            }
            Some(Stage::Claimed) => Ok(None),
            None => Ok(None),
        }
    }

    /// Whether an answer settles the report of a kept end, which is forgotten then.
    pub fn is_settled_by(&self, serial: u64, reply: &Reply) -> bool
        ensures { result ≡ (settles reply.now.code && is_ended_stage (at_number self.now.tasks serial)) }
    {
        is_settled(reply.code) && is_ended(self.tasks.get(&serial))
    }

    /// Forgets the kept end of a serial where the master's answer to its report has the code 0 or 22, and else does
    /// nothing. It takes no memory.
    pub fn answered(&mut self, serial: u64, reply: &Reply)
        ensures { self.new ≡ after_answer self.old serial reply.now }
    {
        if self.is_settled_by(serial, reply) {
            self.tasks.remove(&serial);
        }
    }
}
