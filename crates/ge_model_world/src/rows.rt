// What a world keeps, and what can happen in it.
ghost use Rattle.std.specs.Prelude.{◌≡◌, IfOk};

use ge_execd::Daemon;
use ge_rows::{Cluster, Event, List, Reply, Twin};
use std::alloc::{AllocError, Global};

fn same_reply(alloc: Global, reply: &Reply) -> Result<Reply, AllocError>
    ensures { IfOk result (λ twin. twin ≡ reply.now) }
{
    let lines = reply.lines.twin(alloc)?;
    Ok(Reply {
        code: reply.code,
        lines,
    })
}

/// What the master sends to a daemon.
pub enum Message {
    /// The reply to `orders`.
    Orders(Reply),
    /// The reply to the report of a serial.
    Answer(u64, Reply),
}

// By hand, so that a caller's proofs see one call.
impl Drop for Message {
    fn drop(self) {
        match self {
            Message::Orders(reply) => drop(reply),
            Message::Answer(_, reply) => drop(reply),
        }
    }
}

impl Twin for Message {
    fn twin(&self, alloc: Global) -> Result<Message, AllocError> {
        match self {
            Message::Orders(reply) => {
                let reply = same_reply(alloc, reply)?;
                Ok(Message::Orders(reply))
            }
            Message::Answer(serial, reply) => {
                let reply = same_reply(alloc, reply)?;
                Ok(Message::Answer(*serial, reply))
            }
        }
    }
}

/// A report that a daemon sent: how the task of a serial ended.
#[derive(Clone, Copy)]
pub struct Report {
    /// The daemon's place.
    pub daemon: u32,
    /// The serial.
    pub serial: u64,
    /// The exit.
    pub exit: u32,
    /// Processor time.
    pub cpu: u64,
    /// Memory.
    pub mem: u64,
    /// Input and output.
    pub io: u64,
}

impl Twin for Report {
    fn twin(&self, _alloc: Global) -> Result<Report, AllocError> {
        Ok(*self)
    }
}

/// How a serial was accounted.
#[derive(Clone, Copy)]
pub enum Finished {
    /// By a report: the serial, and the place of its accounting line.
    Reported(u64, u64),
    /// By a deletion by force: the serial.
    Forced(u64),
}

impl Twin for Finished {
    fn twin(&self, _alloc: Global) -> Result<Finished, AllocError> {
        Ok(*self)
    }
}

/// The master, its daemons, and what they sent, started and accounted. Places count from 0.
pub struct World {
    /// What the master keeps.
    pub cluster: Cluster,
    /// The daemons, one for each host.
    pub daemons: List<Daemon>,
    /// All messages to daemons, each with the daemon's place.
    pub sent: List<(u32, Message)>,
    /// All reports.
    pub reports: List<Report>,
    /// All starts: the daemon's place, and the serial.
    pub started: List<(u32, u64)>,
    /// All that was accounted.
    pub finished: List<Finished>,
}

impl Drop for World {
    fn drop(self) {
        let World {
            cluster: _,
            daemons: _,
            sent: _,
            reports: _,
            started: _,
            finished: _,
        } = self;
    }
}

/// What comes to the master.
#[derive(Drop)]
pub enum Arrival {
    /// A request of a user.
    Command(Event),
    /// The report at a place, at a moment.
    Report(u64, u64),
}

/// What a daemon does.
#[derive(Clone, Copy)]
pub enum Act {
    /// It takes the message at a place, if that was sent to it.
    Deliver(u64),
    /// The task of a serial ends: exit, cpu, mem and io.
    Finish(u64, u32, u64, u64, u64),
}

/// What happens in a world. A step that names something that isn't there does nothing.
#[derive(Drop)]
pub enum Step {
    /// The master handles what comes.
    Handle(Arrival),
    /// The master stops while it handles what comes, before its change is kept or after, and opens again. It answers nothing.
    Stop(Arrival, bool),
    /// The daemon at a place asks for orders, at a moment.
    Ask(u32, u64),
    /// The daemon at a place acts.
    Daemon(u32, Act),
    /// The daemon at a place sends the report of the end that it keeps of a serial.
    Send(u32, u64),
    /// The daemon at a place stops inside an act, before its new state is kept or after, and opens again. Where it is kept, the
    /// first of the act's starts were made, so many as the number says.
    Cut(u32, Act, bool, u64),
}
