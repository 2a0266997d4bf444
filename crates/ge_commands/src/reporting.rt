//! What daemons send and ask: load, end, orders, job; and a scheduling run.

ghost use Rattle.std.specs.Prelude.{◌≡◌};
ghost use Rattle.ge_model_grammar.specs.Commands.{load_command, end_with, end_command, orders_command, dispatch_command, sched_command};
ghost use Rattle.ge_pieces.specs.Gives.{Gives};
ghost use Rattle.ge_commands.specs.Lent.{texts};

use crate::items::{Report, WideNumber, each_of, number_of_64_bits};
use ge_pieces::{ReadFault, is_a_name};
use ge_rows::{Command, Text};
use std::alloc::Global;

/// load: a host and its report.
#[tactic(auto, unfolding(ge_model_grammar::specs::Commands::load_command))]
pub(crate) fn read_load(alloc: Global, words: &[&[u8]]) -> Result<Command, ReadFault>
    ensures { Gives result (load_command (texts words.now)) }
{
    match words {
        [] | [_] => Err(ReadFault::Syntax),
        [host, reports @ ..] => {
            if !is_a_name(host) {
                return Err(ReadFault::Syntax);
            }
            let reports = each_of(alloc, &Report, reports)?;
            Ok(Command::Load(Text::from_bytes(alloc, host)?, reports))
        }
    }
}

fn end_of_numbers(numbers: &[u64]) -> Result<Command, ReadFault>
    ensures { Gives result (end_with numbers.now) }
{
    match numbers {
        [serial, exit, cpu, mem, io] => Ok(Command::End(*serial, *exit, *cpu, *mem, *io)),
        _ => Err(ReadFault::Syntax),
    }
}

/// end: serial, exit status, cpu, mem and io. Five words are read without a list.
#[tactic(auto, unfolding(ge_model_grammar::specs::Commands::end_command))]
pub(crate) fn read_end(alloc: Global, words: &[&[u8]]) -> Result<Command, ReadFault>
    ensures { Gives result (end_command (texts words.now)) }
{
    match words {
        [serial, exit, cpu, mem, io] => {
            let serial = number_of_64_bits(serial)?;
            let exit = number_of_64_bits(exit)?;
            let cpu = number_of_64_bits(cpu)?;
            let mem = number_of_64_bits(mem)?;
            let io = number_of_64_bits(io)?;
            Ok(Command::End(serial, exit, cpu, mem, io))
        }
        _ => {
            let numbers = each_of(alloc, &WideNumber, words)?;
            end_of_numbers(numbers.items())
        }
    }
}

/// orders: a host.
#[tactic(auto, unfolding(ge_model_grammar::specs::Commands::orders_command))]
pub(crate) fn read_orders(alloc: Global, words: &[&[u8]]) -> Result<Command, ReadFault>
    ensures { Gives result (orders_command (texts words.now)) }
{
    match words {
        [host] => {
            if !is_a_name(host) {
                return Err(ReadFault::Syntax);
            }
            Ok(Command::Orders(Text::from_bytes(alloc, host)?))
        }
        _ => Err(ReadFault::Syntax),
    }
}

/// job: a serial.
#[tactic(auto, unfolding(ge_model_grammar::specs::Commands::dispatch_command))]
pub(crate) fn read_dispatch(words: &[&[u8]]) -> Result<Command, ReadFault>
    ensures { Gives result (dispatch_command (texts words.now)) }
{
    match words {
        [serial] => Ok(Command::JobOf(number_of_64_bits(serial)?)),
        _ => Err(ReadFault::Syntax),
    }
}

/// sched: a scheduling run.
pub(crate) fn read_run(words: &[&[u8]]) -> Result<Command, ReadFault>
    ensures { Gives result (sched_command (texts words.now)) }
{
    if words.is_empty() {
        Ok(Command::Sched)
    } else {
        Err(ReadFault::Syntax)
    }
}
