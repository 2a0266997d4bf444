//! The commands that show something: qstat, qacct, qrstat.

ghost use Rattle.std.specs.Prelude.{◌≡◌, IfOk};
ghost use Rattle.ge_model_grammar.specs.Commands.{show_command, account_command, show_booked_command};
ghost use Rattle.ge_pieces.specs.Gives.{Gives};
ghost use Rattle.ge_commands.specs.Lent.{texts};

use crate::items::job_number;
use ge_pieces::{ReadFault, is_a_name, is_word};
use ge_rows::{Command, Listing, Query, Text};
use std::alloc::{AllocError, Global};

fn jobs_of_owners(alloc: Global, pattern: &[u8]) -> Result<Command, AllocError>
    ensures { IfOk result (λ command. command ≡ Command.Show (Listing.All pattern.now)) }
{
    Ok(Command::Show(Listing::All(Text::from_bytes(alloc, pattern)?)))
}

/// qstat: jobs of all owners or of those that -u names, -j one job, -f instances, -pri priorities.
#[tactic(auto, unfolding(ge_model_grammar::specs::Commands::show_command))]
pub(crate) fn read_showing(alloc: Global, words: &[&[u8]]) -> Result<Command, ReadFault>
    ensures { Gives result (show_command (texts words.now)) }
{
    match words {
        [] => Ok(jobs_of_owners(alloc, b"*")?),
        [word] => {
            if is_word(word, b"-f") {
                Ok(Command::Show(Listing::Queues))
            } else if is_word(word, b"-pri") {
                Ok(Command::Show(Listing::Prios))
            } else {
                Err(ReadFault::Syntax)
            }
        }
        [word, of] => {
            if is_word(word, b"-u") {
                Ok(jobs_of_owners(alloc, of)?)
            } else if is_word(word, b"-j") {
                Ok(Command::Show(Listing::One(job_number(of)?)))
            } else {
                Err(ReadFault::Syntax)
            }
        }
        _ => Err(ReadFault::Syntax),
    }
}

/// qacct: sums, -o of an owner, -j the lines of a job.
#[tactic(auto, unfolding(ge_model_grammar::specs::Commands::account_command))]
pub(crate) fn read_accounting(alloc: Global, words: &[&[u8]]) -> Result<Command, ReadFault>
    ensures { Gives result (account_command (texts words.now)) }
{
    match words {
        [] => Ok(Command::Account(Query::Total)),
        [word, of] => {
            if is_word(word, b"-o") {
                if !is_a_name(of) {
                    return Err(ReadFault::Syntax);
                }
                let owner = Text::from_bytes(alloc, of)?;
                Ok(Command::Account(Query::Owner(owner)))
            } else if is_word(word, b"-j") {
                Ok(Command::Account(Query::Job(job_number(of)?)))
            } else {
                Err(ReadFault::Syntax)
            }
        }
        _ => Err(ReadFault::Syntax),
    }
}

/// qrstat: all reservations, or the one that -ar names.
#[tactic(auto, unfolding(ge_model_grammar::specs::Commands::show_booked_command))]
pub(crate) fn read_showing_booked(words: &[&[u8]]) -> Result<Command, ReadFault>
    ensures { Gives result (show_booked_command (texts words.now)) }
{
    match words {
        [] => Ok(Command::ShowBooked(None)),
        [word, of] => {
            if is_word(word, b"-ar") {
                Ok(Command::ShowBooked(Some(job_number(of)?)))
            } else {
                Err(ReadFault::Syntax)
            }
        }
        _ => Err(ReadFault::Syntax),
    }
}
