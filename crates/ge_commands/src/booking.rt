//! Advance reservations: qrsub, qrdel.

ghost use Rattle.std.specs.Prelude.{◌≡◌, codes};
ghost use Rattle.ge_model_grammar.specs.Commands.{has_one_of, booking_by, booking, book_command, unbook_command};
ghost use Rattle.ge_pieces.specs.Gives.{Gives};
ghost use Rattle.ge_commands.specs.Lent.{texts};

use crate::merging::merged_reservation_options;
use crate::naming::has_option;
use crate::reading::read_reservation_options;
use crate::targets::jobs_in;
use ge_pieces::ReadFault;
use ge_rows::{Command, Options};
use std::alloc::Global;

fn ends_once(options: &Options) -> bool
    ensures { result ≡ has_one_of options.now.items (codes "-e") (codes "-d") }
{
    has_option(options, b"-e") != has_option(options, b"-d")
}

fn booking_with(options: Options) -> Result<Command, ReadFault>
    ensures { Gives result (booking_by options.items) }
{
    if ends_once(&options) {
        Ok(Command::Book(options))
    } else {
        Err(ReadFault::Syntax)
    }
}

/// qrsub: options alone, and just one of -e and -d.
#[tactic(auto, unfolding(ge_model_grammar::specs::Commands::book_command))]
pub(crate) fn read_booking(alloc: Global, words: &[&[u8]]) -> Result<Command, ReadFault>
    ensures { Gives result (book_command (texts words.now)) }
{
    let (given, rest) = read_reservation_options(alloc, words)?;
    if !rest.is_empty() {
        return Err(ReadFault::Syntax);
    }
    booking_with(merged_reservation_options(alloc, &given)?)
}

/// qrdel: numbers of reservations.
#[tactic(auto, unfolding(ge_model_grammar::specs::Commands::unbook_command))]
pub(crate) fn read_unbooking(alloc: Global, words: &[&[u8]]) -> Result<Command, ReadFault>
    ensures { Gives result (unbook_command (texts words.now)) }
{
    let numbers = jobs_in(alloc, words)?;
    Ok(Command::Unbook(numbers))
}
