//! The command that a text is.

ghost use Rattle.std.specs.Prelude.{◌≡◌};
ghost use Rattle.ge_model_rows.specs.Pieces.{before_byte, behind_byte};
ghost use Rattle.ge_model_grammar.specs.Commands.{line_command, command_in, command_of};
ghost use Rattle.ge_model_grammar.specs.Parsing.{parsed};
ghost use Rattle.ge_pieces.specs.Gives.{Gives, IsAnswered};
ghost use Rattle.ge_commands.specs.Lent.{texts};

use crate::booking::{read_booking, read_unbooking};
use crate::configuring::read_configuring;
use crate::reporting::{read_dispatch, read_end, read_load, read_orders, read_run};
use crate::showing::{read_accounting, read_showing, read_showing_booked};
use crate::submitting::read_submission;
use crate::targets::{HoldVerb, read_alteration, read_clearing, read_deletion, read_holding};
use crate::wording::words_of_line;
use ge_base::Refusal;
use ge_pieces::{ReadFault, before, bytes_from, has_a_long_line, is_word};
use ge_rows::{Command, Text};
use std::alloc::Global;

// The commands on jobs that are one line. Those that daemons send come most often, and are told first.
#[tactic(auto, using(crate::proofs::Verbs::end_first, crate::proofs::Verbs::job_first, crate::proofs::Verbs::orders_first, crate::proofs::Verbs::load_first))]
fn read_line_command(alloc: Global, verb: &[u8], words: &[&[u8]]) -> Result<Command, ReadFault>
    ensures { Gives result (line_command verb.now (texts words.now)) }
{
    if is_word(verb, b"end") {
        read_end(alloc, words)
    } else if is_word(verb, b"job") {
        read_dispatch(words)
    } else if is_word(verb, b"orders") {
        read_orders(alloc, words)
    } else if is_word(verb, b"load") {
        read_load(alloc, words)
    } else if is_word(verb, b"qalter") {
        read_alteration(alloc, words)
    } else if is_word(verb, b"qdel") {
        read_deletion(alloc, words)
    } else if is_word(verb, b"qhold") {
        read_holding(alloc, HoldVerb::Hold, words)
    } else if is_word(verb, b"qrls") {
        read_holding(alloc, HoldVerb::Release, words)
    } else if is_word(verb, b"qmod") {
        read_clearing(alloc, words)
    } else if is_word(verb, b"qstat") {
        read_showing(alloc, words)
    } else if is_word(verb, b"qacct") {
        read_accounting(alloc, words)
    } else if is_word(verb, b"qrsub") {
        read_booking(alloc, words)
    } else if is_word(verb, b"qrdel") {
        read_unbooking(alloc, words)
    } else if is_word(verb, b"qrstat") {
        read_showing_booked(words)
    } else if is_word(verb, b"sched") {
        read_run(words)
    } else {
        Err(ReadFault::Syntax)
    }
}

// The command of the words of a command line and of the text behind it.
fn read_words(alloc: Global, words: &[&[u8]], text: &[u8]) -> Result<Command, ReadFault>
    ensures { Gives result (command_in (texts words.now) text.now) }
{
    let [verb, rest @ ..] = words else {
        return Err(ReadFault::Syntax);
    };
    if is_word(verb, b"qsub") {
        read_submission(alloc, rest, text)
    } else if is_word(verb, b"qconf") {
        read_configuring(alloc, rest, text)
    } else if text.is_empty() {
        read_line_command(alloc, verb, rest)
    } else {
        Err(ReadFault::Syntax)
    }
}

// The first line without its line feed, and what stands behind it, by one search.
#[tactic(auto, using(crate::proofs::FirstLine::behind_is))]
fn split_line(text: &[u8]) -> (&[u8], &[u8])
    ensures line { result.0.now ≡ before_byte 10 text.now }
    ensures behind { result.1.now ≡ behind_byte 10 text.now }
{
    let line = before(b'\n', text);
    let taken = line.len().saturating_add(1).min(text.len());
    (line, bytes_from(text, taken))
}

#[tactic(auto, unfolding(ge_model_grammar::specs::Commands::command_of))]
fn read_command(alloc: Global, text: &[u8]) -> Result<Command, ReadFault>
    ensures { Gives result (command_of text.now) }
{
    let (line, behind) = split_line(text);
    let words = words_of_line(alloc, line)?;
    read_words(alloc, &words, behind)
}

/// The command that a text is: its first line has the command's words, and the lines behind it are a script or a body.
///
/// Fails with [`Refusal::TooLong`] exactly where a line has more than 65,536 bytes, with [`Refusal::Syntax`] exactly where
/// no line has and the text isn't in the grammar of commands, and with [`Refusal::NoMemory`] where memory runs out. The
/// words of an option and of a command are copied once each, and time grows with the text's length (qsub, qalter, qdel,
/// qhold, qrls, qmod, qconf, qstat, qacct, qrsub, qrdel, qrstat).
#[tactic(auto, unfolding(ge_model_grammar::specs::Parsing::parsed))]
pub fn parse(alloc: Global, text: &Text) -> Result<Command, Refusal>
    ensures { IsAnswered result (parsed text.now) }
{
    if has_a_long_line(text.bytes()) {
        return Err(Refusal::TooLong);
    }
    match read_command(alloc, text.bytes()) {
        Ok(command) => Ok(command),
        Err(ReadFault::Syntax) => Err(Refusal::Syntax),
        Err(ReadFault::Memory) => Err(Refusal::NoMemory),
    }
}
