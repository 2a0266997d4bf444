//! The commands that name jobs and tasks: qalter, qdel, qmod -cj, qhold, qrls.

ghost use Rattle.std.specs.Prelude.{◌≡◌, ◌≤◌};
ghost use Rattle.std.specs.List.{list_all};
ghost use Rattle.ge_model_grammar.specs.Targets.{job_numbers_of, targets_of, is_hold_letter, bit_of, holds_of_letters as hold_bits};
ghost use Rattle.ge_model_grammar.specs.Commands.{alteration, alter_command, delete_command, clear_command, with_letters, hold_command};
ghost use Rattle.ge_pieces.specs.Gives.{Gives};
ghost use Rattle.ge_commands.specs.Lent.{texts};
ghost use Rattle.ge_commands.specs.Made.{hold_made};

use crate::items::{JobNumber, Target, items_in};
use crate::merging::merged_job_options;
use crate::reading::read_alteration_options;
use ge_pieces::{ReadFault, has, is_word};
use ge_rows::{Command, List, Pick};
use std::alloc::Global;

/// Jobs, each word some that commas join.
pub(crate) fn jobs_in(alloc: Global, words: &[&[u8]]) -> Result<List<u32>, ReadFault>
    ensures { Gives result (job_numbers_of (texts words.now)) }
{
    items_in(alloc, &JobNumber, words)
}

fn targets_in(alloc: Global, words: &[&[u8]]) -> Result<List<Pick>, ReadFault>
    ensures { Gives result (targets_of (texts words.now)) }
{
    items_in(alloc, &Target, words)
}

/// qalter: options, and jobs.
#[tactic(auto, unfolding(ge_model_grammar::specs::Commands::alter_command))]
pub(crate) fn read_alteration(alloc: Global, words: &[&[u8]]) -> Result<Command, ReadFault>
    ensures { Gives result (alter_command (texts words.now)) }
{
    let (given, rest) = read_alteration_options(alloc, words)?;
    let jobs = jobs_in(alloc, rest)?;
    let options = merged_job_options(alloc, &given)?;
    Ok(Command::Alter(options, jobs))
}

/// qdel, with -f by force.
#[tactic(auto, unfolding(ge_model_grammar::specs::Commands::delete_command))]
pub(crate) fn read_deletion(alloc: Global, words: &[&[u8]]) -> Result<Command, ReadFault>
    ensures { Gives result (delete_command (texts words.now)) }
{
    match words {
        [] => Err(ReadFault::Syntax),
        [word, rest @ ..] => {
            let by_force = is_word(word, b"-f");
            let targets = targets_in(alloc, if by_force { rest } else { words })?;
            Ok(Command::Delete(by_force, targets))
        }
    }
}

/// qmod, with -cj alone.
#[tactic(auto, unfolding(ge_model_grammar::specs::Commands::clear_command))]
pub(crate) fn read_clearing(alloc: Global, words: &[&[u8]]) -> Result<Command, ReadFault>
    ensures { Gives result (clear_command (texts words.now)) }
{
    match words {
        [] => Err(ReadFault::Syntax),
        [word, rest @ ..] => {
            if !is_word(word, b"-cj") {
                return Err(ReadFault::Syntax);
            }
            let targets = targets_in(alloc, rest)?;
            Ok(Command::Clear(targets))
        }
    }
}

/// A command on holds.
#[derive(Clone, Copy)]
pub(crate) enum HoldVerb {
    /// qhold
    Hold,
    /// qrls
    Release,
}

fn hold_command(verb: HoldVerb, bits: u8, jobs: List<u32>) -> Command
    ensures { result ≡ hold_made verb bits jobs }
{
    match verb {
        HoldVerb::Hold => Command::Hold(bits, jobs),
        HoldVerb::Release => Command::Release(bits, jobs),
    }
}

fn is_letter_of_holds(b: u8) -> bool
    ensures { result ≡ is_hold_letter b }
{
    b == b'u' || b == b'o' || b == b's'
}

fn has_letters_alone(letters: &[u8]) -> bool
    ensures { result ≡ list_all is_hold_letter letters.now }
{
    letters.iter().all(|b| is_letter_of_holds(*b))
}

fn bit_where(letter: u8, letters: &[u8], bit: u8) -> u8
    ensures bit { result ≡ bit_of letter letters.now bit }
    ensures within { result ≤ bit }
{
    if has(letter, letters) { bit } else { 0 }
}

fn bits_of_letters(letters: &[u8]) -> Result<u8, ReadFault>
    ensures { Gives result (hold_bits letters.now) }
{
    if letters.is_empty() || !has_letters_alone(letters) {
        return Err(ReadFault::Syntax);
    }
    let users = bit_where(b'u', letters, 1);
    let operators = bit_where(b'o', letters, 2);
    let system = bit_where(b's', letters, 4);
    Ok(users + operators + system)
}

fn read_letters_and_jobs(
    alloc: Global,
    verb: HoldVerb,
    words: &[&[u8]],
) -> Result<Command, ReadFault>
    ensures { Gives result (with_letters (hold_made verb) (texts words.now)) }
{
    match words {
        [] => Err(ReadFault::Syntax),
        [letters, rest @ ..] => {
            let bits = bits_of_letters(letters)?;
            let jobs = jobs_in(alloc, rest)?;
            Ok(hold_command(verb, bits, jobs))
        }
    }
}

/// qhold and qrls: letters behind -h, and jobs; without letters it is the hold of users.
#[tactic(auto, unfolding(ge_model_grammar::specs::Commands::hold_command))]
pub(crate) fn read_holding(
    alloc: Global,
    verb: HoldVerb,
    words: &[&[u8]],
) -> Result<Command, ReadFault>
    ensures { Gives result (hold_command (hold_made verb) (texts words.now)) }
{
    match words {
        [] => Err(ReadFault::Syntax),
        [word, rest @ ..] => {
            if is_word(word, b"-h") {
                return read_letters_and_jobs(alloc, verb, rest);
            }
            let jobs = jobs_in(alloc, words)?;
            Ok(hold_command(verb, 1, jobs))
        }
    }
}
