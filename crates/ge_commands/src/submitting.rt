//! qsub, with the options of its script.

ghost use Rattle.std.specs.Prelude.{◌≡◌, ◌++◌, [], IfOk, OnOk};
ghost use Rattle.ge_model_grammar.specs.Commands.{only_options, line_options, options_in, options_after, script_options, submission, submit_command};
ghost use Rattle.ge_pieces.specs.Gives.{Gives, Leaves};
ghost use Rattle.ge_commands.specs.Lent.{texts, GivesAs};
ghost use Rattle.ge_commands.specs.Shown.{all_shown};
ghost use Rattle.ge_commands.specs.Made.{added_to};

use crate::merging::merged_job_options;
use crate::reading::{GivenOption, read_submission_options};
use crate::wording::{owned, words_of_line};
use ge_pieces::{ReadFault, begins, slices_at};
use ge_rows::{Command, Text};
use std::alloc::{AllocError, Global};

// The options that words are.
fn read_options_alone<'a>(
    alloc: Global,
    words: &[&'a [u8]],
) -> Result<Vec<GivenOption<'a>>, ReadFault>
    ensures { GivesAs (λ given. all_shown given.items) result (only_options (texts words.now)) }
{
    let (given, rest) = read_submission_options(alloc, words)?;
    if rest.is_empty() {
        Ok(given)
    } else {
        Err(ReadFault::Syntax)
    }
}

// The options behind #$ on a line.
fn read_line_options(alloc: Global, line: &[u8]) -> Result<Vec<GivenOption>, ReadFault>
    ensures { GivesAs (λ given. all_shown given.items) result (line_options line.now) }
{
    let words = words_of_line(alloc, line)?;
    read_options_alone(alloc, &words)
}

// The options of a line of a script: a line that begins with #$ holds options alone.
fn read_in_line(alloc: Global, line: &[u8]) -> Result<Vec<GivenOption>, ReadFault>
    ensures { GivesAs (λ given. all_shown given.items) result (options_in line.now) }
{
    match line {
        [b'#', b'$', rest @ ..] => read_line_options(alloc, rest),
        _ => Ok(Vec::new(alloc)),
    }
}

fn push_all<'a>(
    given: &mut Vec<GivenOption<'a>>,
    more: &[GivenOption<'a>],
) -> Result<(), AllocError>
    ensures { OnOk result (all_shown given.new.items ≡ all_shown given.old.items
        ++ all_shown more.now) }
{
    given.extend_from_slice(more)?;
    Ok(())
}

// The options of one more line, behind those read so far.
fn add_line<'a>(
    alloc: Global,
    given: &mut Vec<GivenOption<'a>>,
    line: &'a [u8],
) -> Result<(), ReadFault>
    ensures { Leaves result (all_shown given.new.items) (added_to (all_shown given.old.items)
        (options_in line.now)) }
{
    let more = read_in_line(alloc, line)?;
    push_all(given, &more)?;
    Ok(())
}

fn read_lines<'a>(alloc: Global, lines: &[&'a [u8]]) -> Result<Vec<GivenOption<'a>>, ReadFault>
    ensures { GivesAs (λ given. all_shown given.items) result (options_after [] (texts lines.now)) }
{
    let mut given = Vec::new(alloc);
    for line in lines {
        match add_line(alloc, &mut given, line) {
            Ok(()) => {}
            Err(fault) => return Err(fault),
        }
    }
    Ok(given)
}

// The options of a script, in the order of its lines.
#[tactic(auto, unfolding(ge_model_grammar::specs::Commands::script_options))]
fn read_script_lines(alloc: Global, script: &[u8]) -> Result<Vec<GivenOption>, ReadFault>
    ensures { GivesAs (λ given. all_shown given.items) result (script_options script.now) }
{
    let lines = slices_at(alloc, b'\n', script)?;
    read_lines(alloc, &lines)
}

// The same. Most commands have no script, and are read without a list of lines.
#[tactic(auto, using(crate::proofs::NoScript::alone))]
fn read_script(alloc: Global, script: &[u8]) -> Result<Vec<GivenOption>, ReadFault>
    ensures { GivesAs (λ given. all_shown given.items) result (script_options script.now) }
{
    if script.is_empty() {
        return Ok(Vec::new(alloc));
    }
    read_script_lines(alloc, script)
}

fn submission_with(
    alloc: Global,
    script: &[u8],
    given: &[GivenOption],
    words: &[&[u8]],
) -> Result<Command, AllocError>
    ensures { IfOk result (λ command. command ≡ submission script.now (all_shown given.now)
        ([], texts words.now)) }
{
    let options = merged_job_options(alloc, given)?;
    let words = owned(alloc, words)?;
    Ok(Command::Submit(options, words, Text::from_bytes(alloc, script)?))
}

/// qsub: options, the command and its arguments; the text behind the command line is the script. Of the options of the
/// script and of the line those of the line are given last.
#[tactic(auto, unfolding(ge_model_grammar::specs::Commands::submit_command))]
pub(crate) fn read_submission(
    alloc: Global,
    words: &[&[u8]],
    script: &[u8],
) -> Result<Command, ReadFault>
    ensures { Gives result (submit_command (texts words.now) script.now) }
{
    let mut given = read_script(alloc, script)?;
    let (on_line, rest) = read_submission_options(alloc, words)?;
    push_all(&mut given, &on_line)?;
    let command = submission_with(alloc, script, &given, rest)?;
    Ok(command)
}
