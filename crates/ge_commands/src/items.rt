//! Readers of items, one by one and joined by commas.

ghost use Rattle.std.specs.Prelude.{◌≡◌, ℕ, ◌++◌, ◌∷◌, [], List as Items, Option as Perhaps, option_map, IfOk, OnOk};
ghost use Rattle.ge_model_rows.specs.Pieces.{pieces_at};
ghost use Rattle.ge_model_grammar.specs.Lines.{read_after, read_each};
ghost use Rattle.ge_model_grammar.specs.Targets.{job_number_of, wide_number, target_of, items_of, read_items};
ghost use Rattle.ge_model_grammar.specs.Commands.{reported_pair};
ghost use Rattle.ge_pieces.specs.Gives.{Gives, Leaves};
ghost use Rattle.ge_commands.specs.Lent.{texts};

use crate::ranges::{read_range, tasks_of_range};
use ge_pieces::{ReadFault, before, behind, has, is_a_name, number_up_to, slices_at};
use ge_rows::{List, Pick, Text};
use std::alloc::{AllocError, Global};

/// A reader of one item.
pub(crate) trait ItemReader<T> {
    /// The definition.
    ghost read: { Self → Items ℕ → Perhaps T };

    /// The item that a text is.
    fn read(&self, alloc: Global, item: &[u8]) -> Result<T, ReadFault>
        ensures { Gives result (read self.now item.now) };
}

/// The number of a job or of an advance reservation, cut at 2^32 - 1.
pub(crate) struct JobNumber;

impl ItemReader<u32> for JobNumber {
    ghost read = { λ _. job_number_of };

    fn read(&self, _alloc: Global, item: &[u8]) -> Result<u32, ReadFault> {
        job_number(item)
    }
}

/// A number cut at 2^64 - 1.
pub(crate) struct WideNumber;

impl ItemReader<u64> for WideNumber {
    ghost read = { λ _. wide_number };

    fn read(&self, _alloc: Global, item: &[u8]) -> Result<u64, ReadFault> {
        number_of_64_bits(item)
    }
}

/// A job, or some tasks of one.
pub(crate) struct Target;

impl ItemReader<Pick> for Target {
    ghost read = { λ _. target_of };

    fn read(&self, alloc: Global, item: &[u8]) -> Result<Pick, ReadFault> {
        read_target(alloc, item)
    }
}

/// A resource and its value, as a daemon reports them.
pub(crate) struct Report;

impl ItemReader<(Text, Text)> for Report {
    ghost read = { λ _. reported_pair };

    fn read(&self, alloc: Global, item: &[u8]) -> Result<(Text, Text), ReadFault> {
        read_report(alloc, item)
    }
}

/// The number of a job, cut at 2^32 - 1.
pub(crate) fn job_number(word: &[u8]) -> Result<u32, ReadFault>
    ensures { Gives result (job_number_of word.now) }
{
    match number_up_to(u64::from(u32::MAX), word) {
        None => Err(ReadFault::Syntax),
        Some(number) => Ok(number as u32),
    }
}

/// A number, cut at 2^64 - 1.
pub(crate) fn number_of_64_bits(word: &[u8]) -> Result<u64, ReadFault>
    ensures { Gives result (wide_number word.now) }
{
    match number_up_to(u64::MAX, word) {
        None => Err(ReadFault::Syntax),
        Some(number) => Ok(number),
    }
}

fn read_target(alloc: Global, item: &[u8]) -> Result<Pick, ReadFault>
    ensures { Gives result (target_of item.now) }
{
    let job = job_number(before(b'.', item))?;
    if !has(b'.', item) {
        return Ok(Pick { job, tasks: None });
    }
    match read_range(behind(b'.', item)) {
        None => Err(ReadFault::Syntax),
        Some(range) => {
            let tasks = tasks_of_range(alloc, &range)?;
            Ok(Pick {
                job,
                tasks: Some(tasks),
            })
        }
    }
}

fn read_report(alloc: Global, word: &[u8]) -> Result<(Text, Text), ReadFault>
    ensures { Gives result (reported_pair word.now) }
{
    if has(b'=', word) && is_a_name(before(b'=', word)) {
        let name = Text::from_bytes(alloc, before(b'=', word))?;
        let value = Text::from_bytes(alloc, behind(b'=', word))?;
        Ok((name, value))
    } else {
        Err(ReadFault::Syntax)
    }
}

fn push_item<T: Drop, R: ItemReader<T>>(
    alloc: Global,
    reader: &R,
    list: &mut List<T>,
    item: &[u8],
) -> Result<(), ReadFault>
    ensures { Leaves result list.new (option_map (λ x. list.old ++ x
        ∷ []) (R.read reader.now item.now)) }
{
    let read = reader.read(alloc, item)?;
    list.push(read)?;
    Ok(())
}

fn push_each<T: Drop, R: ItemReader<T>>(
    alloc: Global,
    reader: &R,
    list: &mut List<T>,
    items: &[&[u8]],
) -> Result<(), ReadFault>
    ensures { Leaves result list.new (read_after (R.read reader.now) list.old (texts items.now)) }
{
    for item in items {
        match push_item(alloc, reader, list, item) {
            Ok(()) => {}
            Err(fault) => return Err(fault),
        }
    }
    Ok(())
}

/// What a reader gives for each of these.
pub(crate) fn each_of<T: Drop, R: ItemReader<T>>(
    alloc: Global,
    reader: &R,
    items: &[&[u8]],
) -> Result<List<T>, ReadFault>
    ensures { Gives result (read_each (R.read reader.now) (texts items.now)) }
{
    let mut list = List::from_vec(Vec::with_capacity(alloc, items.len())?);
    push_each(alloc, reader, &mut list, items)?;
    Ok(list)
}

fn push_slices<'a>(
    alloc: Global,
    items: &mut Vec<&'a [u8]>,
    word: &'a [u8],
) -> Result<(), AllocError>
    ensures { OnOk result (texts items.new.items ≡ texts items.old.items ++ pieces_at 44 word.now) }
{
    items.extend_from_slice(&slices_at(alloc, b',', word)?)?;
    Ok(())
}

// The items that words hold, each word some that commas join.
fn slices_of_words<'a>(alloc: Global, words: &[&'a [u8]]) -> Result<Vec<&'a [u8]>, AllocError>
    ensures { IfOk result (λ items. texts items.items ≡ items_of (texts words.now)) }
{
    let mut items = Vec::new(alloc);
    for word in words {
        push_slices(alloc, &mut items, word)?;
    }
    Ok(items)
}

/// What a reader gives for the items of at least one word, each word some that commas join.
pub(crate) fn items_in<T: Drop, R: ItemReader<T>>(
    alloc: Global,
    reader: &R,
    words: &[&[u8]],
) -> Result<List<T>, ReadFault>
    ensures { Gives result (read_items (R.read reader.now) (texts words.now)) }
{
    if words.is_empty() {
        return Err(ReadFault::Syntax);
    }
    each_of(alloc, reader, &slices_of_words(alloc, words)?)
}
