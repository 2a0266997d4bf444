//! `-l`: the value that is asked of each resource (qsub).

ghost use Rattle.std.specs.Prelude.{◌≡◌, [], OnOk, map, fold};
ghost use Rattle.std.specs.Option.{option_map};
ghost use Rattle.ge_model_rows.specs.Faults.{after_faults};
ghost use Rattle.ge_model_config.specs.Pairs.{beside, put_value};
ghost use Rattle.ge_model_config.specs.Requests.{asked_text, asked_item, asked_read, is_unrequestable, with_asked, all_asked};
ghost use Rattle.ge_pieces.specs.Gives.{Reads};
ghost use Rattle.ge_request.specs.Asked.{Puts, Holds};

use crate::options::items_of;
use ge_base::Refusal;
use ge_complex::{ComplexFinder, value_of_text};
use ge_limits::ASKED_ATTRIBUTES;
use ge_pieces::{before, behind, has, is_word, note};
use ge_rows::{Cluster, ComplexDef, Requestable, Table, Text, Value};
use std::alloc::{AllocError, Global};

/// Values by the names of their resources.
type Asked = Table<Text, Value>;

// What an item asks: a name alone asks TRUE.
fn text_asked(item: &[u8]) -> &[u8]
    ensures { result.now ≡ asked_text item.now }
{
    if has(b'=', item) {
        behind(b'=', item)
    } else {
        b"TRUE"
    }
}

fn may_not_be_asked(requestable: Requestable) -> bool
    ensures { result ≡ is_unrequestable requestable }
{
    match requestable {
        Requestable::No => true,
        Requestable::Yes => false,
        Requestable::Forced => false,
    }
}

fn pair_of(name: Text, value: Option<Value>) -> Option<(Text, Value)>
    ensures { result ≡ beside name value }
{
    match value {
        None => None,
        Some(value) => Some((name, value)),
    }
}

// An item whose complex was looked up: slots can't be asked this way.
fn read_asked(
    alloc: Global,
    text: &[u8],
    complex: Option<(Text, &ComplexDef)>,
    faults: &mut Option<Refusal>,
) -> Result<Option<(Text, Value)>, AllocError>
    ensures { Reads result faults.old faults.new
        (asked_item text.now (option_map (λ r. (r.0, r.1.now)) complex.entry)) }
{
    let Some((name, row)) = complex else {
        note(faults, true, Refusal::NoSuchObject);
        return Ok(None);
    };
    let value = value_of_text(alloc, row.kind, text)?;
    note(faults, is_word(name.bytes(), b"slots"), Refusal::BadValue);
    note(faults, value.is_none(), Refusal::BadValue);
    note(
        faults,
        may_not_be_asked(row.requestable),
        Refusal::NotRequestable,
    );
    Ok(pair_of(name, value))
}

fn read_item(
    alloc: Global,
    finder: &mut ComplexFinder,
    item: &[u8],
    faults: &mut Option<Refusal>,
) -> Result<Option<(Text, Value)>, AllocError>
    ensures read { Reads result faults.old faults.new (asked_read finder.old item.now) }
    ensures same { finder.new ≡ finder.old }
{
    let complex = finder.find(alloc, Text::from_bytes(alloc, before(b'=', item))?)?;
    read_asked(alloc, text_asked(item), complex, faults)
}

fn put_asked(asked: &mut Asked, pair: Option<(Text, Value)>) -> Result<(), AllocError>
    ensures { OnOk result (asked.new ≡ put_value asked.old pair) }
{
    if let Some((name, value)) = pair {
        asked.insert(name, value)?;
    }
    Ok(())
}

fn add_item(
    alloc: Global,
    finder: &mut ComplexFinder,
    asked: &mut Asked,
    item: &[u8],
    faults: &mut Option<Refusal>,
) -> Result<(), AllocError>
    ensures added { OnOk result
        (Puts asked.old asked.new faults.old faults.new (asked_read finder.old item.now)) }
    ensures same { finder.new ≡ finder.old }
{
    let pair = read_item(alloc, finder, item, faults)?;
    put_asked(asked, pair)
}

fn add_items(
    alloc: Global,
    c: &Cluster,
    asked: &mut Asked,
    items: &[&[u8]],
    faults: &mut Option<Refusal>,
) -> Result<(), AllocError>
    ensures { OnOk result (Holds asked.new faults.old faults.new
        (fold (with_asked c.now) (asked.old, []) (map (λ i. i.now) items.now))) }
{
    let mut finder = ComplexFinder::new(c);
    for item in items {
        add_item(alloc, &mut finder, asked, item, faults)?;
    }
    Ok(())
}

/// All words of `-l`: of an attribute that is asked twice, by its name or its shortcut, the last value counts, and all are
/// checked.
pub(crate) fn read_all_asked(
    alloc: Global,
    c: &Cluster,
    words: &[Text],
    faults: &mut Option<Refusal>,
) -> Result<Asked, AllocError>
    ensures { Reads result faults.old faults.new (all_asked c.now words.now) }
{
    let mut asked = Table::new(alloc);
    add_items(alloc, c, &mut asked, &items_of(alloc, words)?, faults)?;
    note(faults, asked.len() > ASKED_ATTRIBUTES, Refusal::Limit);
    Ok(asked)
}
