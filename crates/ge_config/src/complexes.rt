//! The table of complexes: complex(5).

ghost use Rattle.std.specs.Prelude.{◌≡◌, ◌++◌, OnOk, IfOk, [], if◌then◌else◌, fold, map, flat_map, unwrap_or};
ghost use Rattle.ge_model_rows.specs.ValueRows.{Kind, Relop, Consumable};
ghost use Rattle.ge_model_rows.specs.Complexes.{complex_at};
ghost use Rattle.ge_model_rows.specs.Faults.{after_faults};
ghost use Rattle.ge_model_config.specs.Complexes.{unknown_complex, fits_relop, is_for_jobs, fits_use, kind_in, relop_in, consumable_in, urgency_read, complex_row, row_faults, put_complex, are_distinct, names_of_complex, complexes_item};
ghost use Rattle.ge_pieces.specs.Gives.{Reads};
ghost use Rattle.ge_config.specs.Words.{word_faults, table_faults};

use crate::columns::{
    asks_at_most, asks_sameness, consumable_by, kind_by, relop_by, requestable_by,
};
use crate::sets::are_texts_distinct;
use crate::uses::note_uses;
use crate::values::{Reader, any_of};
use ge_base::Refusal;
use ge_complex::{complex_at, is_number_kind, value_of_text};
use ge_limits::COMPLEXES;
use ge_model_grammar::ComplexLine;
use ge_pieces::{is_a_name, is_same, is_word, note};
use ge_rows::{
    Cluster, ComplexDef, Consumable, Item, Kind, Relop, Requestable, Table, Text, Twin, Value,
};
use std::alloc::{AllocError, Global};

// Flags and words are compared by == and != alone, and a consumable is an amount that is compared by <=.
fn has_fit_relop(kind: Kind, relop: Relop, consumable: Consumable) -> bool
    ensures { result ≡ fits_relop kind relop consumable }
{
    match consumable {
        Consumable::No => is_number_kind(kind) || asks_sameness(relop),
        Consumable::Yes | Consumable::Job => is_number_kind(kind) && asks_at_most(relop),
    }
}

fn is_once_for_jobs(consumable: Consumable) -> bool
    ensures { result ≡ is_for_jobs consumable }
{
    match consumable {
        Consumable::Job => true,
        Consumable::No | Consumable::Yes => false,
    }
}

// Slots are counted by themselves, never once for each job.
fn has_fit_use(name: &[u8], kind: Kind, relop: Relop, consumable: Consumable) -> bool
    ensures { result ≡ fits_use name.now kind relop consumable }
{
    has_fit_relop(kind, relop, consumable)
        && !(is_word(name, b"slots") && is_once_for_jobs(consumable))
}

fn older_kind(c: &Cluster, name: &Text) -> Kind
    ensures { result ≡ (unwrap_or (complex_at c.now name.now) unknown_complex).kind }
{
    match complex_at(c, name) {
        Some(older) => older.kind,
        None => Kind::Int,
    }
}

fn older_relop(c: &Cluster, name: &Text) -> Relop
    ensures { result ≡ (unwrap_or (complex_at c.now name.now) unknown_complex).relop }
{
    match complex_at(c, name) {
        Some(older) => older.relop,
        None => Relop::Eq,
    }
}

fn older_requestable(c: &Cluster, name: &Text) -> Requestable
    ensures { result ≡ (unwrap_or (complex_at c.now name.now) unknown_complex).requestable }
{
    match complex_at(c, name) {
        Some(older) => older.requestable,
        None => Requestable::No,
    }
}

fn older_fallback(alloc: Global, c: &Cluster, name: &Text) -> Result<Value, AllocError>
    ensures { IfOk result (λ value. value
        ≡ (unwrap_or (complex_at c.now name.now) unknown_complex).fallback) }
{
    match complex_at(c, name) {
        Some(older) => older.fallback.twin(alloc),
        None => Ok(Value::Amount(0)),
    }
}

// The kind that a row gives: a word that can't be read changes nothing.
fn kind_of_row(c: &Cluster, line: &ComplexLine) -> Kind
    ensures { result ≡ kind_in c.now line.now }
{
    match kind_by(line.kind.bytes()) {
        Some(kind) => kind,
        None => older_kind(c, &line.name),
    }
}

// The operator that a row gives, in the same way.
fn relop_of_row(c: &Cluster, line: &ComplexLine) -> Relop
    ensures { result ≡ relop_in c.now line.now }
{
    match relop_by(line.relop.bytes()) {
        Some(relop) => relop,
        None => older_relop(c, &line.name),
    }
}

// What a row has, where its words can be read, and else what was known before.
fn fallback_of_row(
    alloc: Global,
    c: &Cluster,
    name: &Text,
    value: Option<Value>,
) -> Result<Value, AllocError>
    ensures { IfOk result (λ fallback. fallback
        ≡ unwrap_or value (unwrap_or (complex_at c.now name.now) unknown_complex).fallback) }
{
    match value {
        Some(value) => Ok(value),
        None => older_fallback(alloc, c, name),
    }
}

fn requestable_or_older(c: &Cluster, name: &Text, requestable: Option<Requestable>) -> Requestable
    ensures { result
        ≡ unwrap_or requestable (unwrap_or
        (complex_at c.now name.now) unknown_complex).requestable }
{
    match requestable {
        Some(requestable) => requestable,
        None => older_requestable(c, name),
    }
}

// A word that can't be read ends no use.
fn consumable_or_yes(consumable: Option<Consumable>) -> Consumable
    ensures { result ≡ unwrap_or consumable Consumable.Yes }
{
    match consumable {
        Some(consumable) => consumable,
        None => Consumable::Yes,
    }
}

fn consumable_of_row(alloc: Global, line: &ComplexLine) -> Result<Consumable, AllocError>
    ensures { IfOk result (λ consumable. consumable ≡ consumable_in line.now) }
{
    let consumable = consumable_by(alloc, line.consumable.bytes())?;
    Ok(consumable_or_yes(consumable))
}

// The urgency of a row, a DOUBLE.
fn read_urgency(
    alloc: Global,
    line: &ComplexLine,
    faults: &mut Option<Refusal>,
) -> Result<u64, AllocError>
    ensures { Reads result faults.old faults.new (urgency_read line.now) }
{
    any_of(Kind::Double).read(alloc, line.urgency.bytes(), faults)
}

// The complex of a row.
fn complex_of_row(alloc: Global, c: &Cluster, line: &ComplexLine) -> Result<ComplexDef, AllocError>
    ensures { IfOk result (λ complex. complex ≡ complex_row c.now line.now) }
{
    let kind = kind_of_row(c, line);
    let shortcut = line.shortcut.twin(alloc)?;
    let requestable = requestable_by(alloc, line.requestable.bytes())?;
    let consumable = consumable_of_row(alloc, line)?;
    let value = value_of_text(alloc, kind, line.fallback.bytes())?;
    let fallback = fallback_of_row(alloc, c, &line.name, value)?;
    let mut noted = None;
    let urgency = read_urgency(alloc, line, &mut noted)?;
    Ok(ComplexDef {
        shortcut,
        kind,
        relop: relop_of_row(c, line),
        requestable: requestable_or_older(c, &line.name, requestable),
        consumable,
        fallback,
        urgency,
    })
}

fn note_words(
    alloc: Global,
    line: &ComplexLine,
    faults: &mut Option<Refusal>,
) -> Result<(), AllocError>
    ensures { OnOk result (faults.new ≡ after_faults faults.old (word_faults line.now)) }
{
    let requestable = requestable_by(alloc, line.requestable.bytes())?;
    let consumable = consumable_by(alloc, line.consumable.bytes())?;
    let is_named = is_a_name(line.name.bytes()) && is_a_name(line.shortcut.bytes());
    let kind = kind_by(line.kind.bytes());
    let relop = relop_by(line.relop.bytes());
    note(faults, !is_named, Refusal::BadValue);
    note(faults, kind.is_none() || relop.is_none(), Refusal::BadValue);
    note(
        faults,
        requestable.is_none() || consumable.is_none(),
        Refusal::BadValue,
    );
    Ok(())
}

// Notes what refuses a row: its names, a word of its columns, its values, or a use that its kind, operator or name
// doesn't have.
fn note_row(
    alloc: Global,
    c: &Cluster,
    line: &ComplexLine,
    faults: &mut Option<Refusal>,
) -> Result<(), AllocError>
    ensures { OnOk result (faults.new ≡ after_faults faults.old (row_faults c.now line.now)) }
{
    note_words(alloc, line, faults)?;
    let kind = kind_of_row(c, line);
    let value = value_of_text(alloc, kind, line.fallback.bytes())?;
    let consumable = consumable_of_row(alloc, line)?;
    let is_fit = has_fit_use(line.name.bytes(), kind, relop_of_row(c, line), consumable);
    note(faults, value.is_none(), Refusal::BadValue);
    note(faults, !is_fit, Refusal::BadValue);
    let _urgency = read_urgency(alloc, line, faults)?;
    Ok(())
}

fn note_rows(
    alloc: Global,
    c: &Cluster,
    lines: &[ComplexLine],
    faults: &mut Option<Refusal>,
) -> Result<(), AllocError>
    ensures { OnOk result (faults.new
        ≡ after_faults faults.old (flat_map (row_faults c.now) lines.now)) }
{
    for line in lines {
        note_row(alloc, c, line, faults)?;
    }
    Ok(())
}

// A table of complexes with one row more, or with it in the place of one.
fn put_row(
    alloc: Global,
    c: &Cluster,
    table: &mut Table<Text, ComplexDef>,
    line: &ComplexLine,
) -> Result<(), AllocError>
    ensures { OnOk result (table.new ≡ put_complex c.now table.old line.now) }
{
    let name = line.name.twin(alloc)?;
    let complex = complex_of_row(alloc, c, line)?;
    table.insert(name, complex)?;
    Ok(())
}

fn put_rows(
    alloc: Global,
    c: &Cluster,
    table: &mut Table<Text, ComplexDef>,
    lines: &[ComplexLine],
) -> Result<(), AllocError>
    ensures { OnOk result (table.new ≡ fold (put_complex c.now) table.old lines.now) }
{
    for line in lines {
        put_row(alloc, c, table, line)?;
    }
    Ok(())
}

// The table that rows are added to: the cluster's, or one that is filled anew.
fn table_before(
    alloc: Global,
    c: &Cluster,
    adding: bool,
) -> Result<Table<Text, ComplexDef>, AllocError>
    ensures { IfOk result (λ table. table ≡ (if adding then c.now.complexes else [])) }
{
    if adding {
        c.complexes.twin(alloc)
    } else {
        Ok(Table::new(alloc))
    }
}

fn names_of_rows(alloc: Global, lines: &[ComplexLine]) -> Result<Vec<&[u8]>, AllocError>
    ensures { IfOk result (λ names. map (λ name. name.now) names.items
        ≡ map (λ line. line.name) lines.now) }
{
    let mut names = Vec::new(alloc);
    for line in lines {
        names.push(line.name.bytes())?;
    }
    Ok(names)
}

fn are_rows_distinct(alloc: Global, lines: &[ComplexLine]) -> Result<bool, AllocError>
    ensures { IfOk result (λ distinct. distinct ≡ are_distinct (map
        (λ line. line.name) lines.now)) }
{
    let names = names_of_rows(alloc, lines)?;
    let distinct = are_texts_distinct(alloc, &names)?;
    Ok(distinct)
}

// The words that name a complex, behind those of others: its name, and its shortcut where that is another.
fn push_names<'a>(
    names: &mut Vec<&'a [u8]>,
    name: &'a Text,
    complex: &'a ComplexDef,
) -> Result<(), AllocError>
    ensures { OnOk result (map (λ word. word.now) names.new.items
        ≡ map (λ word. word.now) names.old.items ++ names_of_complex (name.now, complex.now)) }
{
    names.push(name.bytes())?;
    if !is_same(name, &complex.shortcut) {
        names.push(complex.shortcut.bytes())?;
    }
    Ok(())
}

fn names_of_table(alloc: Global, table: &Table<Text, ComplexDef>) -> Result<Vec<&[u8]>, AllocError>
    ensures { IfOk result (λ names. map (λ word. word.now) names.items
        ≡ flat_map names_of_complex table.now) }
{
    let mut names = Vec::new(alloc);
    for (name, complex) in table.iter() {
        push_names(&mut names, name, complex)?;
    }
    Ok(names)
}

fn are_names_distinct(alloc: Global, table: &Table<Text, ComplexDef>) -> Result<bool, AllocError>
    ensures { IfOk result (λ distinct. distinct ≡ are_distinct
        (flat_map names_of_complex table.now)) }
{
    let names = names_of_table(alloc, table)?;
    let distinct = are_texts_distinct(alloc, &names)?;
    Ok(distinct)
}

// Notes what refuses rows and the table that they make.
fn note_table(
    alloc: Global,
    c: &Cluster,
    lines: &[ComplexLine],
    table: &Table<Text, ComplexDef>,
    faults: &mut Option<Refusal>,
) -> Result<(), AllocError>
    ensures { OnOk result
        (faults.new ≡ after_faults faults.old (table_faults c.now lines.now table.now)) }
{
    note_rows(alloc, c, lines, faults)?;
    let are_apart = are_rows_distinct(alloc, lines)?;
    note(faults, !are_apart, Refusal::BadValue);
    let are_named_apart = are_names_distinct(alloc, table)?;
    note(faults, !are_named_apart, Refusal::BadValue);
    note_uses(alloc, c, table, faults)?;
    note(faults, table.len() > COMPLEXES, Refusal::Limit);
    Ok(())
}

/// The table of complexes: rows added or put in the place of others, or the whole table anew (complex(5)).
///
/// # Refusals
///
/// BadValue where a name, a word of a column or a value is none, where a use doesn't fit its kind, operator or name, and
/// where a name or a shortcut comes twice. InUse where a complex that is used is taken away or changes its type, and where
/// one that a rule limits is a consumable no more. Limit where there are more than 1,024.
#[tactic(auto, unfolding(ge_model_config::specs::Complexes::complexes_item))]
pub fn read_complexes(
    alloc: Global,
    c: &Cluster,
    adding: bool,
    lines: &[ComplexLine],
    faults: &mut Option<Refusal>,
) -> Result<Item, AllocError>
    ensures { Reads result faults.old faults.new (complexes_item c.now adding lines.now) }
{
    let mut table = table_before(alloc, c, adding)?;
    put_rows(alloc, c, &mut table, lines)?;
    note_table(alloc, c, lines, &table, faults)?;
    Ok(Item::Complexes(table))
}
