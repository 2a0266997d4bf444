//! The scheduler's settings: sched_conf(5).

ghost use Rattle.std.specs.Prelude.{◌≡◌, ◌++◌, OnOk, IfOk, [], codes, fold, not};
ghost use Rattle.ge_collections.specs.Keyed.{put_text};
ghost use Rattle.ge_base.specs.declared.refusal.Refusal.TheVariants.{BadValue};
ghost use Rattle.ge_model_rows.specs.Faults.{after_faults, when};
ghost use Rattle.ge_model_rows.specs.SettingRows.{Load};
ghost use Rattle.ge_model_rows.specs.Complexes.{complex_at};
ghost use Rattle.ge_model_rows.specs.Pieces.{before_byte};
ghost use Rattle.ge_model_config.specs.Settings.{setting, sort_read, formula_faults, formula_read, is_weight, weight_read, with_weight_item, weights_read, weight_at, sched_item};
ghost use Rattle.ge_pieces.specs.Gives.{Reads};
ghost use Rattle.ge_config.specs.Settings.{amount_setting, count_setting, plain_weights, first_settings, priority_weights, ticket_weights, last_settings};

use crate::values::{Number, Reader, any_of};
use ge_base::Refusal;
use ge_commands::value_in;
use ge_complex::{complex_at, is_number_kind};
use ge_pieces::{before, behind, has, is_in, is_word, items_of_list, note};
use ge_rows::{Cluster, INFINITY, Item, Kind, Sched, SortMethod, Table, Text};
use std::alloc::{AllocError, Global};

// A setting, or its default where the body leaves it out.
fn read_setting<T: Drop, R: Reader<T>>(
    alloc: Global,
    values: &[(Text, Text)],
    attribute: &[u8],
    fallback: T,
    reader: &R,
    faults: &mut Option<Refusal>,
) -> Result<T, AllocError>
    ensures { Reads result faults.old faults.new
        (setting values.now attribute.now fallback (R.read reader.now)) }
{
    match value_in(values, attribute) {
        None => Ok(fallback),
        Some(text) => reader.read(alloc, text.bytes(), faults),
    }
}

// A setting that is any amount of a kind.
fn read_amount(
    alloc: Global,
    values: &[(Text, Text)],
    attribute: &[u8],
    kind: Kind,
    fallback: u64,
    faults: &mut Option<Refusal>,
) -> Result<u64, AllocError>
    ensures { Reads result faults.old faults.new
        (amount_setting values.now attribute.now kind fallback) }
{
    read_setting(alloc, values, attribute, fallback, &any_of(kind), faults)
}

// One that is a whole number up to a greatest.
fn read_count(
    alloc: Global,
    values: &[(Text, Text)],
    attribute: &[u8],
    most: u64,
    fallback: u64,
    faults: &mut Option<Refusal>,
) -> Result<u64, AllocError>
    ensures { Reads result faults.old faults.new
        (count_setting values.now attribute.now most fallback) }
{
    let reader = Number {
        kind: Kind::Int,
        low: 0,
        high: most,
    };
    read_setting(alloc, values, attribute, fallback, &reader, faults)
}

/// queue_sort_method: load or seqno.
#[derive(Drop)]
struct Sorting;

impl Reader<SortMethod> for Sorting {
    ghost read = { λ _. sort_read };

    fn read(
        &self,
        _alloc: Global,
        text: &[u8],
        faults: &mut Option<Refusal>,
    ) -> Result<SortMethod, AllocError> {
        if is_word(text, b"load") {
            return Ok(SortMethod::Load);
        }
        if is_word(text, b"seqno") {
            return Ok(SortMethod::Seqno);
        }
        note(faults, true, Refusal::BadValue);
        Ok(SortMethod::Load)
    }
}

fn note_formula(c: &Cluster, formula: &Text, faults: &mut Option<Refusal>)
    ensures { faults.new ≡ after_faults faults.old (formula_faults (complex_at c.now formula.now)) }
{
    match complex_at(c, formula) {
        None => note(faults, true, Refusal::NoSuchObject),
        Some(complex) => note(faults, !is_number_kind(complex.kind), Refusal::BadValue),
    }
}

/// load_formula: the name of a complex whose values are amounts.
#[derive(Drop)]
struct Formula<'a> {
    c: &'a Cluster,
}

impl Reader<Text> for Formula<'_> {
    ghost read = { λ formula. formula_read formula.c.now };

    fn read(
        &self,
        alloc: Global,
        text: &[u8],
        faults: &mut Option<Refusal>,
    ) -> Result<Text, AllocError> {
        let formula = Text::from_bytes(alloc, text)?;
        note_formula(self.c, &formula, faults);
        Ok(formula)
    }
}

fn is_a_weight(item: &[u8]) -> bool
    ensures { result ≡ is_weight item.now }
{
    has(b'=', item) && is_in(before(b'=', item), &[b"cpu", b"mem", b"io"])
}

fn add_weight(
    alloc: Global,
    weights: &mut Table<Text, u64>,
    item: &[u8],
    faults: &mut Option<Refusal>,
) -> Result<(), AllocError>
    ensures weights { OnOk result (weights.new
        ≡ put_text weights.old (before_byte 61 item.now) (weight_read item.now).0) }
    ensures faults { OnOk result (faults.new ≡ after_faults faults.old
        (when (not (is_weight item.now)) BadValue ++ (weight_read item.now).1)) }
{
    note(faults, !is_a_weight(item), Refusal::BadValue);
    let weight = any_of(Kind::Double).read(alloc, behind(b'=', item), faults)?;
    let name = Text::from_bytes(alloc, before(b'=', item))?;
    weights.insert(name, weight)?;
    Ok(())
}

fn add_weights(
    alloc: Global,
    items: &[Text],
    faults: &mut Option<Refusal>,
) -> Result<Table<Text, u64>, AllocError>
    ensures { Reads result faults.old faults.new (fold with_weight_item ([], []) items.now) }
{
    let mut weights = Table::new(alloc);
    for item in items {
        add_weight(alloc, &mut weights, item.bytes(), faults)?;
    }
    Ok(weights)
}

/// usage_weight_list: what usage is weighed by, as `cpu=1,mem=0,io=0`.
#[derive(Drop)]
struct UsageWeights;

impl Reader<Table<Text, u64>> for UsageWeights {
    ghost read = { λ _. weights_read };

    fn read(
        &self,
        alloc: Global,
        text: &[u8],
        faults: &mut Option<Refusal>,
    ) -> Result<Table<Text, u64>, AllocError> {
        let items = items_of_list(alloc, text)?;
        add_weights(alloc, items.items(), faults)
    }
}

fn put_weight(
    alloc: Global,
    weights: &mut Table<Text, u64>,
    name: &[u8],
    weight: u64,
) -> Result<(), AllocError>
    ensures { OnOk result (weights.new ≡ put_text weights.old name.now weight) }
{
    weights.insert(Text::from_bytes(alloc, name)?, weight)?;
    Ok(())
}

// The weights of a body that gives none.
fn default_weights(alloc: Global) -> Result<Table<Text, u64>, AllocError>
    ensures { IfOk result (λ weights. weights ≡ plain_weights) }
{
    let mut weights = Table::new(alloc);
    put_weight(alloc, &mut weights, b"cpu", 1_000_000)?;
    put_weight(alloc, &mut weights, b"io", 0)?;
    put_weight(alloc, &mut weights, b"mem", 0)?;
    Ok(weights)
}

// A name that the list leaves out weighs nothing.
fn weight_named(alloc: Global, weights: &Table<Text, u64>, name: &[u8]) -> Result<u64, AllocError>
    ensures { IfOk result (λ weight. weight ≡ weight_at weights.now name.now) }
{
    let name = Text::from_bytes(alloc, name)?;
    Ok(weights.get(&name).copied().unwrap_or(0))
}

fn read_sorting(
    alloc: Global,
    values: &[(Text, Text)],
    faults: &mut Option<Refusal>,
) -> Result<SortMethod, AllocError>
    ensures { Reads result faults.old faults.new
        (setting values.now (codes "queue_sort_method") Load sort_read) }
{
    read_setting(
        alloc,
        values,
        b"queue_sort_method",
        SortMethod::Load,
        &Sorting,
        faults,
    )
}

fn read_formula(
    alloc: Global,
    c: &Cluster,
    values: &[(Text, Text)],
    faults: &mut Option<Refusal>,
) -> Result<Text, AllocError>
    ensures { Reads result faults.old faults.new
        (setting values.now (codes "load_formula") (codes "np_load_avg") (formula_read c.now)) }
{
    let fallback = Text::from_bytes(alloc, b"np_load_avg")?;
    read_setting(
        alloc,
        values,
        b"load_formula",
        fallback,
        &Formula { c },
        faults,
    )
}

fn read_first(
    alloc: Global,
    c: &Cluster,
    values: &[(Text, Text)],
    faults: &mut Option<Refusal>,
) -> Result<(u64, u64, SortMethod, Text), AllocError>
    ensures { Reads result faults.old faults.new (first_settings c.now values.now) }
{
    let interval = read_amount(alloc, values, b"schedule_interval", Kind::Time, 15, faults)?;
    let maxujobs = read_amount(alloc, values, b"maxujobs", Kind::Int, 0, faults)?;
    let sort = read_sorting(alloc, values, faults)?;
    let formula = read_formula(alloc, c, values, faults)?;
    Ok((interval, maxujobs, sort, formula))
}

fn read_priority_weights(
    alloc: Global,
    values: &[(Text, Text)],
    faults: &mut Option<Refusal>,
) -> Result<(u64, u64, u64, u64, u64), AllocError>
    ensures { Reads result faults.old faults.new (priority_weights values.now) }
{
    let priority = read_amount(
        alloc,
        values,
        b"weight_priority",
        Kind::Double,
        1_000_000,
        faults,
    )?;
    let urgency = read_amount(
        alloc,
        values,
        b"weight_urgency",
        Kind::Double,
        100_000,
        faults,
    )?;
    let ticket = read_amount(
        alloc,
        values,
        b"weight_ticket",
        Kind::Double,
        10_000,
        faults,
    )?;
    let waiting = read_amount(
        alloc,
        values,
        b"weight_waiting_time",
        Kind::Double,
        0,
        faults,
    )?;
    let deadline = read_amount(
        alloc,
        values,
        b"weight_deadline",
        Kind::Double,
        3_600_000_000_000,
        faults,
    )?;
    Ok((priority, urgency, ticket, waiting, deadline))
}

fn read_ticket_weights(
    alloc: Global,
    values: &[(Text, Text)],
    faults: &mut Option<Refusal>,
) -> Result<(u64, u64, u64, u64, u64), AllocError>
    ensures { Reads result faults.old faults.new (ticket_weights values.now) }
{
    let most = 1_000_000_000;
    let functional = read_count(alloc, values, b"weight_tickets_functional", most, 0, faults)?;
    let share = read_count(alloc, values, b"weight_tickets_share", most, 0, faults)?;
    let user = read_amount(alloc, values, b"weight_user", Kind::Double, 250_000, faults)?;
    let project = read_amount(
        alloc,
        values,
        b"weight_project",
        Kind::Double,
        250_000,
        faults,
    )?;
    let job = read_amount(alloc, values, b"weight_job", Kind::Double, 250_000, faults)?;
    Ok((functional, share, user, project, job))
}

fn read_usage_weights(
    alloc: Global,
    values: &[(Text, Text)],
    faults: &mut Option<Refusal>,
) -> Result<Table<Text, u64>, AllocError>
    ensures { Reads result faults.old faults.new
        (setting values.now (codes "usage_weight_list") plain_weights weights_read) }
{
    let fallback = default_weights(alloc)?;
    read_setting(
        alloc,
        values,
        b"usage_weight_list",
        fallback,
        &UsageWeights,
        faults,
    )
}

fn read_last(
    alloc: Global,
    values: &[(Text, Text)],
    faults: &mut Option<Refusal>,
) -> Result<(u64, u64, u64, Table<Text, u64>, u64), AllocError>
    ensures { Reads result faults.old faults.new (last_settings values.now) }
{
    let halftime = read_count(alloc, values, b"halftime", 1_048_575, 168, faults)?;
    let reservations = read_amount(alloc, values, b"max_reservation", Kind::Int, 0, faults)?;
    let duration = read_amount(
        alloc,
        values,
        b"default_duration",
        Kind::Time,
        INFINITY,
        faults,
    )?;
    let weights = read_usage_weights(alloc, values, faults)?;
    let pending = read_amount(
        alloc,
        values,
        b"max_pending_tasks_per_job",
        Kind::Int,
        50,
        faults,
    )?;
    Ok((halftime, reservations, duration, weights, pending))
}

/// The scheduler's settings.
#[tactic(auto, unfolding(ge_model_config::specs::Settings::sched_item, ge_model_rows::specs::Opening::default_sched))]
pub fn read_sched(
    alloc: Global,
    c: &Cluster,
    values: &[(Text, Text)],
    faults: &mut Option<Refusal>,
) -> Result<Item, AllocError>
    ensures { Reads result faults.old faults.new (sched_item c.now values.now) }
{
    let (interval, maxujobs, sort, load_formula) = read_first(alloc, c, values, faults)?;
    let (w_priority, w_urgency, w_ticket, w_waiting, w_deadline) = read_priority_weights(
        alloc, values, faults,
    )?;
    let (functional, share, w_user, w_project, w_job) = read_ticket_weights(alloc, values, faults)?;
    let (halftime, max_reservation, default_duration, weights, max_pending) = read_last(
        alloc, values, faults,
    )?;
    let u_cpu = weight_named(alloc, &weights, b"cpu")?;
    let u_mem = weight_named(alloc, &weights, b"mem")?;
    let u_io = weight_named(alloc, &weights, b"io")?;
    Ok(Item::Sched(Sched {
        interval,
        maxujobs,
        sort,
        load_formula,
        w_priority,
        w_urgency,
        w_ticket,
        w_waiting,
        w_deadline,
        functional,
        share,
        w_user,
        w_project,
        w_job,
        halftime,
        max_reservation,
        default_duration,
        u_cpu,
        u_mem,
        u_io,
        max_pending,
    }))
}
