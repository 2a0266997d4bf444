// What the resources that a job asks for add to its urgency.
ghost use Rattle.std.specs.Prelude.{◌≡◌, codes};
ghost use Rattle.std.specs.BTreeMap.{is_at};
ghost use Rattle.std.specs.Option.{option_copied};
ghost use Rattle.ge_collections.specs.Keyed.{text_cmp};
ghost use Rattle.ge_model_rows.specs.Complexes.{complex_at as complex_in};
ghost use Rattle.ge_model_order.specs.Urgency as urgencies;
ghost use Rattle.ge_order.specs.Standings.{AreUnits};
ghost use Rattle.ge_order.specs.Standings as standings;

use ge_base::{product_of, sum_of};
use ge_complex::complex_at;
use ge_rows::{
    Cluster, ComplexDef, Kind, PeRequest, PeRow, Request, Table, Text, UrgencySlots, Value,
};

/// What complexes tell of the urgencies of all jobs.
#[derive(Clone, Copy)]
pub(crate) struct Units<'a> {
    /// The row that they have for slots.
    pub(crate) slots: Option<&'a ComplexDef>,
    /// Whether any other complex adds to urgency.
    pub(crate) others: bool,
}

// How many slots are assumed of a range.
fn slots_by(urgency_slots: UrgencySlots, low: u32, high: u32) -> u64
    ensures { result ≡ urgencies.slots_by urgency_slots low high }
{
    match urgency_slots {
        UrgencySlots::Fixed(count) => u64::from(count),
        UrgencySlots::Min => u64::from(low),
        UrgencySlots::Max => u64::from(high),
        UrgencySlots::Avg => (u64::from(low) + u64::from(high)) / 2,
    }
}

fn slots_under(pe: Option<&PeRow>, asked: &PeRequest) -> u64
    ensures { result ≡ urgencies.slots_under (option_copied pe.entry) asked.now }
{
    match pe {
        None => 1,
        Some(pe) => slots_by(pe.urgency_slots, asked.low, asked.high),
    }
}

fn slots_assumed(c: &Cluster, pe: &Option<PeRequest>) -> u64
    ensures { result ≡ urgencies.slots_assumed c.now pe.now }
{
    match pe {
        None => 1,
        Some(asked) => slots_under(c.pes.get(&asked.name), asked),
    }
}

// A DOUBLE counts in ones.
fn in_ones(kind: Kind, amount: u128) -> u128
    ensures { result ≡ urgencies.in_ones kind amount }
{
    match kind {
        Kind::Double => amount / 1_000_000,
        _ => amount,
    }
}

fn value_urgency(complex: &ComplexDef, slots: u64, value: &Value) -> u128
    ensures { result ≡ urgencies.value_urgency complex.now slots value.now }
{
    let urgency = u128::from(complex.urgency);
    match value {
        Value::Amount(amount) => in_ones(
            complex.kind,
            product_of(product_of(urgency, u128::from(slots)), u128::from(*amount)),
        ),
        Value::Flag(_) => urgency,
        Value::Word(_) => urgency,
    }
}

fn resource_urgency(c: &Cluster, slots: u64, name: &Text, value: &Value) -> u128
    ensures { result ≡ urgencies.resource_urgency c.now slots (name.now, value.now) }
{
    match complex_at(c, name) {
        None => 0,
        Some(complex) => value_urgency(complex, slots, value),
    }
}

fn is_slots(name: &Text) -> bool
    ensures { result ≡ is_at (text_cmp (codes "slots")) name.now }
{
    b"slots".as_slice().cmp(name.bytes()).is_eq()
}

// What is asked for beside slots.
fn others_urgency(c: &Cluster, slots: u64, asked: &Table<Text, Value>) -> u128
    ensures { result ≡ standings.others_urgency c.now slots asked.now }
{
    let mut total = 0;
    for (name, value) in asked.iter() {
        if !is_slots(name) {
            total = sum_of(total, resource_urgency(c, slots, name, value));
        }
    }
    total
}

// The same. At most sites no complex beside slots adds to urgency, and then nothing is looked up.
fn beside_slots(c: &Cluster, units: Units<'_>, slots: u64, asked: &Table<Text, Value>) -> u128
    ensures { AreUnits c.now units.entry
        → result ≡ standings.others_urgency c.now slots asked.now }
{
    if units.others {
        others_urgency(c, slots, asked)
    } else {
        0
    }
}

// What each job has, which asks for one of slots.
fn slot_urgency(slots: u64, unit: Option<&ComplexDef>) -> u128
    ensures { result ≡ standings.slot_urgency slots (option_copied unit.entry) }
{
    match unit {
        None => 0,
        Some(complex) => value_urgency(complex, slots, &Value::Amount(1)),
    }
}

// The row that complexes have for slots.
fn slots_complex(c: &Cluster) -> Option<&ComplexDef>
    ensures { option_copied result ≡ complex_in c.now (codes "slots") }
{
    for (name, complex) in c.complexes.iter() {
        if is_slots(name) {
            return Some(complex);
        }
    }
    None
}

fn adds_beside(name: &Text, complex: &ComplexDef) -> bool
    ensures { result ≡ standings.adds_beside (name.now, complex.now) }
{
    complex.urgency != 0 && !is_slots(name)
}

// Whether any complex beside slots adds to urgency.
fn others_add(c: &Cluster) -> bool
    ensures { result ≡ standings.others_add c.now }
{
    for (name, complex) in c.complexes.iter() {
        if adds_beside(name, complex) {
            return true;
        }
    }
    false
}

/// What complexes tell of all urgencies, found out once for all jobs of a walk.
pub(crate) fn units_of(c: &Cluster) -> Units<'_>
    ensures { AreUnits c.now result }
{
    Units {
        slots: slots_complex(c),
        others: others_add(c),
    }
}

/// What resources add to the urgency of a sequential job, where no complex beside slots adds any.
pub(crate) fn sequential_urgency(units: Units<'_>) -> u128
    ensures { result ≡ standings.sequential_urgency (option_copied units.entry.slots) }
{
    sum_of(0, slot_urgency(1, units.slots))
}

/// What all resources add that a job asks for, given what complexes tell.
#[tactic(auto, using(crate::proofs::Slots::slots_apart))]
pub(crate) fn resources_urgency(c: &Cluster, units: Units<'_>, request: &Request) -> u128
    ensures { AreUnits c.now units.entry → result ≡ urgencies.resources_urgency c.now request.now }
{
    request.asked.orderly();
    let slots = slots_assumed(c, &request.pe);
    let others = beside_slots(c, units, slots, &request.asked);
    sum_of(others, slot_urgency(slots, units.slots))
}
