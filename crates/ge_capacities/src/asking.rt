//! What a job asks of a limit for one slot.

ghost use Rattle.std.specs.Prelude.{◌≡◌, false};
ghost use Rattle.std.specs.Option.{option_copied};
ghost use Rattle.ge_collections.specs.Keyed.{text_eq};
ghost use Rattle.ge_model_place.specs.Opening.{slots_name};
ghost use Rattle.ge_model_place.specs.Limits.{is_job, is_per_job, per_slot};
ghost use Rattle.ge_capacities.specs.Found.{amount_or_default};

use crate::capacities::is_slots;
use ge_complex::{amount_in, complex_at, is_consumed};
use ge_rows::{Cluster, ComplexDef, Consumable, Job, Text, Value};

/// What is asked of a limit for one slot, and whether all grants of a job ask it once.
#[derive(Clone, Copy)]
pub(crate) struct Asked {
    pub(crate) amount: u64,
    pub(crate) once: bool,
}

/// What each slot asks of what counts slots.
pub(crate) const ONE_SLOT: Asked = Asked {
    amount: 1,
    once: false,
};

fn is_asked_once(consumable: Consumable) -> bool
    ensures { result ≡ is_job consumable }
{
    match consumable {
        Consumable::No => false,
        Consumable::Yes => false,
        Consumable::Job => true,
    }
}

fn asked_amount(complex: &ComplexDef, asked: Option<&Value>) -> u64
    ensures { result ≡ amount_or_default complex.now (option_copied asked.entry) }
{
    match asked {
        Some(value) => amount_in(value),
        None => amount_in(&complex.fallback),
    }
}

/// What a job asks for one slot of a name that isn't that of slots: nothing of what is no consumable, else what it requests or
/// the complex's default (complex, consumable and default).
#[tactic(auto, using(crate::proofs::Gathered::asked_is))]
pub(crate) fn asked_of_other(cluster: &Cluster, job: &Job, name: &Text) -> Asked
    requires { text_eq name.now slots_name ≡ false }
    ensures amount { result.amount ≡ per_slot cluster.now job.now name.now }
    ensures once { result.once ≡ is_per_job cluster.now name.now }
{
    match complex_at(cluster, name) {
        Some(complex) => {
            let once = is_asked_once(complex.consumable);
            if is_consumed(complex.consumable) {
                let amount = asked_amount(complex, job.request.asked.get(name));
                Asked { amount, once }
            } else {
                Asked { amount: 0, once }
            }
        }
        None => Asked {
            amount: 0,
            once: false,
        },
    }
}

/// What a job asks of a name for one slot: one of slots.
pub(crate) fn asked_of(cluster: &Cluster, job: &Job, name: &Text) -> Asked
    ensures amount { result.amount ≡ per_slot cluster.now job.now name.now }
    ensures once { result.once ≡ is_per_job cluster.now name.now }
{
    if is_slots(name) {
        return ONE_SLOT;
    }
    asked_of_other(cluster, job, name)
}
