//! Refusals gathered: of those whose conditions hold, the one that is tried first. A reader keeps this one alone.

ghost use Rattle.std.specs.Prelude.{◌≡◌};
ghost use Rattle.ge_model_rows.specs.Faults.{turn_of, earlier_fault, when, after_faults, sooner};

use ge_base::Refusal;

fn turn(refusal: Refusal) -> u8
    ensures { result ≡ turn_of refusal }
{
    match refusal {
        Refusal::TooLong => 0,
        Refusal::Syntax => 1,
        Refusal::TimeBack => 2,
        Refusal::NoSuchObject => 3,
        Refusal::NotPermitted => 4,
        Refusal::Exists => 5,
        Refusal::InUse => 6,
        Refusal::BadValue => 7,
        Refusal::NotRequestable => 8,
        Refusal::Cycle => 9,
        Refusal::Limit => 10,
        Refusal::StaleReport => 11,
        Refusal::NoMemory => 12,
    }
}

/// The one of two that is tried first.
pub fn earlier(first: Option<Refusal>, refusal: Refusal) -> Option<Refusal>
    ensures { result ≡ earlier_fault first refusal }
{
    match first {
        None => Some(refusal),
        Some(first) => {
            if turn(refusal) < turn(first) {
                Some(refusal)
            } else {
                Some(first)
            }
        }
    }
}

/// Of what answers to one part and what answers to another, the one that is tried first. `proofs/FaultLaws` of
/// `ge_model_rows` says that this is what answers to both parts together.
pub fn sooner_of(first: Option<Refusal>, second: Option<Refusal>) -> Option<Refusal>
    ensures { result ≡ sooner first second }
{
    match second {
        None => first,
        Some(refusal) => earlier(first, refusal),
    }
}

/// Notes one more refusal, where its condition holds.
pub fn note(faults: &mut Option<Refusal>, holds: bool, refusal: Refusal)
    ensures { faults.new ≡ after_faults faults.old (when holds refusal) }
{
    if holds {
        *faults = earlier(*faults, refusal);
    }
}
