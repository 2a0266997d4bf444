//! Grants in words: where a task runs, and with how many slots.

ghost use Rattle.std.specs.Prelude.{◌≡◌, ◌++◌, IfOk, OnOk, codes, decimal, flat_map, map};
ghost use Rattle.ge_model_report.specs.Grants.{grant_text, granted_slots, grants_text, instance_text};
ghost use Rattle.ge_model_report.specs.JobLines.{first_instance_text};

use ge_base::sum_of;
use ge_printing::append_decimal;
use ge_rows::{Grant, InstanceId, Text};
use std::alloc::{AllocError, Global};

/// Room for an instance or a grant, in bytes; a longer text grows.
const ROOM: usize = 32;

fn append_instance(text: &mut Vec<u8>, at: &InstanceId) -> Result<(), AllocError>
    ensures { OnOk result (text.new.items ≡ text.old.items ++ instance_text at.now) }
{
    text.extend_from_slice(at.queue.bytes())?;
    text.push(b'@')?;
    text.extend_from_slice(at.host.bytes())
}

/// A queue instance, as `queue@host`.
pub fn instance_text(alloc: Global, at: &InstanceId) -> Result<Text, AllocError>
    ensures { IfOk result (λ text. text ≡ instance_text at.now) }
{
    let mut text = Vec::with_capacity(alloc, ROOM)?;
    append_instance(&mut text, at)?;
    Ok(Text::from_vec(text))
}

fn append_grant(text: &mut Vec<u8>, grant: &Grant) -> Result<(), AllocError>
    ensures { OnOk result (text.new.items ≡ text.old.items ++ grant_text grant.now) }
{
    append_instance(text, &grant.at)?;
    text.push(b'=')?;
    append_decimal(text, u128::from(grant.slots))
}

fn append_next(text: &mut Vec<u8>, grant: &Grant) -> Result<(), AllocError>
    ensures { OnOk result (text.new.items
        ≡ text.old.items ++ (codes "," ++ grant_text grant.now)) }
{
    text.push(b',')?;
    append_grant(text, grant)
}

fn append_others(text: &mut Vec<u8>, grants: &[Grant]) -> Result<(), AllocError>
    ensures { OnOk result (text.new.items
        ≡ text.old.items ++ flat_map (λ next. codes "," ++ next) (map grant_text grants.now)) }
{
    for grant in grants {
        append_next(text, grant)?;
    }
    Ok(())
}

/// Puts grants as `queue@host=slots`, joined by commas, at the end of a line.
pub fn append_grants(line: &mut Vec<u8>, grants: &[Grant]) -> Result<(), AllocError>
    ensures { OnOk result (line.new.items ≡ line.old.items ++ grants_text grants.now) }
{
    let [first, others @ ..] = grants else {
        return Ok(());
    };
    append_grant(line, first)?;
    append_others(line, others)
}

/// Grants as `queue@host=slots`, joined by commas.
pub fn grants_text(alloc: Global, grants: &[Grant]) -> Result<Text, AllocError>
    ensures { IfOk result (λ text. text ≡ grants_text grants.now) }
{
    let mut text = Vec::with_capacity(alloc, ROOM)?;
    append_grants(&mut text, grants)?;
    Ok(Text::from_vec(text))
}

/// Where the first grant is, or `-` where there is none.
pub(crate) fn first_instance(alloc: Global, grants: &[Grant]) -> Result<Text, AllocError>
    ensures { IfOk result (λ text. text ≡ first_instance_text grants.now) }
{
    match grants {
        [] => Text::from_bytes(alloc, b"-"),
        [grant, ..] => instance_text(alloc, &grant.at),
    }
}

/// The slots of all grants.
pub(crate) fn slots_of(grants: &[Grant]) -> u128
    ensures { result ≡ granted_slots grants.now }
{
    let mut slots: u128 = 0;
    for grant in grants {
        slots = sum_of(slots, u128::from(grant.slots));
    }
    slots
}
