// The events of a script, some at a time.
ghost use Rattle.std.specs.Prelude.{◌≡◌, ◌⊎◌, ◌+◌, ◌≤◌, length, IfOk, OnOk, IsErrOf};
ghost use Rattle.ge_limits.specs.Limits.{script_bytes};
ghost use Rattle.ge_outside.specs.Faults.{Rose};
ghost use Rattle.ge_script.specs.Pieces.{coming, given_count, read_count, total_count, IsOver};
ghost use Rattle.ge_top.specs.NextEvents.{GivesSome, HasNoMore};

use ge_outside::Source;
use ge_rows::{Event, List};
use ge_script::{Script, ScriptFault};
use std::alloc::Global;

/// The next events of a script, at most so many. They are fewer only where the script has no more. After a fault the script
/// is given up.
pub(crate) fn next_batch<S: Source>(
    alloc: Global,
    script: &mut Script,
    input: &mut S,
    most: usize,
) -> Result<List<Event>, ScriptFault>
    requires { IsOver script.old (S.rest input.old) }
    ensures gives { IfOk result (λ events. GivesSome (coming script.old (S.rest input.old))
        (coming script.new (S.rest input.new)) events) }
    ensures few { IfOk result (λ events. length events ≤ most) }
    ensures all { IfOk result (λ events. (length events ≡ most)
        ⊎ HasNoMore (coming script.new (S.rest input.new)) (S.rest input.new)) }
    ensures goes_on { IfOk result (λ events. length events ≡ most
        → given_count script.old + most ≤ given_count script.new) }
    ensures over { OnOk result (IsOver script.new (S.rest input.new)) }
    ensures total { OnOk result
        (total_count script.new (S.rest input.new) ≡ total_count script.old (S.rest input.old)) }
    ensures long { IsErrOf result ScriptFault.Long → script_bytes ≤ read_count script.new }
    ensures long_total { IsErrOf result ScriptFault.Long
        → total_count script.new (S.rest input.new) ≡ total_count script.old (S.rest input.old) }
    ensures later { S.read_faults input.old ≤ S.read_faults input.new }
    ensures fault { IsErrOf result ScriptFault.Read
        → Rose (S.read_faults input.old) (S.read_faults input.new) }
{
    let mut events = List::new(alloc);
    'taking: while events.len() < most {
        let event = match script.next(input) {
            Ok(Some(event)) => event,
            Ok(None) => return Ok(events),
            Err(fault) => return Err(fault),
        };
        events.push(event)?;
    }
    Ok(events)
}
