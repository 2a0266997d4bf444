// Numbers, each once.
ghost use Rattle.std.specs.Prelude.{◌≡◌, IfOk, OnOk};
ghost use Rattle.ge_model_rows.specs.Pieces.{with_one_number, each_number_once};
ghost use Rattle.ge_deleting.specs.Once.{HasMet};

use ge_rows::List;
use std::alloc::{AllocError, Global};
use std::collections::BTreeSet;

// One more number, unless it was met.
fn put(met: &mut BTreeSet<u32>, once: &mut List<u32>, number: u32) -> Result<(), AllocError>
    requires { HasMet met.old once.old }
    ensures once { OnOk result (once.new ≡ with_one_number once.old number) }
    ensures met { OnOk result (HasMet met.new once.new) }
{
    if met.insert(number)? {
        once.push(number)?;
    }
    Ok(())
}

/// Numbers, each at its first place. Whether a number was met is looked up in a set.
pub fn each_once(alloc: Global, numbers: &[u32]) -> Result<List<u32>, AllocError>
    ensures { IfOk result (λ once. once ≡ each_number_once numbers.now) }
{
    let mut met = BTreeSet::new(alloc);
    let mut once = List::new(alloc);
    for number in numbers {
        put(&mut met, &mut once, *number)?;
    }
    Ok(once)
}
