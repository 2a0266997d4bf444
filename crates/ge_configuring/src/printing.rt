// Objects shown.
ghost use Rattle.std.specs.Prelude.{◌≡◌, IfOk};
ghost use Rattle.ge_model_core.specs.Configuring.{print_plan};

use crate::finding::item_at;
use ge_answers::{refuse, show};
use ge_base::Refusal;
use ge_printing::print_item;
use ge_rows::{Cluster, Key, Planned};
use std::alloc::{AllocError, Global};

/// The plan of `qconf -s` and its kin: the lines of an object. Anybody may ask.
///
/// `NoSuchObject` comes for an object that isn't there. See the manual page qconf.
#[tactic(auto, unfolding(ge_model_core::specs::Configuring::print_plan))]
pub fn plan_print(alloc: Global, c: &Cluster, key: &Key) -> Result<Planned, AllocError>
    ensures { IfOk result (λ planned. planned ≡ print_plan c.now key.now) }
{
    match item_at(alloc, c, key.kind, &key.name)? {
        None => refuse(alloc, Refusal::NoSuchObject),
        Some(item) => {
            let lines = print_item(alloc, c, &item)?;
            Ok(show(lines))
        }
    }
}
