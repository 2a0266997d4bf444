// What a disk in memory holds now, from its past.
ghost use Rattle.std.specs.Prelude.{◌≡◌, IfOk};
ghost use Rattle.ge_model_journal.specs.Disk.{settled_content};
ghost use Rattle.ge_outside.specs.Steps.{after_steps};
ghost use Rattle.ge_outside.specs.Shown.{shown_content};

use crate::memory_steps::Step;
use crate::showing::Shown;
use std::alloc::{AllocError, Global};

/// What a disk holds that began with some bytes and took steps.
pub fn replay(alloc: Global, start: &[u8], steps: &[Step]) -> Result<Shown, AllocError>
    ensures { IfOk result (λ shown. shown_content shown ≡ after_steps (settled_content start.now) steps.now) }
{
    let mut shown = Shown::settled(alloc, start)?;
    for step in steps {
        shown.take(alloc, step)?;
    }
    Ok(shown)
}
