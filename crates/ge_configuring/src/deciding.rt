// What every change of the configuration has in common.
ghost use Rattle.std.specs.Prelude.{◌≡◌, IfOk};
ghost use Rattle.ge_model_core.specs.Answers.{changed, done_lines};
ghost use Rattle.ge_model_core.specs.Configuring.{manager_faults};
ghost use Rattle.ge_model_core.specs.Refusals.{unless_refused};
ghost use Rattle.ge_model_rows.specs.Faults.{first_fault};

use ge_answers::{done, refuse};
use ge_base::Refusal;
use ge_pieces::note;
use ge_rows::{Change, Cluster, Event, Planned};
use ge_site::is_manager;
use std::alloc::{AllocError, Global};

/// What refuses a change by its user alone: `NotPermitted`, where the user is no manager.
pub(crate) fn role_fault(c: &Cluster, e: &Event) -> Option<Refusal>
    ensures { result ≡ first_fault (manager_faults c.now e.now) }
{
    let mut faults = None;
    note(&mut faults, !is_manager(c, &e.user), Refusal::NotPermitted);
    faults
}

/// The plan of a change that something refuses or nothing does.
pub(crate) fn decide(
    alloc: Global,
    e: &Event,
    fault: Option<Refusal>,
    change: Change,
) -> Result<Planned, AllocError>
    ensures { IfOk result (λ planned. planned
        ≡ unless_refused fault (changed e.now change done_lines)) }
{
    match fault {
        Some(refusal) => refuse(alloc, refusal),
        None => done(alloc, e, change),
    }
}
