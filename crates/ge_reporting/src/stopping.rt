// What managers alone may do, and the plan of qconf -km.
ghost use Rattle.std.specs.Prelude.{◌≡◌, true, IfOk};
ghost use Rattle.ge_model_rows.specs.Faults.{after_faults, first_fault};
ghost use Rattle.ge_model_core.specs.Configuring.{manager_faults};
ghost use Rattle.ge_model_core.specs.Reports.{stop_plan};
ghost use Rattle.ge_model_core.specs.Answers.{shown, done_lines};

use ge_answers::{one_line, refuse};
use ge_base::Refusal;
use ge_pieces::note;
use ge_rows::{Cluster, Event, Planned, Reply, Text};
use ge_site::is_manager;
use std::alloc::{AllocError, Global};

/// Notes that the user is no manager.
pub(crate) fn note_manager(cluster: &Cluster, e: &Event, faults: &mut Option<Refusal>)
    ensures { faults.new ≡ after_faults faults.old (manager_faults cluster.now e.now) }
{
    let lacks_rights = !is_manager(cluster, &e.user);
    note(faults, lacks_rights, Refusal::NotPermitted);
}

fn stop(alloc: Global) -> Result<Planned, AllocError>
    ensures { IfOk result (λ planned. planned ≡ record (shown done_lines) { stop = true }) }
{
    let lines = one_line(alloc, Text::from_bytes(alloc, b"done")?)?;
    Ok(Planned {
        entry: None,
        reply: Reply { code: 0, lines },
        stop: true,
    })
}

/// The plan of `qconf -km`: the master stops. `NotPermitted` comes where the user is no manager. See the manual page qconf.
#[tactic(auto, unfolding(ge_model_core::specs::Reports::stop_plan))]
pub fn plan_stop(alloc: Global, cluster: &Cluster, e: &Event) -> Result<Planned, AllocError>
    ensures { IfOk result (λ planned. planned ≡ stop_plan cluster.now e.now) }
{
    let mut faults = None;
    note_manager(cluster, e, &mut faults);
    match faults {
        Some(refusal) => refuse(alloc, refusal),
        None => stop(alloc),
    }
}
