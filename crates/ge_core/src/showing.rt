// The plan of qstat.
ghost use Rattle.std.specs.Prelude.{◌≡◌, IfOk};
ghost use Rattle.std.specs.Prelude.{[]};
ghost use Rattle.ge_model_core.specs.Answers.{shown};
ghost use Rattle.ge_model_core.specs.Showing.{show_plan};
ghost use Rattle.ge_model_report.specs.Listing.{listing_of};

use ge_answers::{refuse, show};
use ge_base::Refusal;
use ge_dispatching::priorities;
use ge_listing::list;
use ge_rows::{Cluster, Event, List, Listing, Planned, Prio};
use std::alloc::{AllocError, Global};

fn show_list(
    alloc: Global,
    c: &Cluster,
    e: &Event,
    what: &Listing,
    prios: &List<Prio>,
) -> Result<Planned, AllocError>
    ensures { IfOk result (λ planned. planned ≡ shown
        (listing_of c.now what.now e.now.moment prios.now)) }
{
    Ok(show(list(alloc, c, what, e.moment, prios.items())?))
}

/// The plan of qstat: NoSuchObject for one job that doesn't live.
#[tactic(auto, unfolding(ge_model_core::specs::Showing::show_plan))]
pub(crate) fn plan_list(
    alloc: Global,
    c: &Cluster,
    e: &Event,
    what: &Listing,
) -> Result<Planned, AllocError>
    ensures { IfOk result (λ planned. planned ≡ show_plan c.now e.now what.now) }
{
    match what {
        Listing::One(number) => {
            if c.jobs.get(number).is_none() {
                return refuse(alloc, Refusal::NoSuchObject);
            }
            show_list(alloc, c, e, what, &List::new(alloc))
        }
        Listing::Prios => {
            let prios = priorities(alloc, c, e.moment)?;
            show_list(alloc, c, e, what, &prios)
        }
        Listing::Queues => show_list(alloc, c, e, what, &List::new(alloc)),
        Listing::All(_) => show_list(alloc, c, e, what, &List::new(alloc)),
    }
}
