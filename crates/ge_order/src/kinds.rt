// What requests add to urgency, told by short rows or kept for kinds of jobs: a walk meets few kinds, and mostly the same
// ones again.
ghost use Rattle.std.specs.Prelude.{◌≡◌, ◌||◌, ℕ, List as Items, Some, IfSome};
ghost use Rattle.ge_job_index.specs.declared.short_row.ShortRow.{ShortRow as Short};
ghost use Rattle.ge_model_rows.specs.ClusterRows.{Cluster as Rows};
ghost use Rattle.ge_rows.specs.declared.labels.JobFacts.{JobFacts as Facts};
ghost use Rattle.ge_collections.specs.Keyed.{at_number};
ghost use Rattle.ge_order.specs.Kinds.{kind_in, asked_of, SameAsked, AreAsked, TellJobs};
ghost use Rattle.ge_order.specs.Standings.{AreUnits};

use crate::asked::{Units, resources_urgency, sequential_urgency};
use ge_jobs::get;
use ge_rows::{Cluster, JobFacts, ShortRow};

/// How many kinds are kept.
const PLACES: usize = 64;

/// Numbers of kinds with what their requests add, each at the place that its number gives.
pub(crate) type Kinds = [Option<(u32, u128)>; PLACES];

/// What is kept before the first job.
pub(crate) fn no_kinds() -> Kinds
    ensures { (c : Rows) (rows : Items (ℕ × Short Facts)) → AreAsked c rows result }
{
    [None; PLACES]
}

// What the request of a job adds.
fn request_urgency(c: &Cluster, units: Units<'_>, number: u32) -> u128
    ensures { AreUnits c.now units.entry → result ≡ asked_of c.now number }
{
    match get(&c.jobs, number) {
        None => 0,
        Some(job) => resources_urgency(c, units, &job.request),
    }
}

fn of_kind(kept: &Option<(u32, u128)>, kind: u32) -> Option<u128>
    ensures { IfSome result (λ asked. kept.now ≡ Some (kind, asked)) }
{
    match kept {
        Some((known, asked)) if *known == kind => Some(*asked),
        _ => None,
    }
}

// What the request of a job of a kind adds: that of another of its kind, where one is kept.
fn kind_urgency(c: &Cluster, units: Units<'_>, kinds: &mut Kinds, kind: u32, number: u32) -> u128
    ensures asked { (rows : Items (ℕ × Short Facts)) → AreUnits c.now units.entry
        → kind_in rows number ≡ Some kind → AreAsked c.now rows kinds.old
        → result ≡ asked_of c.now number }
    ensures kept { (rows : Items (ℕ × Short Facts)) → AreUnits c.now units.entry
        → kind_in rows number ≡ Some kind → SameAsked c.now rows
        → AreAsked c.now rows kinds.old → AreAsked c.now rows kinds.new }
{
    let place = kind as usize % PLACES;
    match of_kind(&kinds[place], kind) {
        Some(asked) => asked,
        None => {
            let asked = request_urgency(c, units, number);
            kinds[place] = Some((kind, asked));
            asked
        }
    }
}

// Whether what the request of a job adds is looked up.
fn is_looked_up(units: Units<'_>, facts: &JobFacts) -> bool
    ensures { result ≡ (facts.now.parallel || units.entry.others) }
{
    facts.parallel || units.others
}

/// What the request of the job of a short row adds. That of a sequential job isn't looked up where no complex beside slots adds.
pub(crate) fn row_urgency(
    c: &Cluster,
    units: Units<'_>,
    kinds: &mut Kinds,
    number: u32,
    row: &ShortRow<JobFacts>,
) -> u128
    ensures asked { (rows : Items (ℕ × Short Facts)) → AreUnits c.now units.entry
        → at_number rows number ≡ Some row.now → TellJobs c.now rows
        → AreAsked c.now rows kinds.old → result ≡ asked_of c.now number }
    ensures kept { (rows : Items (ℕ × Short Facts)) → AreUnits c.now units.entry
        → at_number rows number ≡ Some row.now → TellJobs c.now rows
        → AreAsked c.now rows kinds.old → AreAsked c.now rows kinds.new }
{
    if is_looked_up(units, &row.facts) {
        kind_urgency(c, units, kinds, row.third, number)
    } else {
        sequential_urgency(units)
    }
}
