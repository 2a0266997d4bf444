// Kinds of jobs: of jobs of one kind tasks can start alike.
ghost use Rattle.std.specs.Prelude.{◌≡◌, []};
ghost use Rattle.ge_attempts.specs.KindNotes.{TellKinds};

use ge_rows::{Cluster, JobFacts, ShortRow};
use std::collections::BTreeMap;

/// What tells the kinds of jobs: their short rows, by number.
pub type Kinds = BTreeMap<u32, ShortRow<JobFacts>>;

/// The short rows of jobs; none of them where the table keeps none.
pub fn kinds_of<'a>(cluster: &'a Cluster, none: &'a Kinds) -> &'a Kinds
    requires { none.now.entries ≡ [] }
    ensures { TellKinds cluster.now.jobs result.now.entries }
{
    match cluster.jobs.shorts() {
        Some(shorts) => shorts.rows,
        None => none,
    }
}
