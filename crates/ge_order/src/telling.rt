// What short rows tell of jobs before their priorities can be told.
ghost use Rattle.std.specs.Prelude.{◌≡◌, ℕ, List as Items, Some, IfOk, map};
ghost use Rattle.ge_collections.specs.Met.{AreFound};
ghost use Rattle.ge_collections.specs.Keyed.{at_number};
ghost use Rattle.ge_job_index.specs.declared.short_row.ShortRow.{ShortRow as Short};
ghost use Rattle.ge_rows.specs.declared.labels.JobFacts.{JobFacts as Facts};
ghost use Rattle.ge_order.specs.Kinds as kind;
ghost use Rattle.ge_order.specs.Standings.{AreUnits};

use crate::asked::{Units, units_of};
use crate::kinds::{Kinds, no_kinds, row_urgency};
use crate::standing::{Standing, Urgent};
use crate::urging::urgency_by;
use ge_collections::{row_at, walk};
use ge_rows::{Cluster, JobFacts, ShortRow};
use std::alloc::{AllocError, Global};
use std::collections::BTreeMap;
use std::collections::btree_map::Iter;

// What the facts of a job tell, where it is known what its request adds.
fn urgent_by(c: &Cluster, now: u64, asked: u128, facts: &JobFacts) -> Urgent
    ensures { result ≡ kind.urgent_by c.now now asked facts.now }
{
    Urgent {
        priority: facts.priority,
        urgency: urgency_by(c, asked, facts.submitted, facts.deadline, now),
    }
}

fn standing_told<'a>(
    c: &Cluster,
    units: Units<'_>,
    rows: &'a BTreeMap<u32, ShortRow<JobFacts>>,
    left: &mut Iter<'a, u32, ShortRow<JobFacts>>,
    kinds: &mut Kinds,
    number: u32,
    now: u64,
) -> Standing
    ensures standing { AreUnits c.now units.entry → AreFound rows.now.entries left.old
        → kind.TellJobs c.now rows.now.entries
        → kind.AreAsked c.now rows.now.entries kinds.old
        → result ≡ kind.told_standing c.now rows.now.entries now number }
    ensures others { AreFound rows.now.entries left.old → AreFound rows.now.entries left.new }
    ensures asked { AreUnits c.now units.entry → AreFound rows.now.entries left.old
        → kind.TellJobs c.now rows.now.entries
        → kind.AreAsked c.now rows.now.entries kinds.old
        → kind.AreAsked c.now rows.now.entries kinds.new }
{
    match row_at(rows, left, number) {
        None => Standing {
            job: number,
            urgent: None,
        },
        Some(row) => {
            let asked = row_urgency(c, units, kinds, number, row);
            Standing {
                job: number,
                urgent: Some(urgent_by(c, now, asked, &row.facts)),
            }
        }
    }
}

/// What is known of these jobs by their short rows.
pub(crate) fn standings_told(
    alloc: Global,
    c: &Cluster,
    rows: &BTreeMap<u32, ShortRow<JobFacts>>,
    jobs: &[u32],
    now: u64,
) -> Result<Vec<Standing>, AllocError>
    ensures { kind.TellJobs c.now rows.now.entries → IfOk result (λ standings. standings.items
        ≡ map (kind.told_standing c.now rows.now.entries now) jobs.now) }
{
    let units = units_of(c);
    let mut kinds = no_kinds();
    let mut left = walk(rows);
    let mut standings = Vec::with_capacity(alloc, jobs.len())?;
    for number in jobs {
        let standing = standing_told(c, units, rows, &mut left, &mut kinds, *number, now);
        standings.push_reserved(standing);
    }
    Ok(standings)
}
