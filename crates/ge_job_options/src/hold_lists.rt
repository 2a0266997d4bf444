//! The predecessors that `-hold_jid` and `-hold_jid_ad` name (qsub), and what refuses them.

ghost use Rattle.std.specs.Prelude.{◌≡◌, ◌||◌, ◌==◌, not, true, false, IfOk, OnOk, IfNone, IfSome, map, filter, fold, flat_map, nat_le, MatchOption};
ghost use Rattle.std.specs.List.{list_any};
ghost use Rattle.std.specs.Option.{option_copied};
ghost use Rattle.ge_collections.specs.Keyed.{text_eq, at_number};
ghost use Rattle.ge_model_rows.specs.Faults.{after_faults};
ghost use Rattle.ge_model_rows.specs.Pieces.{number_of, with_one_number};
ghost use Rattle.ge_model_core.specs.HoldLists.{live_number, named_by, number_in, is_named_by, is_unknown_number, has_other_range, range_faults};
ghost use Rattle.ge_commands.specs.Shown.{range_shown};
ghost use Rattle.ge_job_options.specs.Listing.{Knows};
ghost use Rattle.ge_job_options.specs.Holding.{named_shown, jobs_of_owner, numbers_matching, unknown_faults, array_faults};
ghost use Rattle.ge_job_options.specs.Holding as holding;

use crate::numbers::{Listed, list_once, none_listed, numbers_of};
use crate::option_values::{option_word, wide_worth};
use crate::owners::{Names, own_jobs};
use ge_base::Refusal;
use ge_commands::WideRange;
use ge_pieces::{has_digits, note, slices_at};
use ge_rows::{Cluster, Job, List, Options, Text, job_at};
use ge_text::matches;
use std::alloc::{AllocError, Global};
use std::marker::Model;

/// The jobs of an owner, found by their marks where the first pattern comes: each pattern goes through these alone. Contracts
/// see the cluster and the owner.
#[derive(Drop)]
struct OwnJobs<'a> {
    cluster: &'a Cluster,
    owner: &'a Text,
    named: Option<Names<'a>>,
}

impl<'a> Model for OwnJobs<'a> {
    ghost use Rattle.std.specs.Prelude.{◌≡◌, List as Items, ℕ};
    ghost use Rattle.std.specs.Option.{ForSome};
    ghost use Rattle.ge_model_rows.specs.ClusterRows.{Cluster as ClusterRow};
    ghost use Rattle.ge_job_options.specs.Holding.{named_shown, jobs_of_owner};

    ghost Value = { ClusterRow × Items ℕ };

    ghost view = { λ o. (o.cluster.now, o.owner.now) };

    ghost invariant = { λ o. ForSome o.named (λ named. named_shown named.entries
        ≡ jobs_of_owner o.cluster.now.jobs o.owner.now) };
}

// Lists those of some jobs whose names a pattern stands for.
fn list_matching(listed: &mut Listed, named: &Names<'_>, pattern: &[u8]) -> Result<(), AllocError>
    requires { Knows listed.old }
    ensures numbers { OnOk result (listed.new.numbers
        ≡ fold with_one_number listed.old.numbers
        (numbers_matching pattern.now (named_shown named.now.entries))) }
    ensures knows { OnOk result (Knows listed.new) }
{
    for (number, name) in named.iter() {
        if matches(pattern, name.bytes()) {
            list_once(listed, *number)?;
        }
    }
    Ok(())
}

impl<'a> OwnJobs<'a> {
    fn new(cluster: &'a Cluster, owner: &'a Text) -> OwnJobs<'a>
        ensures { result ≡ (cluster.now, owner.now) }
    {
        OwnJobs {
            cluster,
            owner,
            named: None,
        }
    }

    // Lists the jobs of the owner whose names a pattern stands for.
    fn list_named(
        &mut self,
        alloc: Global,
        listed: &mut Listed,
        pattern: &[u8],
    ) -> Result<(), AllocError>
        requires { Knows listed.old }
        ensures numbers { OnOk result (listed.new.numbers
            ≡ fold with_one_number listed.old.numbers
            (numbers_matching pattern.now (jobs_of_owner self.old.0.jobs self.old.1))) }
        ensures knows { OnOk result (Knows listed.new) }
        ensures same { self.new ≡ self.old }
    {
        if self.named.is_none() {
            self.named = Some(own_jobs(alloc, &self.cluster.jobs, self.owner)?);
        }
        match &self.named {
            Some(named) => list_matching(listed, named, pattern),
            None => Err(AllocError),
        }
    }

    // The same in the words of the definition.
    #[tactic(auto, using(crate::proofs::Named::named_listed))]
    fn list_pattern(
        &mut self,
        alloc: Global,
        listed: &mut Listed,
        pattern: &[u8],
    ) -> Result<(), AllocError>
        requires { Knows listed.old }
        ensures numbers { OnOk result (listed.new.numbers
            ≡ fold with_one_number listed.old.numbers
            (map number_in (filter (is_named_by self.old.1 pattern.now) self.old.0.jobs))) }
        ensures knows { OnOk result (Knows listed.new) }
        ensures same { self.new ≡ self.old }
    {
        self.list_named(alloc, listed, pattern)
    }

    // Lists a job, if it lives.
    fn list_live(&self, listed: &mut Listed, number: u32) -> Result<(), AllocError>
        requires { Knows listed.old }
        ensures numbers { OnOk result (listed.new.numbers
            ≡ fold with_one_number listed.old.numbers (live_number self.now.0 number)) }
        ensures knows { OnOk result (Knows listed.new) }
    {
        if self.cluster.jobs.get(&number).is_some() {
            list_once(listed, number)?;
        }
        Ok(())
    }

    // The number that digits are, where a job has had it.
    fn number_had(&self, digits: &[u8]) -> Option<u32>
        ensures none { IfNone result ((number_of digits.now == 0
            || nat_le self.now.0.next_job (number_of digits.now)) ≡ true) }
        ensures some { IfSome result (λ number. (number ≡ number_of digits.now)
            × ((number_of digits.now == 0 || nat_le self.now.0.next_job (number_of digits.now))
            ≡ false)) }
    {
        let number = wide_worth(digits);
        if number == 0 || number >= u128::from(self.cluster.next_job) {
            return None;
        }
        Some(number as u32)
    }

    // Lists what one item names, unless it is a number that no job has had.
    fn list_item(
        &mut self,
        alloc: Global,
        listed: &mut Listed,
        item: &[u8],
    ) -> Result<bool, AllocError>
        requires { Knows listed.old }
        ensures known { IfOk result (λ known. known ≡ not (is_unknown_number self.old.0 item.now)) }
        ensures numbers { IfOk result (λ known. known ≡ true → listed.new.numbers
            ≡ fold with_one_number listed.old.numbers (named_by self.old.0 self.old.1 item.now)) }
        ensures knows { IfOk result (λ known. known ≡ true → Knows listed.new) }
        ensures same { self.new ≡ self.old }
    {
        if !has_digits(item) {
            self.list_pattern(alloc, listed, item)?;
            return Ok(true);
        }
        match self.number_had(item) {
            None => Ok(false),
            Some(number) => {
                self.list_live(listed, number)?;
                Ok(true)
            }
        }
    }
}

// Lists what the items name, up to the first that is a number that no job has had; whether there is none.
fn list_items(
    alloc: Global,
    own: &mut OwnJobs,
    listed: &mut Listed,
    items: &[&[u8]],
) -> Result<bool, AllocError>
    requires { Knows listed.old }
    ensures known { IfOk result (λ known. known
        ≡ not (list_any (is_unknown_number own.old.0) (map (λ i. i.now) items.now))) }
    ensures numbers { IfOk result (λ known. known ≡ true → listed.new.numbers
        ≡ fold with_one_number listed.old.numbers
        (flat_map (named_by own.old.0 own.old.1) (map (λ i. i.now) items.now))) }
{
    for item in items {
        if !own.list_item(alloc, listed, item)? {
            return Ok(false);
        }
    }
    Ok(true)
}

/// The jobs that a hold list names, for a job of this owner: a number its job while it lives, a pattern the live jobs of the
/// owner, by number; each once, at its first place. Nothing where one of its numbers is one that no job has had (qsub,
/// -hold_jid).
pub(crate) fn known_predecessors(
    alloc: Global,
    c: &Cluster,
    owner: &Text,
    word: &[u8],
) -> Result<Option<List<u32>>, AllocError>
    ensures { IfOk result (λ known. known ≡ holding.known_predecessors c.now owner.now word.now) }
{
    let items = slices_at(alloc, b',', word)?;
    let mut own = OwnJobs::new(c, owner);
    let mut listed = none_listed(alloc);
    if list_items(alloc, &mut own, &mut listed, items.as_slice())? {
        Ok(Some(numbers_of(listed)))
    } else {
        Ok(None)
    }
}

/// The predecessors of an option, where the command has it.
pub(crate) fn holds_given(
    alloc: Global,
    c: &Cluster,
    options: &Options,
    owner: &Text,
    name: &[u8],
) -> Result<Option<Option<List<u32>>>, AllocError>
    ensures { IfOk result (λ holds. holds ≡ holding.holds_given c.now options.now.items owner.now
        name.now) }
{
    match option_word(options, name) {
        None => Ok(None),
        Some(word) => Ok(Some(known_predecessors(alloc, c, owner, word)?)),
    }
}

/// Notes a hold list with a number that no job has had: `NoSuchObject`.
pub(crate) fn note_holds(faults: &mut Option<Refusal>, holds: &Option<Option<List<u32>>>)
    ensures { faults.new ≡ after_faults faults.old (unknown_faults holds.now) }
{
    if let Some(known) = holds {
        note(faults, known.is_none(), Refusal::NoSuchObject);
    }
}

// Whether a job has another range of tasks; one that isn't there has none.
fn is_other_range(tasks: &WideRange, job: Option<&Job>) -> bool
    ensures { result ≡ has_other_range (range_shown tasks.now) (option_copied job.entry) }
{
    match job {
        None => false,
        Some(job) => {
            !(u128::from(job.span.first) == tasks.low
                && u128::from(job.span.last) == tasks.high
                && u128::from(job.span.step) == tasks.by)
        }
    }
}

fn has_range_beside(c: &Cluster, tasks: &WideRange, number: u32) -> bool
    ensures { result ≡ has_other_range (range_shown tasks.now) (at_number c.now.jobs number) }
{
    is_other_range(tasks, job_at(&c.jobs, number))
}

fn has_other_ranges(c: &Cluster, tasks: &WideRange, numbers: &[u32]) -> bool
    ensures { result ≡ list_any (λ number. has_other_range (range_shown tasks.now)
        (at_number c.now.jobs number)) numbers.now }
{
    numbers
        .iter()
        .any(|number| has_range_beside(c, tasks, *number))
}

fn note_ranges(c: &Cluster, tasks: &WideRange, faults: &mut Option<Refusal>, numbers: &[u32])
    ensures { faults.new ≡ after_faults faults.old (range_faults c.now
        (range_shown tasks.now) numbers.now) }
{
    note(
        faults,
        has_other_ranges(c, tasks, numbers),
        Refusal::BadValue,
    );
}

/// Notes array predecessors one of whose numbers no job has had, `NoSuchObject`, or one of which has another range of tasks:
/// `BadValue`.
pub(crate) fn note_array_holds(
    c: &Cluster,
    tasks: &WideRange,
    faults: &mut Option<Refusal>,
    holds: &Option<Option<List<u32>>>,
)
    ensures { faults.new ≡ after_faults faults.old (array_faults c.now
        (range_shown tasks.now) holds.now) }
{
    match holds {
        None => {}
        Some(None) => note(faults, true, Refusal::NoSuchObject),
        Some(Some(numbers)) => note_ranges(c, tasks, faults, numbers.items()),
    }
}
