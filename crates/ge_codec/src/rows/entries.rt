// Entries.
ghost use Rattle.std.specs.Prelude.{◌≤◌, ◌<◌, length, IfOk};
ghost use Rattle.ge_model_codec.specs.Reading.{ReadsAs};
ghost use Rattle.ge_model_codec.specs.Entries.{change_at, first_changes_code};

use crate::canon::{Canon, Format, Format1, Format2};
use crate::pairs::{Fields, put_variant};
use crate::texts::take_tag;
use ge_model_codec::TakeFault;
use ge_rows::{
    Advance, Change, Entry, Item, JobRow, Key, List, Own, Patch, Pick, Request, Start, Table,
    TaskSet, Text, Value,
};
use std::alloc::{AllocError, Global};

type PickParts = (u32, Option<TaskSet>);

impl Canon for Pick {
    ghost use Rattle.ge_model_codec.specs.Entries.{pick_code};
    ghost use Rattle.ge_codec.specs.EntryLaws.{pick_canonical};

    ghost code = { pick_code };

    ghost canonical = { pick_canonical };

    fn put(&self, out: &mut Text) -> Result<(), AllocError> {
        (&self.job, &self.tasks).put_all(out)
    }

    #[tactic(auto, using(crate::specs::Passing::fault_passes_made))]
    fn take(alloc: Global, bytes: &[u8], at: usize) -> Result<(Pick, usize), TakeFault> {
        let (parts, past) = PickParts::take(alloc, bytes, at)?;
        let (job, tasks) = parts;
        Ok((Pick { job, tasks }, past))
    }
}

type PatchParts = (
    (Option<Text>, Option<Request>, Option<i32>, Option<u64>),
    (Option<Text>, Option<bool>, Option<u64>, Option<u64>),
    (
        Option<Text>,
        Option<List<u32>>,
        Option<List<u32>>,
        Option<u64>,
    ),
);

impl Canon for Patch {
    ghost use Rattle.ge_model_codec.specs.Entries.{patch_code};
    ghost use Rattle.ge_codec.specs.EntryLaws.{patch_canonical};

    ghost code = { patch_code };

    ghost canonical = { patch_canonical };

    fn put(&self, out: &mut Text) -> Result<(), AllocError> {
        (
            (&self.name, &self.request, &self.priority, &self.share),
            (
                &self.project,
                &self.reserve,
                &self.not_before,
                &self.deadline,
            ),
            (&self.account, &self.after, &self.after_each, &self.oticket),
        )
            .put_all(out)
    }

    #[tactic(auto, using(crate::specs::Passing::fault_passes_made))]
    fn take(alloc: Global, bytes: &[u8], at: usize) -> Result<(Patch, usize), TakeFault> {
        let (parts, past) = PatchParts::take(alloc, bytes, at)?;
        let (
            (name, request, priority, share),
            (project, reserve, not_before, deadline),
            (account, after, after_each, oticket),
        ) = parts;
        Ok((
            Patch {
                name,
                request,
                priority,
                share,
                project,
                reserve,
                not_before,
                deadline,
                account,
                after,
                after_each,
                oticket,
            },
            past,
        ))
    }
}

// A change of jobs.
#[tactic(auto, using(crate::specs::Passing::fault_passes, crate::specs::Passing::fault_passes_made))]
fn take_job_change<J: Format<JobRow>, O: Format<Item>>(
    alloc: Global,
    bytes: &[u8],
    at: usize,
    tag: u8,
) -> Result<(Change, usize), TakeFault>
    requires tag { tag < 6 }
    requires at { at ≤ length bytes.now }
    ensures read { ReadsAs result (change_at J.code O.code tag bytes.now at) }
    ensures within { IfOk result (λ p. p.1 ≤ length bytes.now) }
{
    match tag {
        0 => {
            let (value, end) = J::take(alloc, bytes, at)?;
            Ok((Change::Submit(value), end))
        }
        1 => {
            let (value, end) = <List<(u32, Patch)>>::take(alloc, bytes, at)?;
            Ok((Change::Alter(value), end))
        }
        2 => {
            let ((first, second), end) = <(List<u32>, u8)>::take(alloc, bytes, at)?;
            Ok((Change::Hold(first, second), end))
        }
        3 => {
            let ((first, second), end) = <(List<u32>, u8)>::take(alloc, bytes, at)?;
            Ok((Change::Release(first, second), end))
        }
        4 => {
            let ((first, second), end) = <(List<Pick>, bool)>::take(alloc, bytes, at)?;
            Ok((Change::Delete(first, second), end))
        }
        _ => {
            let (value, end) = <List<Pick>>::take(alloc, bytes, at)?;
            Ok((Change::Clear(value), end))
        }
    }
}

// A change of what is configured, of the load or of what runs.
#[tactic(auto, using(crate::specs::Passing::fault_passes, crate::specs::Passing::fault_passes_made))]
fn take_other_change<J: Format<JobRow>, O: Format<Item>>(
    alloc: Global,
    bytes: &[u8],
    at: usize,
    tag: u8,
) -> Result<(Change, usize), TakeFault>
    requires tag { (6 ≤ tag) × (tag < 11) }
    requires at { at ≤ length bytes.now }
    ensures read { ReadsAs result (change_at J.code O.code tag bytes.now at) }
    ensures within { IfOk result (λ p. p.1 ≤ length bytes.now) }
{
    match tag {
        6 => {
            let (value, end) = O::take(alloc, bytes, at)?;
            let value = Own::new(alloc, value)?;
            Ok((Change::Put(value), end))
        }
        7 => {
            let (value, end) = Key::take(alloc, bytes, at)?;
            Ok((Change::Drop(value), end))
        }
        8 => {
            let ((first, second), end) = <(Text, Table<Text, Value>)>::take(alloc, bytes, at)?;
            Ok((Change::Load(first, second), end))
        }
        9 => {
            let ((first, second, third, fourth, fifth), end) = <(u64, u32, u64, u64, u64)>::take(
                alloc, bytes, at,
            )?;
            Ok((Change::End(first, second, third, fourth, fifth), end))
        }
        _ => {
            let (value, end) = <List<Start>>::take(alloc, bytes, at)?;
            Ok((Change::Run(value), end))
        }
    }
}

// An advance reservation that is made, or some that are taken back.
#[tactic(auto, using(crate::specs::Passing::fault_passes, crate::specs::Passing::fault_passes_made))]
fn take_booking<J: Format<JobRow>, O: Format<Item>>(
    alloc: Global,
    bytes: &[u8],
    at: usize,
    tag: u8,
) -> Result<(Change, usize), TakeFault>
    requires tag { (11 ≤ tag) × (tag < 13) }
    requires at { at ≤ length bytes.now }
    ensures read { ReadsAs result (change_at J.code O.code tag bytes.now at) }
    ensures within { IfOk result (λ p. p.1 ≤ length bytes.now) }
{
    match tag {
        11 => {
            let (value, end) = Advance::take(alloc, bytes, at)?;
            let value = Own::new(alloc, value)?;
            Ok((Change::Book(value), end))
        }
        _ => {
            let (value, end) = <List<u32>>::take(alloc, bytes, at)?;
            Ok((Change::Unbook(value), end))
        }
    }
}

// One of the first so many changes, its job and object in a format.
#[tactic(auto, using(crate::specs::Passing::fault_passes, crate::specs::Passing::fault_passes_made))]
fn take_change<J: Format<JobRow>, O: Format<Item>>(
    alloc: Global,
    bytes: &[u8],
    at: usize,
    count: u8,
) -> Result<(Change, usize), TakeFault>
    requires count { count ≤ 13 }
    requires at { at ≤ length bytes.now }
    ensures read { ReadsAs result ((first_changes_code count J.code O.code).read bytes.now at) }
    ensures within { IfOk result (λ p. p.1 ≤ length bytes.now) }
{
    let (tag, mid) = take_tag(bytes, at, count)?;
    if tag < 6 {
        take_job_change::<J, O>(alloc, bytes, mid, tag)
    } else if tag < 11 {
        take_other_change::<J, O>(alloc, bytes, mid, tag)
    } else {
        take_booking::<J, O>(alloc, bytes, mid, tag)
    }
}

impl Canon for Change {
    ghost use Rattle.ge_model_codec.specs.Entries.{change_code};
    ghost use Rattle.ge_codec.specs.EntryLaws.{change_canonical};

    ghost code = { change_code };

    ghost canonical = { change_canonical };

    fn put(&self, out: &mut Text) -> Result<(), AllocError> {
        match self {
            Change::Submit(value) => put_variant(0, &value, out),
            Change::Alter(value) => put_variant(1, &value, out),
            Change::Hold(first, second) => put_variant(2, &(first, second), out),
            Change::Release(first, second) => put_variant(3, &(first, second), out),
            Change::Delete(first, second) => put_variant(4, &(first, second), out),
            Change::Clear(value) => put_variant(5, &value, out),
            Change::Put(value) => put_variant(6, &value.get(), out),
            Change::Drop(value) => put_variant(7, &value, out),
            Change::Load(first, second) => put_variant(8, &(first, second), out),
            Change::End(first, second, third, fourth, fifth) => {
                put_variant(9, &(first, second, third, fourth, fifth), out)
            }
            Change::Run(value) => put_variant(10, &value, out),
            Change::Book(value) => put_variant(11, &value.get(), out),
            Change::Unbook(value) => put_variant(12, &value, out),
        }
    }

    fn take(alloc: Global, bytes: &[u8], at: usize) -> Result<(Change, usize), TakeFault> {
        take_change::<Format2, Format2>(alloc, bytes, at, 13)
    }
}

impl Format<Change> for Format1 {
    ghost use Rattle.ge_model_codec.specs.Entries.{change_code_1};

    ghost code = { change_code_1 };

    fn take(alloc: Global, bytes: &[u8], at: usize) -> Result<(Change, usize), TakeFault> {
        take_change::<Format1, Format1>(alloc, bytes, at, 11)
    }
}

type EntryParts = (u64, Change);

impl Canon for Entry {
    ghost use Rattle.ge_model_codec.specs.Entries.{entry_code};
    ghost use Rattle.ge_codec.specs.EntryLaws.{entry_canonical};

    ghost code = { entry_code };

    ghost canonical = { entry_canonical };

    fn put(&self, out: &mut Text) -> Result<(), AllocError> {
        (&self.moment, &self.change).put_all(out)
    }

    #[tactic(auto, using(crate::specs::Passing::fault_passes_made))]
    fn take(alloc: Global, bytes: &[u8], at: usize) -> Result<(Entry, usize), TakeFault> {
        let (parts, past) = EntryParts::take(alloc, bytes, at)?;
        let (moment, change) = parts;
        Ok((Entry { moment, change }, past))
    }
}

impl Format<Entry> for Format1 {
    ghost use Rattle.ge_model_codec.specs.Entries.{entry_code_1};

    ghost code = { entry_code_1 };

    #[tactic(auto, using(crate::specs::Passing::fault_passes, crate::specs::Passing::fault_passes_made))]
    fn take(alloc: Global, bytes: &[u8], at: usize) -> Result<(Entry, usize), TakeFault> {
        let (moment, mid) = u64::take(alloc, bytes, at)?;
        let (change, past) = <Format1 as Format<Change>>::take(alloc, bytes, mid)?;
        Ok((Entry { moment, change }, past))
    }
}
