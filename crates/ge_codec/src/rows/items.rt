// Configured objects and their names.
ghost use Rattle.std.specs.Prelude.{◌≤◌, ◌<◌, length, IfOk};
ghost use Rattle.ge_model_codec.specs.Reading.{ReadsAs};
ghost use Rattle.ge_model_codec.specs.Entries.{item_read_at, item_code_with};

use crate::canon::{Canon, Format, Format1, Format2};
use crate::pairs::{Fields, put_variant};
use crate::tables::take_table;
use crate::texts::take_tag;
use ge_model_codec::TakeFault;
use ge_rows::{
    ComplexDef, Item, Key, List, ObjectKind, PeRow, ProjectRow, QueueRow, QuotaRow, Sched,
    ShareNode, Table, Text, UserRow, Value,
};
use std::alloc::{AllocError, Global};

// A complex table, host, host group, queue, parallel environment or rule set.
#[tactic(auto, using(crate::specs::Passing::fault_passes, crate::specs::Passing::fault_passes_made))]
fn take_machine_item<C: Format<ComplexDef>>(
    alloc: Global,
    bytes: &[u8],
    at: usize,
    tag: u8,
) -> Result<(Item, usize), TakeFault>
    requires tag { tag < 6 }
    requires at { at ≤ length bytes.now }
    ensures read { ReadsAs result (item_read_at C.code tag bytes.now at) }
    ensures within { IfOk result (λ p. p.1 ≤ length bytes.now) }
{
    match tag {
        0 => {
            let (value, end) = take_table::<Text, ComplexDef, C, Table<Text, ComplexDef>>(
                alloc, bytes, at,
            )?;
            Ok((Item::Complexes(value), end))
        }
        1 => {
            let ((first, second), end) = <(Text, Table<Text, Value>)>::take(alloc, bytes, at)?;
            Ok((Item::Host(first, second), end))
        }
        2 => {
            let ((first, second), end) = <(Text, List<Text>)>::take(alloc, bytes, at)?;
            Ok((Item::Group(first, second), end))
        }
        3 => {
            let ((first, second), end) = <(Text, QueueRow)>::take(alloc, bytes, at)?;
            Ok((Item::Queue(first, second), end))
        }
        4 => {
            let ((first, second), end) = <(Text, PeRow)>::take(alloc, bytes, at)?;
            Ok((Item::Pe(first, second), end))
        }
        _ => {
            let ((first, second), end) = <(Text, QuotaRow)>::take(alloc, bytes, at)?;
            Ok((Item::Quota(first, second), end))
        }
    }
}

// A user set, user, project or share tree.
#[tactic(auto, using(crate::specs::Passing::fault_passes, crate::specs::Passing::fault_passes_made))]
fn take_people_item<C: Format<ComplexDef>>(
    alloc: Global,
    bytes: &[u8],
    at: usize,
    tag: u8,
) -> Result<(Item, usize), TakeFault>
    requires tag { (6 ≤ tag) × (tag < 10) }
    requires at { at ≤ length bytes.now }
    ensures read { ReadsAs result (item_read_at C.code tag bytes.now at) }
    ensures within { IfOk result (λ p. p.1 ≤ length bytes.now) }
{
    match tag {
        6 => {
            let ((first, second), end) = <(Text, List<Text>)>::take(alloc, bytes, at)?;
            Ok((Item::Set(first, second), end))
        }
        7 => {
            let ((first, second), end) = <(Text, UserRow)>::take(alloc, bytes, at)?;
            Ok((Item::User(first, second), end))
        }
        8 => {
            let ((first, second), end) = <(Text, ProjectRow)>::take(alloc, bytes, at)?;
            Ok((Item::Project(first, second), end))
        }
        _ => {
            let (value, end) = <Table<u32, ShareNode>>::take(alloc, bytes, at)?;
            Ok((Item::Shares(value), end))
        }
    }
}

// The scheduler's settings, the managers or the operators.
#[tactic(auto, using(crate::specs::Passing::fault_passes, crate::specs::Passing::fault_passes_made))]
fn take_setting_item<C: Format<ComplexDef>>(
    alloc: Global,
    bytes: &[u8],
    at: usize,
    tag: u8,
) -> Result<(Item, usize), TakeFault>
    requires tag { (10 ≤ tag) × (tag < 13) }
    requires at { at ≤ length bytes.now }
    ensures read { ReadsAs result (item_read_at C.code tag bytes.now at) }
    ensures within { IfOk result (λ p. p.1 ≤ length bytes.now) }
{
    match tag {
        10 => {
            let (value, end) = Sched::take(alloc, bytes, at)?;
            Ok((Item::Sched(value), end))
        }
        11 => {
            let (value, end) = <List<Text>>::take(alloc, bytes, at)?;
            Ok((Item::Managers(value), end))
        }
        _ => {
            let (value, end) = <List<Text>>::take(alloc, bytes, at)?;
            Ok((Item::Operators(value), end))
        }
    }
}

// A configured object, the rows of its complex table in a format.
#[tactic(auto, using(crate::specs::Passing::fault_passes, crate::specs::Passing::fault_passes_made))]
fn take_item<C: Format<ComplexDef>>(
    alloc: Global,
    bytes: &[u8],
    at: usize,
) -> Result<(Item, usize), TakeFault>
    requires { at ≤ length bytes.now }
    ensures read { ReadsAs result ((item_code_with C.code).read bytes.now at) }
    ensures within { IfOk result (λ p. p.1 ≤ length bytes.now) }
{
    let (tag, mid) = take_tag(bytes, at, 13)?;
    if tag < 6 {
        take_machine_item::<C>(alloc, bytes, mid, tag)
    } else if tag < 10 {
        take_people_item::<C>(alloc, bytes, mid, tag)
    } else {
        take_setting_item::<C>(alloc, bytes, mid, tag)
    }
}

impl Canon for Item {
    ghost use Rattle.ge_model_codec.specs.Entries.{item_code};
    ghost use Rattle.ge_codec.specs.EntryLaws.{item_canonical};

    ghost code = { item_code };

    ghost canonical = { item_canonical };

    fn put(&self, out: &mut Text) -> Result<(), AllocError> {
        match self {
            Item::Complexes(value) => put_variant(0, &value, out),
            Item::Host(first, second) => put_variant(1, &(first, second), out),
            Item::Group(first, second) => put_variant(2, &(first, second), out),
            Item::Queue(first, second) => put_variant(3, &(first, second), out),
            Item::Pe(first, second) => put_variant(4, &(first, second), out),
            Item::Quota(first, second) => put_variant(5, &(first, second), out),
            Item::Set(first, second) => put_variant(6, &(first, second), out),
            Item::User(first, second) => put_variant(7, &(first, second), out),
            Item::Project(first, second) => put_variant(8, &(first, second), out),
            Item::Shares(value) => put_variant(9, &value, out),
            Item::Sched(value) => put_variant(10, &value, out),
            Item::Managers(value) => put_variant(11, &value, out),
            Item::Operators(value) => put_variant(12, &value, out),
        }
    }

    fn take(alloc: Global, bytes: &[u8], at: usize) -> Result<(Item, usize), TakeFault> {
        take_item::<Format2>(alloc, bytes, at)
    }
}

impl Format<Item> for Format1 {
    ghost use Rattle.ge_model_codec.specs.Entries.{item_code_1};

    ghost code = { item_code_1 };

    fn take(alloc: Global, bytes: &[u8], at: usize) -> Result<(Item, usize), TakeFault> {
        take_item::<Format1>(alloc, bytes, at)
    }
}

impl Canon for ObjectKind {
    ghost use Rattle.ge_model_codec.specs.Entries.{object_kind_code};
    ghost use Rattle.ge_codec.specs.EntryLaws.{object_kind_canonical};

    ghost code = { object_kind_code };

    ghost canonical = { object_kind_canonical };

    fn put(&self, out: &mut Text) -> Result<(), AllocError> {
        match self {
            ObjectKind::Complexes => out.push(0),
            ObjectKind::Host => out.push(1),
            ObjectKind::Group => out.push(2),
            ObjectKind::Queue => out.push(3),
            ObjectKind::Pe => out.push(4),
            ObjectKind::Quota => out.push(5),
            ObjectKind::Set => out.push(6),
            ObjectKind::User => out.push(7),
            ObjectKind::Project => out.push(8),
            ObjectKind::Shares => out.push(9),
            ObjectKind::Sched => out.push(10),
            ObjectKind::Managers => out.push(11),
            ObjectKind::Operators => out.push(12),
        }
    }

    #[tactic(auto, using(crate::specs::Passing::fault_passes, crate::specs::Passing::fault_passes_made))]
    fn take(_alloc: Global, bytes: &[u8], at: usize) -> Result<(ObjectKind, usize), TakeFault> {
        let (tag, end) = take_tag(bytes, at, 13)?;
        let value = match tag {
            0 => ObjectKind::Complexes,
            1 => ObjectKind::Host,
            2 => ObjectKind::Group,
            3 => ObjectKind::Queue,
            4 => ObjectKind::Pe,
            5 => ObjectKind::Quota,
            6 => ObjectKind::Set,
            7 => ObjectKind::User,
            8 => ObjectKind::Project,
            9 => ObjectKind::Shares,
            10 => ObjectKind::Sched,
            11 => ObjectKind::Managers,
            _ => ObjectKind::Operators,
        };
        Ok((value, end))
    }
}

type KeyParts = (ObjectKind, Text);

impl Canon for Key {
    ghost use Rattle.ge_model_codec.specs.Entries.{key_code};
    ghost use Rattle.ge_codec.specs.EntryLaws.{key_canonical};

    ghost code = { key_code };

    ghost canonical = { key_canonical };

    fn put(&self, out: &mut Text) -> Result<(), AllocError> {
        (&self.kind, &self.name).put_all(out)
    }

    #[tactic(auto, using(crate::specs::Passing::fault_passes_made))]
    fn take(alloc: Global, bytes: &[u8], at: usize) -> Result<(Key, usize), TakeFault> {
        let (parts, past) = KeyParts::take(alloc, bytes, at)?;
        let (kind, name) = parts;
        Ok((Key { kind, name }, past))
    }
}
