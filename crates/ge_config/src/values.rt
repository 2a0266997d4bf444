//! Readers of single values: amounts within bounds, and lists of names that have to be there.

ghost use Rattle.std.specs.Prelude.{◌≡◌, ℕ, List as Items};
ghost use Rattle.std.specs.Int.{is_in_range};
ghost use Rattle.std.specs.List.{list_all};
ghost use Rattle.ge_base.specs.declared.refusal.Refusal.{Refusal as Fault};
ghost use Rattle.ge_model_rows.specs.Faults.{after_faults};
ghost use Rattle.ge_model_rows.specs.ValueRows.{infinity};
ghost use Rattle.ge_model_config.specs.Cited.{amount_within, number_read, names_read, has_name, is_host_or_group};
ghost use Rattle.ge_pieces.specs.Gives.{Reads};

use ge_base::Refusal;
use ge_complex::{amount_in, value_of_text};
use ge_pieces::{items_of_list, note};
use ge_rows::{Cluster, INFINITY, Kind, List, Table, Text, Value};
use std::alloc::{AllocError, Global};

/// A reader of one value of a body: what it gives, and what refuses it.
pub(crate) trait Reader<T> {
    /// The definition.
    ghost read: { Self → Items ℕ → T × Items Fault };

    /// Gives the value, and notes what refuses it.
    fn read(
        &self,
        alloc: Global,
        text: &[u8],
        faults: &mut Option<Refusal>,
    ) -> Result<T, AllocError>
        ensures { Reads result faults.old faults.new (read self.now text.now) };
}

fn is_within(low: u64, high: u64, amount: u64) -> bool
    ensures { result ≡ is_in_range low high amount }
{
    low <= amount && amount <= high
}

fn read_within(low: u64, high: u64, value: &Option<Value>, faults: &mut Option<Refusal>) -> u64
    ensures value { result ≡ (amount_within low high value.now).0 }
    ensures faults { faults.new ≡ after_faults faults.old (amount_within low high value.now).1 }
{
    if let Some(value) = value {
        let amount = amount_in(value);
        if is_within(low, high, amount) {
            return amount;
        }
    }
    note(faults, true, Refusal::BadValue);
    low
}

/// An amount of a kind, from low to high.
#[derive(Clone, Copy)]
pub(crate) struct Number {
    pub(crate) kind: Kind,
    pub(crate) low: u64,
    pub(crate) high: u64,
}

impl Reader<u64> for Number {
    ghost read = { λ n. number_read n.kind n.low n.high };

    fn read(
        &self,
        alloc: Global,
        text: &[u8],
        faults: &mut Option<Refusal>,
    ) -> Result<u64, AllocError> {
        let value = value_of_text(alloc, self.kind, text)?;
        Ok(read_within(self.low, self.high, &value, faults))
    }
}

/// Any amount of a kind.
pub(crate) fn any_of(kind: Kind) -> Number
    ensures kind { result.kind ≡ kind }
    ensures low { result.low ≡ 0 }
    ensures high { result.high ≡ infinity }
{
    Number {
        kind,
        low: 0,
        high: INFINITY,
    }
}

/// Whether a table has a name.
pub(crate) fn is_there<V>(table: &Table<Text, V>, name: &Text) -> bool
    ensures { result ≡ has_name table.now name.now }
{
    table.get(name).is_some()
}

fn are_there<V>(table: &Table<Text, V>, names: &[Text]) -> bool
    ensures { result ≡ list_all (has_name table.now) names.now }
{
    names.iter().all(|name| is_there(table, name))
}

/// A list of names that a table has to have.
#[derive(Drop)]
pub(crate) struct Names<'a, V> {
    pub(crate) table: &'a Table<Text, V>,
}

impl<V> Reader<List<Text>> for Names<'_, V> {
    ghost read = { λ n. names_read (has_name n.table.now) };

    fn read(
        &self,
        alloc: Global,
        text: &[u8],
        faults: &mut Option<Refusal>,
    ) -> Result<List<Text>, AllocError> {
        let names = items_of_list(alloc, text)?;
        note(
            faults,
            !are_there(self.table, names.items()),
            Refusal::NoSuchObject,
        );
        Ok(names)
    }
}

/// Whether there is such a host or group.
pub(crate) fn is_a_host_or_group(c: &Cluster, name: &Text) -> bool
    ensures { result ≡ is_host_or_group c.now name.now }
{
    is_there(&c.hosts, name) || is_there(&c.groups, name)
}

fn are_hosts_or_groups(c: &Cluster, names: &[Text]) -> bool
    ensures { result ≡ list_all (is_host_or_group c.now) names.now }
{
    names.iter().all(|name| is_a_host_or_group(c, name))
}

/// The names of a hostlist: hosts, and groups with their at sign (hostgroup(5)).
pub(crate) fn read_hostlist(
    alloc: Global,
    c: &Cluster,
    text: &[u8],
    faults: &mut Option<Refusal>,
) -> Result<List<Text>, AllocError>
    ensures { Reads result faults.old faults.new (names_read (is_host_or_group c.now) text.now) }
{
    let names = items_of_list(alloc, text)?;
    note(
        faults,
        !are_hosts_or_groups(c, names.items()),
        Refusal::NoSuchObject,
    );
    Ok(names)
}
