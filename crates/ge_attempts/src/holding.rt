// Where values of hosts are, and numbers of hosts.
ghost use Rattle.std.specs.Prelude.{◌≡◌};
ghost use Rattle.ge_attempts.specs.Amounts.{number_in};

use ge_bookings::is_same_instance;
use ge_rows::{Cluster, InstanceId, List, Table, Text, Twin};
use std::alloc::{AllocError, Global};
use std::collections::BTreeMap;

/// The first instance in the order whose host has a value, by the value's name. Nothing is promised of it: it tells where
/// what a job asks of that value can be read.
pub type Holders = BTreeMap<Text, InstanceId>;

/// Numbers of hosts, so that hosts are told apart without their names.
pub type HostNumbers = Table<Text, usize>;

/// The hosts of the instances: their numbers, and by number the places of the instances that each has.
#[derive(Drop)]
pub struct Hosts {
    pub numbers: HostNumbers,
    pub places: List<List<usize>>,
}

fn note_name(
    alloc: Global,
    holders: &mut Holders,
    instance: &InstanceId,
    name: &Text,
) -> Result<(), AllocError> {
    if holders.get(name).is_some() {
        return Ok(());
    }
    let key = name.twin(alloc)?;
    let holder = instance.twin(alloc)?;
    let _before = holders.insert(key, holder)?;
    Ok(())
}

fn note_instance(
    alloc: Global,
    cluster: &Cluster,
    holders: &mut Holders,
    instance: &InstanceId,
) -> Result<(), AllocError> {
    let Some(row) = cluster.hosts.get(&instance.host) else {
        return Ok(());
    };
    for name in row.values.keys() {
        note_name(alloc, holders, instance, name)?;
    }
    Ok(())
}

/// The holders of all values of the hosts of these instances.
pub fn holders_of(
    alloc: Global,
    cluster: &Cluster,
    order: &[InstanceId],
) -> Result<Holders, AllocError> {
    let mut holders = BTreeMap::new(alloc);
    for instance in order {
        note_instance(alloc, cluster, &mut holders, instance)?;
    }
    Ok(holders)
}

// The number of a host, which is a new one where it has none.
fn number_host(alloc: Global, hosts: &mut Hosts, host: &Text) -> Result<usize, AllocError> {
    if let Some(number) = hosts.numbers.get(host) {
        return Ok(*number);
    }
    let number = hosts.numbers.len();
    let key = host.twin(alloc)?;
    let _before = hosts.numbers.insert(key, number)?;
    hosts.places.push(List::new(alloc))?;
    Ok(number)
}

fn add_place(
    alloc: Global,
    places: &mut List<List<usize>>,
    number: usize,
    place: usize,
) -> Result<(), AllocError> {
    if number >= places.len() {
        return Ok(());
    }
    let mut there = places.replace(number, List::new(alloc));
    there.push(place)?;
    let _none = places.replace(number, there);
    Ok(())
}

/// The hosts of these instances, numbered from 0 as they come. Nothing is promised of that.
pub(crate) fn hosts_of(alloc: Global, order: &[InstanceId]) -> Result<Hosts, AllocError> {
    let mut hosts = Hosts {
        numbers: Table::new(alloc),
        places: List::new(alloc),
    };
    for (place, instance) in order.iter().enumerate() {
        let number = number_host(alloc, &mut hosts, &instance.host)?;
        add_place(alloc, &mut hosts.places, number, place)?;
    }
    Ok(hosts)
}

fn is_at(order: &[InstanceId], place: usize, instance: &InstanceId) -> bool {
    match order.get(place) {
        Some(other) => is_same_instance(other, instance),
        None => false,
    }
}

/// The place of an instance in the order. Those on its host are looked at alone.
pub(crate) fn place_of(
    order: &[InstanceId],
    hosts: &Hosts,
    instance: &InstanceId,
) -> Option<usize> {
    let number = hosts.numbers.get(&instance.host)?;
    let there = hosts.places.items().get(*number)?;
    for place in there.items() {
        if is_at(order, *place, instance) {
            return Some(*place);
        }
    }
    None
}

/// The number of a host.
pub(crate) fn number_of(hosts: &HostNumbers, host: &Text) -> usize
    ensures { result ≡ number_in hosts.now host.now }
{
    match hosts.get(host) {
        Some(number) => *number,
        None => 0,
    }
}
