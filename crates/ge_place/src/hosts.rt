//! The hosts of instances.
ghost use Rattle.std.specs.Prelude.{◌≡◌, ℕ, List, ◌+◌, ◌<◌, ◌++◌, [], ◌∷◌, Some, cond, length, take, unwrap_or, IfOk, OnOk};
ghost use Rattle.std.specs.BTreeMap.{is_at};
ghost use Rattle.ge_collections.specs.Keyed.{text_cmp};
ghost use Rattle.ge_place.specs.Hosts.{number_in, AreFound};
ghost use Rattle.ge_place.specs.Spots.{hosts_among, names_of, AreOn};

use crate::seeing::Spot;
use crate::spots::HostSpots;
use ge_rows::Text;
use std::alloc::{AllocError, Global};
use std::collections::BTreeMap;

/// The number of each host that was found.
type Numbers<'a> = BTreeMap<&'a Text, usize>;

// The number of a host, which gets the next one where it has none. It is looked up once.
fn number_for<'a>(
    numbers: &mut Numbers<'a>,
    host: &'a Text,
    next: usize,
) -> Result<usize, AllocError>
    ensures number { IfOk result (λ number. number
        ≡ unwrap_or (number_in numbers.old.entries host.now) next) }
    ensures kept { IfOk result (λ number. (name : List ℕ) → number_in numbers.new.entries name
        ≡ cond (is_at (text_cmp host.now) name) (Some number)
        (number_in numbers.old.entries name)) }
{
    let entry = numbers.entry(host)?;
    let number = *entry.or_insert(next);
    Ok(number)
}

fn new_host<'a>(alloc: Global, host: &'a Text, place: usize) -> Result<HostSpots<'a>, AllocError>
    ensures host { IfOk result (λ found. found.host.now ≡ host.now) }
    ensures places { IfOk result (λ found. found.places.items ≡ place ∷ []) }
{
    let mut places = Vec::new(alloc);
    places.push(place)?;
    Ok(HostSpots { host, places })
}

fn add_place(host: &mut HostSpots<'_>, place: usize) -> Result<(), AllocError>
    ensures host { OnOk result (host.new.host.now ≡ host.old.host.now) }
    ensures places { OnOk result (host.new.places.items ≡ host.old.places.items ++ place ∷ []) }
{
    host.places.push(place)?;
    Ok(())
}

// The instance at a place is added to its host, a new one where no instance before it is there.
fn add_spot<'a>(
    alloc: Global,
    hosts: &mut Vec<HostSpots<'a>>,
    numbers: &mut Numbers<'a>,
    spots: &[Spot<'a>],
    place: usize,
) -> Result<(), AllocError>
    requires inside { place < length spots.now }
    requires found { AreFound (take place spots.now) hosts.old.items numbers.old.entries }
    ensures { OnOk result
        (AreFound (take (place + 1) spots.now) hosts.new.items numbers.new.entries) }
{
    let host = &spots[place].instance().host;
    let next = hosts.len();
    let number = number_for(numbers, host, next)?;
    if number < next {
        add_place(&mut hosts[number], place)?;
        return Ok(());
    }
    let found = new_host(alloc, host, place)?;
    hosts.push(found)?;
    Ok(())
}

/// The hosts in the order of their first instance. An instance isn't compared with each host before it, since there may be as
/// many hosts as instances.
pub(crate) fn hosts_of<'a>(
    alloc: Global,
    spots: &[Spot<'a>],
) -> Result<Vec<HostSpots<'a>>, AllocError>
    ensures hosts { IfOk result (λ hosts. names_of hosts.items ≡ hosts_among spots.now) }
    ensures places { IfOk result (λ hosts. AreOn spots.now hosts.items) }
{
    let mut hosts = Vec::new(alloc);
    let mut numbers = BTreeMap::new(alloc);
    for place in 0..spots.len() {
        add_spot(alloc, &mut hosts, &mut numbers, spots, place)?;
    }
    Ok(hosts)
}
