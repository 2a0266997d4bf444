//! The hosts of groups.

ghost use Rattle.std.specs.Prelude.{◌≡◌, IfOk, OnOk};
ghost use Rattle.ge_collections.specs.Keyed.{put_text};
ghost use Rattle.ge_model_rows.specs.Groups.{walk_over, found_by, members_of, members_or_none, has_loop as some_loop, expanded};
ghost use Rattle.ge_site.specs.Gathers.{Gathers};

use crate::seen::Seen;
use crate::walking::walk_through;
use ge_model_rows::GroupFault;
use ge_rows::{Cluster, Groups, List, Table, Text, Twin};
use std::alloc::{AllocError, Global};

/// Why a call gives no hosts of a group.
#[derive(Drop, PartialEq, Eq)]
pub enum MembersFault {
    /// The group has none: one that it reaches is missing, or reaches itself.
    Group(GroupFault),
    /// There was no memory for the answer.
    NoMemory,
}

impl From<AllocError> for MembersFault {
    ghost use Rattle.std.specs.Prelude.{◌≡◌};
    ghost use Rattle.ge_site.specs.declared.gathering.MembersFault.TheVariants.{NoMemory};

    ghost from_gives = { λ _ fault. fault ≡ NoMemory };

    fn from(_error: AllocError) -> MembersFault {
        MembersFault::NoMemory
    }
}

fn found(alloc: Global, seen: &Seen<'_>) -> Result<List<Text>, MembersFault>
    ensures { Gathers result (found_by seen.now) }
{
    if let Some(name) = seen.absent {
        return Err(MembersFault::Group(GroupFault::NoSuch(name.twin(alloc)?)));
    }
    if let Some(name) = seen.circular {
        return Err(MembersFault::Group(GroupFault::Cycle(name.twin(alloc)?)));
    }
    Ok(seen.found.copied(alloc)?)
}

/// The hosts of a group in first-seen order, each once (hostgroup).
///
/// # Errors
///
/// `NoSuch` exactly where a group that is reached is missing, and `Cycle` exactly where one reaches itself and none is
/// missing: the first such name, depth first. `NoMemory` where there was no memory for the answer.
#[tactic(auto, unfolding(ge_model_rows::specs::Groups::members_of))]
pub fn members(
    alloc: Global,
    groups: &Table<Text, List<Text>>,
    name: &Text,
) -> Result<List<Text>, MembersFault>
    ensures { Gathers result (members_of groups.now name.now) }
{
    let mut seen = Seen::new(alloc);
    walk_through(alloc, groups, &mut seen, name)?;
    found(alloc, &seen)
}

/// Whether some group reaches itself, whatever groups are missing (hostgroup): one walk over all.
#[tactic(auto, unfolding(ge_model_rows::specs::Groups::has_loop))]
pub fn has_loop(alloc: Global, groups: &Table<Text, List<Text>>) -> Result<bool, AllocError>
    ensures { IfOk result (λ found. found ≡ some_loop groups.now) }
{
    let mut seen = Seen::new(alloc);
    for name in groups.keys() {
        walk_through(alloc, groups, &mut seen, name)?;
    }
    Ok(seen.circular.is_some())
}

fn members_if_any(
    alloc: Global,
    groups: &Table<Text, List<Text>>,
    name: &Text,
) -> Result<List<Text>, AllocError>
    ensures { IfOk result (λ hosts. hosts ≡ members_or_none (members_of groups.now name.now)) }
{
    match members(alloc, groups, name) {
        Ok(hosts) => Ok(hosts),
        Err(MembersFault::Group(_)) => Ok(List::new(alloc)),
        Err(MembersFault::NoMemory) => Err(AllocError),
    }
}

fn add_members(
    alloc: Global,
    groups: &Table<Text, List<Text>>,
    hosts: &mut Table<Text, List<Text>>,
    name: &Text,
) -> Result<(), AllocError>
    ensures { OnOk result (hosts.new
        ≡ put_text hosts.old name.now (members_or_none (members_of groups.now name.now))) }
{
    let members = members_if_any(alloc, groups, name)?;
    hosts.insert(name.twin(alloc)?, members)?;
    Ok(())
}

/// The members of every group; a group with a fault has none (hostgroup).
#[tactic(auto, unfolding(ge_model_rows::specs::Groups::expanded))]
pub fn expand(alloc: Global, cluster: &Cluster) -> Result<Groups, AllocError>
    ensures { IfOk result (λ groups. groups ≡ expanded cluster.now) }
{
    let mut hosts = Table::new(alloc);
    for name in cluster.groups.keys() {
        add_members(alloc, &cluster.groups, &mut hosts, name)?;
    }
    Ok(Groups { hosts })
}
