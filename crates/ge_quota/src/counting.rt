//! What grants are counted by.

ghost use Rattle.std.specs.Prelude.{◌≡◌, ◌++◌, ◌^◌, ◌-◌, [], min, map, IfOk, OnOk};
ghost use Rattle.ge_model_place.specs.Quotas.{kept_name, rule_key, key_of, keys_with, keys_of_set, quota_keys};
ghost use Rattle.ge_quota.specs.Asked.{asked_by};

use crate::asking::Who;
use crate::ruling::{Numbered, matching_rule};
use ge_rows::{Cluster, Filter, Groups, List, QuotaKey, QuotaRow, Rule, Text, Twin};
use std::alloc::{AllocError, Global};

// What a filter keeps of a name: in braces each name counts apart. Most filters keep none, which takes no memory, and
// is no call then.
#[inline(always)]
fn kept(alloc: Global, filter: &Option<Filter>, name: &Text) -> Result<Text, AllocError>
    ensures { IfOk result (λ kept. kept ≡ kept_name filter.now name.now) }
{
    match filter {
        Some(filter) => {
            if filter.braces {
                return name.twin(alloc);
            }
            Ok(Text::new(alloc))
        }
        None => Ok(Text::new(alloc)),
    }
}

// A rule's number as keys have it, cut at the greatest of its type.
fn number_in_key(number: usize) -> u32
    ensures { result ≡ min number (2 ^ 32 - 1) }
{
    number.min(4_294_967_295) as u32
}

/// What a rule of a set counts a resource by, for who asks.
pub fn rule_key(
    alloc: Global,
    set: &Text,
    who: &Who<'_>,
    resource: &[u8],
    found: &Numbered<'_>,
) -> Result<QuotaKey, AllocError>
    ensures { IfOk result (λ key. key
        ≡ rule_key set.now (asked_by who.now) resource.now (found.now.number, found.now.rule.now)) }
{
    let rule = found.rule;
    Ok(QuotaKey {
        set: set.twin(alloc)?,
        rule: number_in_key(found.number),
        user: kept(alloc, &rule.users, who.user)?,
        project: kept(alloc, &rule.projects, who.project)?,
        pe: kept(alloc, &rule.pes, who.pe)?,
        queue: kept(alloc, &rule.queues, who.queue)?,
        host: kept(alloc, &rule.hosts, who.host)?,
        resource: Text::from_bytes(alloc, resource)?,
    })
}

/// What a rule set counts a grant by: the names that the filters in braces of its first matching rule leave apart. The
/// key's resource is empty. None exactly where the rule set is missing or isn't enabled, or no rule matches
/// (sge_resource_quota).
#[tactic(auto, unfolding(ge_model_place::specs::Quotas::key_of))]
pub fn limit_key(
    alloc: Global,
    cluster: &Cluster,
    groups: &Groups,
    set: &Text,
    who: &Who<'_>,
) -> Result<Option<QuotaKey>, AllocError>
    ensures { IfOk result (λ key. key ≡ key_of cluster.now groups.now set.now (asked_by who.now)) }
{
    match cluster.quotas.get(set) {
        None => Ok(None),
        Some(row) => match matching_rule(alloc, cluster, groups, who, row)? {
            None => Ok(None),
            Some(found) => Ok(Some(rule_key(alloc, set, who, b"", &found)?)),
        },
    }
}

fn append_limits(
    alloc: Global,
    keys: &mut List<QuotaKey>,
    set: &Text,
    who: &Who<'_>,
    found: &Numbered<'_>,
) -> Result<(), AllocError>
    ensures { OnOk result (keys.new ≡ keys.old
        ++ map (λ limit. rule_key set.now (asked_by who.now) limit.0 (found.now.number, found.now.rule.now))
        found.now.rule.now.limits) }
{
    for (resource, _) in found.rule.limits.iter() {
        keys.push(rule_key(alloc, set, who, resource.bytes(), found)?)?;
    }
    Ok(())
}

fn append_keys(
    alloc: Global,
    cluster: &Cluster,
    groups: &Groups,
    who: &Who<'_>,
    keys: &mut List<QuotaKey>,
    set: &Text,
    row: &QuotaRow,
) -> Result<(), AllocError>
    ensures { OnOk result (keys.new ≡ keys.old
        ++ keys_of_set cluster.now groups.now (asked_by who.now) (set.now, row.now)) }
{
    match matching_rule(alloc, cluster, groups, who, row)? {
        None => Ok(()),
        Some(found) => append_limits(alloc, keys, set, who, &found),
    }
}

/// The keys that who asks is counted by, by the name of the rule set, then of the resource: one for each resource that
/// the first matching rule of a set limits (sge_resource_quota).
pub fn keys(
    alloc: Global,
    cluster: &Cluster,
    groups: &Groups,
    who: &Who<'_>,
) -> Result<List<QuotaKey>, AllocError>
    ensures { IfOk result (λ keys. keys ≡ quota_keys cluster.now groups.now (asked_by who.now)) }
{
    let mut keys = List::new(alloc);
    for (set, row) in cluster.quotas.iter() {
        append_keys(alloc, cluster, groups, who, &mut keys, set, row)?;
    }
    Ok(keys)
}
