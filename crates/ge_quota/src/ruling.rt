//! The rule of a rule set that matches.

ghost use Rattle.std.specs.Prelude.{◌≡◌, ◌&&◌, IfOk};
ghost use Rattle.std.specs.Option.{option_map};
ghost use Rattle.ge_model_place.specs.Quotas.{names_user, names, names_host, admits_name, rule_matches, rule_from, rule_of};
ghost use Rattle.ge_quota.specs.Asked.{asked_by};

use crate::asking::Who;
use crate::filtering::{AskedHost, AskedName, AskedUser, is_admitted};
use ge_rows::{Cluster, Filter, Groups, QuotaRow, Rule, Text};
use std::alloc::{AllocError, Global};

fn admits_user(
    alloc: Global,
    cluster: &Cluster,
    who: &Who<'_>,
    filter: &Option<Filter>,
) -> Result<bool, AllocError>
    ensures { IfOk result (λ admitted. admitted
        ≡ admits_name (names_user cluster.now (asked_by who.now)) who.now.user.now filter.now) }
{
    is_admitted(alloc, &AskedUser { cluster, who }, who.user, filter)
}

fn admits_named(alloc: Global, name: &Text, filter: &Option<Filter>) -> Result<bool, AllocError>
    ensures { IfOk result (λ admitted. admitted ≡ admits_name (names name.now) name.now filter.now) }
{
    is_admitted(alloc, &AskedName { name }, name, filter)
}

fn admits_host(
    alloc: Global,
    groups: &Groups,
    host: &Text,
    filter: &Option<Filter>,
) -> Result<bool, AllocError>
    ensures { IfOk result (λ admitted. admitted
        ≡ admits_name (names_host groups.now host.now) host.now filter.now) }
{
    is_admitted(alloc, &AskedHost { groups, host }, host, filter)
}

// Whether each filter of a rule admits.
fn is_match(
    alloc: Global,
    cluster: &Cluster,
    groups: &Groups,
    who: &Who<'_>,
    rule: &Rule,
) -> Result<bool, AllocError>
    ensures { IfOk result (λ matched. matched
        ≡ rule_matches cluster.now groups.now (asked_by who.now) rule.now) }
{
    Ok(
        admits_user(alloc, cluster, who, &rule.users)?
            && admits_named(alloc, who.project, &rule.projects)?
            && admits_named(alloc, who.pe, &rule.pes)?
            && admits_named(alloc, who.queue, &rule.queues)?
            && admits_host(alloc, groups, who.host, &rule.hosts)?,
    )
}

/// A rule with its number in its set, from 1.
#[derive(Clone, Copy)]
pub struct Numbered<'a> {
    /// The number.
    pub number: usize,
    /// The rule.
    pub rule: &'a Rule,
}

fn first_match<'a>(
    alloc: Global,
    cluster: &Cluster,
    groups: &Groups,
    who: &Who<'_>,
    rules: &'a [Rule],
) -> Result<Option<Numbered<'a>>, AllocError>
    ensures { IfOk result (λ found. option_map (λ r. (r.number, r.rule.now)) found
        ≡ rule_from cluster.now groups.now (asked_by who.now) 1 rules.now) }
{
    for (index, rule) in rules.iter().enumerate() {
        if is_match(alloc, cluster, groups, who, rule)? {
            let number = index + 1;
            return Ok(Some(Numbered { number, rule }));
        }
    }
    Ok(None)
}

/// The first rule of a rule set that matches; one that isn't enabled has none (sge_resource_quota).
pub fn matching_rule<'a>(
    alloc: Global,
    cluster: &Cluster,
    groups: &Groups,
    who: &Who<'_>,
    row: &'a QuotaRow,
) -> Result<Option<Numbered<'a>>, AllocError>
    ensures { IfOk result (λ found. option_map (λ r. (r.number, r.rule.now)) found
        ≡ rule_of cluster.now groups.now (asked_by who.now) row.now) }
{
    if row.enabled {
        first_match(alloc, cluster, groups, who, row.rules.items())
    } else {
        Ok(None)
    }
}
