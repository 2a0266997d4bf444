//! The quotas that a grant counts for.

ghost use Rattle.std.specs.Prelude.{◌≡◌, ◌≢◌, Some, OnOk, fold, map};
ghost use Rattle.std.specs.List.{list_any};
ghost use Rattle.ge_collections.specs.Keyed.{at_text};
ghost use Rattle.ge_model_place.specs.Bookings.{same_limit};
ghost use Rattle.ge_model_rows.specs.ScheduleRows.{Quota};
ghost use Rattle.ge_model_place.specs.Limits.{is_per_job, per_slot, who_at};
ghost use Rattle.ge_model_place.specs.Quotas.{keys_of_set, quota_keys, rule_key};
ghost use Rattle.ge_quota.specs.Asked.{asked_by};
ghost use Rattle.ge_capacities.specs.Counts.{all_counted};
ghost use Rattle.ge_capacities.specs.Found.{with_limit_unless_found};

use crate::asking::{Asked, asked_of};
use crate::capacities::in_quota;
use crate::counting::{Counted, add};
use ge_bookings::is_same_limit;
use ge_quota::{Numbered, Who, matching_rule, rule_key};
use ge_rows::{Cluster, Groups, InstanceId, Job, LimitId, QuotaKey, QuotaRow, Text};
use std::alloc::{AllocError, Global};

fn is_there(found: &[Counted], limit: &LimitId) -> bool
    ensures { result ≡ list_any (λ more. same_limit limit.now more.limit) found.now }
{
    found.iter().any(|more| is_same_limit(limit, &more.limit))
}

#[tactic(auto, using(crate::proofs::Gathered::found_anywhere))]
fn add_quota(
    cluster: &Cluster,
    groups: &Groups,
    job: &Job,
    found: &mut Vec<Counted>,
    set: &QuotaRow,
    key: QuotaKey,
    asked: Asked,
) -> Result<(), AllocError>
    requires set { at_text cluster.now.quotas key.set ≡ Some set.now }
    requires amount { asked.amount ≡ per_slot cluster.now job.now key.resource }
    requires once { asked.once ≡ is_per_job cluster.now key.resource }
    requires some { asked.amount ≢ 0 }
    ensures { OnOk result (all_counted found.new.items
        ≡ with_limit_unless_found cluster.now groups.now job.now (all_counted found.old.items) (Quota key)) }
{
    let capacity = u128::from(in_quota(&key, Some(set)));
    let limit = LimitId::Quota(key);
    if is_there(found.as_slice(), &limit) {
        return Ok(());
    }
    add(found, limit, capacity, asked)
}

// The quota of one resource that a rule limits. Its key is only made where something is asked of it.
fn add_of_resource(
    alloc: Global,
    cluster: &Cluster,
    groups: &Groups,
    job: &Job,
    found: &mut Vec<Counted>,
    who: &Who<'_>,
    name: &Text,
    set: &QuotaRow,
    rule: &Numbered<'_>,
    resource: &Text,
) -> Result<(), AllocError>
    requires { at_text cluster.now.quotas name.now ≡ Some set.now }
    ensures { OnOk result (all_counted found.new.items
        ≡ with_limit_unless_found cluster.now groups.now job.now (all_counted found.old.items)
        (Quota (rule_key name.now (asked_by who.now) resource.now
        (rule.now.number, rule.now.rule.now)))) }
{
    let asked = asked_of(cluster, job, resource);
    if asked.amount == 0 {
        return Ok(());
    }
    let key = rule_key(alloc, name, who, resource.bytes(), rule)?;
    add_quota(cluster, groups, job, found, set, key, asked)
}

// The quotas of a rule, one for each resource that it limits.
fn add_of_rule(
    alloc: Global,
    cluster: &Cluster,
    groups: &Groups,
    job: &Job,
    found: &mut Vec<Counted>,
    who: &Who<'_>,
    name: &Text,
    set: &QuotaRow,
    rule: &Numbered<'_>,
) -> Result<(), AllocError>
    requires { at_text cluster.now.quotas name.now ≡ Some set.now }
    ensures { OnOk result (all_counted found.new.items
        ≡ fold (with_limit_unless_found cluster.now groups.now job.now) (all_counted found.old.items)
        (map Quota (map (λ limit. rule_key name.now (asked_by who.now) limit.0 (rule.now.number, rule.now.rule.now))
        rule.now.rule.now.limits))) }
{
    for (resource, _) in rule.rule.limits.iter() {
        add_of_resource(
            alloc, cluster, groups, job, found, who, name, set, rule, resource,
        )?;
    }
    Ok(())
}

fn add_of_set(
    alloc: Global,
    cluster: &Cluster,
    groups: &Groups,
    job: &Job,
    found: &mut Vec<Counted>,
    who: &Who<'_>,
    name: &Text,
    set: &QuotaRow,
) -> Result<(), AllocError>
    requires { at_text cluster.now.quotas name.now ≡ Some set.now }
    ensures { OnOk result (all_counted found.new.items
        ≡ fold (with_limit_unless_found cluster.now groups.now job.now) (all_counted found.old.items)
        (map Quota (keys_of_set cluster.now groups.now (asked_by who.now) (name.now, set.now)))) }
{
    match matching_rule(alloc, cluster, groups, who, set)? {
        None => Ok(()),
        Some(rule) => add_of_rule(alloc, cluster, groups, job, found, who, name, set, &rule),
    }
}

fn add_of_sets(
    alloc: Global,
    cluster: &Cluster,
    groups: &Groups,
    job: &Job,
    found: &mut Vec<Counted>,
    who: &Who<'_>,
) -> Result<(), AllocError>
    ensures { OnOk result (all_counted found.new.items
        ≡ fold (with_limit_unless_found cluster.now groups.now job.now) (all_counted found.old.items)
        (map Quota (quota_keys cluster.now groups.now (asked_by who.now)))) }
{
    for (name, set) in cluster.quotas.iter() {
        add_of_set(alloc, cluster, groups, job, found, who, name, set)?;
    }
    Ok(())
}

/// What counts of the quotas of a job's grant at an instance, each once, behind what was found.
pub(crate) fn add_quotas(
    alloc: Global,
    cluster: &Cluster,
    groups: &Groups,
    job: &Job,
    at: &InstanceId,
    found: &mut Vec<Counted>,
) -> Result<(), AllocError>
    ensures { OnOk result (all_counted found.new.items
        ≡ fold (with_limit_unless_found cluster.now groups.now job.now) (all_counted found.old.items)
        (map Quota (quota_keys cluster.now groups.now (who_at job.now at.now)))) }
{
    let none = Text::new(alloc);
    let who = Who {
        user: &job.owner,
        group: &job.group,
        project: &job.project,
        pe: match &job.request.pe {
            Some(request) => &request.name,
            None => &none,
        },
        queue: &at.queue,
        host: &at.host,
    };
    add_of_sets(alloc, cluster, groups, job, found, &who)
}
