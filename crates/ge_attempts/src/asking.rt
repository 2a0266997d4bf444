// What one slot of a job asks of limits. Where one that counts at whatever instance has no room, no instance is looked at.
ghost use Rattle.std.specs.Prelude.{◌≡◌, ◌++◌, ◌∷◌, [], true, None, filter, IfOk, OnOk, All};
ghost use Rattle.std.specs.List.{list_any};
ghost use Rattle.ge_model_place.specs.Placement.{placement_of};
ghost use Rattle.ge_attempts.specs.Common.{names_places as names_place, set_names_places, counts_alike as alike_in, is_common as common_if, lacks_room as has_none, is_exhausted as exhausted_if, rules_out as ruled_out_if, IsAsked};
ghost use Rattle.ge_attempts.specs.Rests.{is_of};

use crate::rests::is_of_resource;
use crate::setting::Setting;
use ge_demands::{Counted, counted_limits};
use ge_rows::{Cluster, InstanceId, Job, LimitId, List, QuotaRow, Rule, Table, Text};
use ge_timeline::Timeline;
use ge_windows::window_end_from;
use std::alloc::{AllocError, Global};

fn names_places(rule: &Rule) -> bool
    ensures { result ≡ names_place rule.now }
{
    rule.queues.is_some() || rule.hosts.is_some()
}

fn one_names_places(rules: &[Rule]) -> bool
    ensures { result ≡ list_any names_place rules.now }
{
    rules.iter().any(|rule| names_places(rule))
}

fn quotas_name_places(quotas: &Table<Text, QuotaRow>) -> bool
    ensures { result ≡ list_any set_names_places quotas.now }
{
    for (_name, row) in quotas.iter() {
        if one_names_places(row.rules.items()) {
            return true;
        }
    }
    false
}

// Whether quotas count a job alike at each instance: none of their rules looks at queues or hosts (sge_resource_quota).
fn counts_alike(cluster: &Cluster) -> bool
    ensures { result ≡ alike_in cluster.now }
{
    !quotas_name_places(&cluster.quotas)
}

fn is_common(alike: bool, limit: &LimitId) -> bool
    ensures { result ≡ common_if alike limit.now }
{
    match limit {
        LimitId::Instance(_, _) => false,
        LimitId::Host(_, _) => false,
        LimitId::Global(_) => true,
        LimitId::Pe(_) => true,
        LimitId::Quota(_) => alike,
        LimitId::Advance(_, _) => false,
    }
}

fn asked_at(
    alloc: Global,
    at: &Setting<'_>,
    job: &Job,
    first: &InstanceId,
) -> Result<List<Counted>, AllocError>
    ensures { IfOk result
        (λ limits. All (IsAsked at.now.cluster.now at.now.groups.now job.now) limits) }
{
    let limits = counted_limits(alloc, at.cluster, at.groups, job, first)?;
    Ok(List::from_vec(limits))
}

// The instance at which it is read first what a job asks of limits: one whose host has a value that the job asks for, if there is
// one, so that few others are looked at for the rest.
fn first_to_read<'a>(at: &Setting<'a>, job: &Job) -> Option<&'a InstanceId> {
    for name in job.request.asked.keys() {
        if let Some(holder) = at.holders.get(name) {
            return Some(holder);
        }
    }
    at.order.first()
}

fn first_asked(alloc: Global, at: &Setting<'_>, job: &Job) -> Result<List<Counted>, AllocError>
    ensures { IfOk result
        (λ limits. All (IsAsked at.now.cluster.now at.now.groups.now job.now) limits) }
{
    match first_to_read(at, job) {
        Some(first) => asked_at(alloc, at, job, first),
        None => Ok(List::new(alloc)),
    }
}

fn counts_name(name: &Text, counted: &Counted) -> bool
    ensures { result ≡ is_of counted.now.limit name.now }
{
    is_of_resource(&counted.limit, name)
}

fn is_asked(asked: &[Counted], name: &Text) -> bool
    ensures { result ≡ list_any (λ counted. is_of counted.limit name.now) asked.now }
{
    asked.iter().any(|counted| counts_name(name, counted))
}

fn add_named(asked: &mut List<Counted>, name: &Text, counted: Counted) -> Result<(), AllocError>
    ensures { OnOk result (asked.new ≡ asked.old
        ++ filter (λ more. is_of more.limit name.now) (counted ∷ [])) }
{
    if !counts_name(name, &counted) {
        return Ok(());
    }
    asked.push(counted)
}

fn add_all_named(
    asked: &mut List<Counted>,
    name: &Text,
    limits: List<Counted>,
) -> Result<(), AllocError>
    ensures { OnOk result (asked.new ≡ asked.old
        ++ filter (λ more. is_of more.limit name.now) limits) }
{
    for counted in limits.into_vec() {
        add_named(asked, name, counted)?;
    }
    Ok(())
}

// What is asked of a value, read where that is, unless it is known.
fn add_asked(
    alloc: Global,
    at: &Setting<'_>,
    job: &Job,
    asked: &mut List<Counted>,
    name: &Text,
) -> Result<(), AllocError>
    requires { All (IsAsked at.now.cluster.now at.now.groups.now job.now) asked.old }
    ensures { OnOk result (All (IsAsked at.now.cluster.now at.now.groups.now job.now) asked.new) }
{
    if is_asked(asked.items(), name) {
        return Ok(());
    }
    let Some(holder) = at.holders.get(name) else {
        return Ok(());
    };
    let limits = asked_at(alloc, at, job, holder)?;
    add_all_named(asked, name, limits)?;
    Ok(())
}

/// What one slot of a job asks of limits: of those that count at the first instance, of which some count everywhere, and of
/// the values of hosts that it asks for, which the first instance may not have.
pub fn asked_limits(alloc: Global, at: &Setting<'_>, job: &Job) -> Result<List<Counted>, AllocError>
    ensures { IfOk result
        (λ limits. All (IsAsked at.now.cluster.now at.now.groups.now job.now) limits) }
{
    let mut asked = first_asked(alloc, at, job)?;
    for name in job.request.asked.keys() {
        add_asked(alloc, at, job, &mut asked, name)?;
    }
    Ok(asked)
}

fn lacks_room(booked: &Timeline, from: u64, until: u64, counted: &Counted) -> bool
    ensures { result ≡ has_none booked.now from until counted.now }
{
    match counted.capacity.checked_sub(u128::from(counted.amount)) {
        Some(room) => booked.is_above(&counted.limit, from, until, room),
        None => true,
    }
}

// Whether a limit counts everywhere and has no room for a slot.
fn is_exhausted(booked: &Timeline, alike: bool, from: u64, until: u64, counted: &Counted) -> bool
    ensures { result ≡ exhausted_if alike booked.now from until counted.now }
{
    is_common(alike, &counted.limit) && lacks_room(booked, from, until, counted)
}

fn any_exhausted(booked: &Timeline, alike: bool, from: u64, until: u64, limits: &[Counted]) -> bool
    ensures { result ≡ list_any (exhausted_if alike booked.now from until) limits.now }
{
    limits.iter().any(|counted| is_exhausted(booked, alike, from, until, counted))
}

fn rules_out(booked: &Timeline, alike: bool, from: u64, until: u64, limits: &[Counted]) -> bool
    ensures { result ≡ ruled_out_if alike booked.now from until limits.now }
{
    from < until && any_exhausted(booked, alike, from, until, limits)
}

/// Whether a task of a job can't be placed from a moment on, since one of its limits that count everywhere has no room for a
/// slot: those of all hosts, of its parallel environment, and of quotas, where none of their rules looks at queues or hosts
/// (host_conf, sge_pe, sge_resource_quota).
pub(crate) fn is_refused(
    at: &Setting<'_>,
    booked: &Timeline,
    limits: &List<Counted>,
    job: &Job,
    from: u64,
) -> bool
    requires { All (IsAsked at.now.cluster.now at.now.groups.now job.now) limits.now }
    ensures { result ≡ true → placement_of at.now.cluster.now at.now.groups.now
        at.now.order.now booked.now job.now from ≡ None }
{
    let until = window_end_from(at.cluster, job, from);
    let alike = counts_alike(at.cluster);
    rules_out(booked, alike, from, until, limits.items())
}
