//! Objects that are used.
ghost use Rattle.std.specs.Prelude.{◌≡◌, IfOk};
ghost use Rattle.ge_model_config.specs.Used as used;

use crate::granted::{host_is_granted, queue_is_granted};
use crate::jobs::{complex_is_asked, pe_is_asked, project_in_jobs};
use crate::opening::is_opening_complex;
use crate::queues::{
    complex_in_queues, pe_in_queues, place_in_queues, project_in_queues, set_in_queues,
};
use crate::rules::{complex_in_rules, group_in_rules, set_in_rules};
use crate::sites::{
    complex_on_hosts, place_in_groups, project_in_shares, set_in_pes, set_in_projects,
};
use ge_pieces::{is_same, is_word};
use ge_rows::{Cluster, ObjectKind, Text};
use std::alloc::{AllocError, Global};

fn is_cited_as_host(name: &Text, c: &Cluster) -> bool
    ensures { result ≡ used.is_cited_as_host c.now name.now }
{
    place_in_groups(name, c) || place_in_queues(name, c)
}

fn host_is_used(alloc: Global, name: &Text, c: &Cluster) -> Result<bool, AllocError>
    ensures { IfOk result (λ is. is ≡ used.is_host_used c.now name.now) }
{
    let granted = host_is_granted(alloc, name, c)?;
    Ok(is_word(name.bytes(), b"global") || granted || is_cited_as_host(name, c))
}

fn group_is_used(name: &Text, c: &Cluster) -> bool
    ensures { result ≡ used.is_group_used c.now name.now }
{
    is_cited_as_host(name, c) || group_in_rules(name, c)
}

fn pe_is_used(alloc: Global, name: &Text, c: &Cluster) -> Result<bool, AllocError>
    ensures { IfOk result (λ is. is ≡ used.is_pe_used c.now name.now) }
{
    let asked = pe_is_asked(alloc, name, c)?;
    Ok(pe_in_queues(name, c) || asked)
}

fn set_is_used(name: &Text, c: &Cluster) -> bool
    ensures { result ≡ used.is_set_used c.now name.now }
{
    set_in_queues(name, c)
        || set_in_pes(name, c)
        || set_in_projects(name, c)
        || set_in_rules(name, c)
}

fn project_is_used(alloc: Global, name: &Text, c: &Cluster) -> Result<bool, AllocError>
    ensures { IfOk result (λ is. is ≡ used.is_project_used c.now name.now) }
{
    let asked = project_in_jobs(alloc, name, c)?;
    Ok(project_in_queues(name, c) || asked || project_in_shares(name, c))
}

fn complex_is_used(alloc: Global, name: &Text, c: &Cluster) -> Result<bool, AllocError>
    ensures { IfOk result (λ is. is ≡ used.is_complex_used c.now name.now) }
{
    let asked = complex_is_asked(alloc, name, c)?;
    Ok(
        is_opening_complex(name)
            || is_same(name, &c.sched.load_formula)
            || complex_on_hosts(name, c)
            || complex_in_queues(name, c)
            || complex_in_rules(name, c)
            || asked,
    )
}

/// Whether an object is used, so that it can't be deleted; users, rule sets and the share tree never are. Live jobs are asked
/// for by the marks of their table.
#[tactic(auto, unfolding(ge_model_config::specs::Used::is_used))]
pub fn is_used(
    alloc: Global,
    c: &Cluster,
    kind: ObjectKind,
    name: &Text,
) -> Result<bool, AllocError>
    ensures { IfOk result (λ is. is ≡ used.is_used c.now kind name.now) }
{
    match kind {
        ObjectKind::Queue => queue_is_granted(alloc, name, c),
        ObjectKind::Host => host_is_used(alloc, name, c),
        ObjectKind::Group => Ok(group_is_used(name, c)),
        ObjectKind::Pe => pe_is_used(alloc, name, c),
        ObjectKind::Set => Ok(set_is_used(name, c)),
        ObjectKind::Project => project_is_used(alloc, name, c),
        ObjectKind::Complexes => complex_is_used(alloc, name, c),
        ObjectKind::Quota => Ok(false),
        ObjectKind::User => Ok(false),
        ObjectKind::Shares => Ok(false),
        ObjectKind::Sched => Ok(false),
        ObjectKind::Managers => Ok(false),
        ObjectKind::Operators => Ok(false),
    }
}
