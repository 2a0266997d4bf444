// What live jobs and advance reservations ask for.
ghost use Rattle.std.specs.Prelude.{◌≡◌, ◌||◌, IfOk};
ghost use Rattle.ge_collections.specs.Keyed.{text_eq};
ghost use Rattle.ge_model_config.specs.Cited.{has_name as has_name_in};
ghost use Rattle.ge_model_config.specs.Used as used;

use crate::marked::is_marked;
use crate::there::has_name;
use ge_pieces::is_same;
use ge_rows::{Cluster, MarkSort, PeRequest, Text};
use std::alloc::{AllocError, Global};

fn asks_pe(name: &Text, pe: &Option<PeRequest>) -> bool
    ensures { result ≡ used.asks_pe name.now pe.now }
{
    match pe {
        None => false,
        Some(pe) => is_same(name, &pe.name),
    }
}

#[tactic(auto, using(crate::proofs::Borne::on_pe_asked))]
fn pe_in_jobs(alloc: Global, name: &Text, c: &Cluster) -> Result<bool, AllocError>
    ensures { IfOk result (λ asked. asked
        ≡ used.job_where c.now (λ job. used.asks_pe name.now job.request.pe)) }
{
    let asked = is_marked(alloc, &c.jobs, MarkSort::Pe, name)?;
    Ok(asked)
}

fn pe_in_advances(name: &Text, c: &Cluster) -> bool
    ensures { result ≡ used.advance_where c.now
        (λ booked. used.asks_pe name.now booked.request.pe) }
{
    for (_, booked) in c.advances.iter() {
        if asks_pe(name, &booked.request.pe) {
            return true;
        }
    }
    false
}

/// Whether a live job asks for a parallel environment, or an advance reservation does.
pub(crate) fn pe_is_asked(alloc: Global, name: &Text, c: &Cluster) -> Result<bool, AllocError>
    ensures { IfOk result (λ asked. asked
        ≡ (used.job_where c.now (λ job. used.asks_pe name.now job.request.pe)
        || used.advance_where c.now (λ booked. used.asks_pe name.now booked.request.pe))) }
{
    let asked = pe_in_jobs(alloc, name, c)?;
    Ok(asked || pe_in_advances(name, c))
}

// Whether a live job has this project, by a walk.
fn is_of_job(name: &Text, c: &Cluster) -> bool
    ensures { result ≡ used.job_where c.now (λ job. text_eq name.now job.project) }
{
    for (_, row) in c.jobs.iter() {
        if is_same(name, &row.job().project) {
            return true;
        }
    }
    false
}

/// Whether a live job has a project. A job without one bears no mark, so that an empty name is looked for by a walk.
#[tactic(auto, using(crate::proofs::Borne::on_project_named))]
pub(crate) fn project_in_jobs(alloc: Global, name: &Text, c: &Cluster) -> Result<bool, AllocError>
    ensures { IfOk result (λ has. has ≡ used.job_where c.now
        (λ job. text_eq name.now job.project)) }
{
    if name.is_empty() {
        return Ok(is_of_job(name, c));
    }
    let has = is_marked(alloc, &c.jobs, MarkSort::Project, name)?;
    Ok(has)
}

#[tactic(auto, using(crate::proofs::Borne::on_attribute))]
fn complex_in_jobs(alloc: Global, name: &Text, c: &Cluster) -> Result<bool, AllocError>
    ensures { IfOk result (λ asked. asked
        ≡ used.job_where c.now (λ job. has_name_in job.request.asked name.now)) }
{
    let asked = is_marked(alloc, &c.jobs, MarkSort::Attribute, name)?;
    Ok(asked)
}

fn complex_in_advances(name: &Text, c: &Cluster) -> bool
    ensures { result ≡ used.advance_where c.now (λ booked. has_name_in booked.request.asked
        name.now) }
{
    for (_, booked) in c.advances.iter() {
        if has_name(&booked.request.asked, name) {
            return true;
        }
    }
    false
}

/// Whether a live job asks for an attribute, or an advance reservation does.
pub(crate) fn complex_is_asked(alloc: Global, name: &Text, c: &Cluster) -> Result<bool, AllocError>
    ensures { IfOk result (λ asked. asked
        ≡ (used.job_where c.now (λ job. has_name_in job.request.asked name.now)
        || used.advance_where c.now (λ booked. has_name_in booked.request.asked name.now))) }
{
    let asked = complex_in_jobs(alloc, name, c)?;
    Ok(asked || complex_in_advances(name, c))
}
