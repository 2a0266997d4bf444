//! What `qacct` answers.

ghost use Rattle.std.specs.Prelude.{◌≡◌, ◌==◌, [], ◌∷◌, IfOk, codes, filter, map};
ghost use Rattle.ge_collections.specs.Keyed.{text_eq};
ghost use Rattle.ge_model_report.specs.Accounting.{account_of, line_text, sum_line};

use crate::line_fields;
use crate::summing::{sums_of_all, sums_of_owner, sums_text};
use ge_rows::{Cluster, Line, List, Query, Text};
use std::alloc::{AllocError, Global};

fn one(alloc: Global, line: Text) -> Result<List<Text>, AllocError>
    ensures { IfOk result (λ lines. lines ≡ line ∷ []) }
{
    let mut lines = List::new(alloc);
    lines.push(line)?;
    Ok(lines)
}

fn total(alloc: Global, lines: &[Line]) -> Result<List<Text>, AllocError>
    ensures { IfOk result (λ texts. texts ≡ sum_line (codes "total") lines.now ∷ []) }
{
    let sums = sums_of_all(lines);
    one(alloc, sums_text(alloc, b"total", &sums)?)
}

fn total_of(alloc: Global, lines: &[Line], owner: &Text) -> Result<List<Text>, AllocError>
    ensures { IfOk result (λ texts. texts
        ≡ sum_line owner.now (filter (λ line. text_eq line.owner owner.now) lines.now) ∷ []) }
{
    let sums = sums_of_owner(lines, owner);
    one(alloc, sums_text(alloc, owner.bytes(), &sums)?)
}

fn lines_of_job(alloc: Global, lines: &[Line], number: u32) -> Result<List<Text>, AllocError>
    ensures { IfOk result (λ texts. texts ≡ map line_text (filter
        (λ line. line.job == number) lines.now)) }
{
    let mut texts = List::new(alloc);
    for line in lines {
        if line.job == number {
            texts.push(line_fields::line_text(alloc, line)?)?;
        }
    }
    Ok(texts)
}

/// What `qacct` answers, line by line without line feeds: see the manual page qacct.
///
/// `Total` is one line: `total`, the number of accounting lines, and the sums of their wallclock, `cpu`, `mem` and
/// `io`. `Owner` (`-o`) is the owner's name with the same of the owner's lines; an owner without lines has zeros.
/// `Job` (`-j`) is each line of a job ([`line_text`](crate::line_text)) in the order of the ends; a job that has none
/// has no lines.
#[tactic(auto, unfolding(ge_model_report::specs::Accounting::account_of))]
pub fn account(alloc: Global, c: &Cluster, query: &Query) -> Result<List<Text>, AllocError>
    ensures { IfOk result (λ lines. lines ≡ account_of c.now query.now) }
{
    let lines = c.lines.items();
    match query {
        Query::Total => total(alloc, lines),
        Query::Owner(name) => total_of(alloc, lines, name),
        Query::Job(number) => lines_of_job(alloc, lines, *number),
    }
}
