//! The request of a job, and what refuses it (qsub, qalter).

ghost use Rattle.std.specs.Prelude.{◌≡◌, [], IfOk, codes};
ghost use Rattle.ge_model_config.specs.Requests.{in_place, all_asked, queues_of, pe_read, request_of, request_read, request_changed};
ghost use Rattle.ge_model_config.specs.Requests as requests;
ghost use Rattle.ge_model_config.specs.Cited.{answered};
ghost use Rattle.ge_pieces.specs.Gives.{Reads, IsAnswered};

use crate::asking::read_all_asked;
use crate::options::words_of_option;
use crate::places::read_queues;
use crate::slots::read_pe;
use ge_base::Refusal;
use ge_rows::{Cluster, List, Options, PeRequest, Request, Table, Text, Twin, Value};
use std::alloc::{AllocError, Global};

// A request that asks for nothing.
fn no_request(alloc: Global) -> Request
    ensures { result ≡ requests.no_request }
{
    Request {
        asked: Table::new(alloc),
        queues: List::new(alloc),
        pe: None,
    }
}

fn asked_in_place(
    alloc: Global,
    c: &Cluster,
    options: &Options,
    older: &Table<Text, Value>,
    faults: &mut Option<Refusal>,
) -> Result<Table<Text, Value>, AllocError>
    ensures { Reads result faults.old faults.new
        (in_place options.now.items (codes "-l") older.now (all_asked c.now)) }
{
    match words_of_option(options, b"-l") {
        None => older.twin(alloc),
        Some(words) => read_all_asked(alloc, c, words.items(), faults),
    }
}

fn queues_in_place(
    alloc: Global,
    options: &Options,
    older: &List<Text>,
) -> Result<List<Text>, AllocError>
    ensures { IfOk result (λ queues. queues
        ≡ (in_place options.now.items (codes "-q") older.now (λ words. (queues_of words, []))).0) }
{
    match words_of_option(options, b"-q") {
        None => older.twin(alloc),
        Some(words) => read_queues(alloc, words.items()),
    }
}

fn pe_in_place(
    alloc: Global,
    c: &Cluster,
    options: &Options,
    older: &Option<PeRequest>,
    faults: &mut Option<Refusal>,
) -> Result<Option<PeRequest>, AllocError>
    ensures { Reads result faults.old faults.new
        (in_place options.now.items (codes "-pe") older.now (pe_read c.now)) }
{
    match words_of_option(options, b"-pe") {
        None => older.twin(alloc),
        Some(words) => read_pe(alloc, c, words.items(), faults),
    }
}

/// What `-l`, `-q` and `-pe` ask for, in place of those parts of an older request, whatever refuses it. What refuses it is noted
/// beside what was noted before: the refusals of [`read_request`].
#[tactic(auto, unfolding(ge_model_config::specs::Requests::request_of))]
pub fn request_over(
    alloc: Global,
    c: &Cluster,
    options: &Options,
    older: &Request,
    faults: &mut Option<Refusal>,
) -> Result<Request, AllocError>
    ensures { Reads result faults.old faults.new
        (request_of c.now options.now.items older.now) }
{
    let asked = asked_in_place(alloc, c, options, &older.asked, faults)?;
    let queues = queues_in_place(alloc, options, &older.queues)?;
    let pe = pe_in_place(alloc, c, options, &older.pe, faults)?;
    Ok(Request { asked, queues, pe })
}

fn answer(
    alloc: Global,
    c: &Cluster,
    options: &Options,
    older: &Request,
) -> Result<Request, Refusal>
    ensures { IsAnswered result (answered (request_of c.now options.now.items older.now)) }
{
    let mut faults = None;
    let request = request_over(alloc, c, options, older, &mut faults)?;
    match faults {
        None => Ok(request),
        Some(refusal) => Err(refusal),
    }
}

/// The request of a new job, or what refuses it (qsub): `NoSuchObject` for a complex or a parallel environment that isn't
/// there, `BadValue` for a value that is none of its kind, for `slots` under `-l` and for a range of slots that is none, is
/// empty, begins at 0 or passes 1,000,000, `NotRequestable` for a complex that jobs may not ask for, and `Limit` for more
/// than 64 attributes.
#[tactic(auto, unfolding(ge_model_config::specs::Requests::request_read))]
pub fn read_request(alloc: Global, c: &Cluster, options: &Options) -> Result<Request, Refusal>
    ensures { IsAnswered result (request_read c.now options.now.items) }
{
    answer(alloc, c, options, &no_request(alloc))
}

/// The request of a job that asked for another one before, or what refuses it (qalter): each of `-l`, `-q` and `-pe` that is
/// given replaces that part of the older request. The refusals are those of [`read_request`].
#[tactic(auto, unfolding(ge_model_config::specs::Requests::request_changed))]
pub fn change_request(
    alloc: Global,
    c: &Cluster,
    options: &Options,
    older: &Request,
) -> Result<Request, Refusal>
    ensures { IsAnswered result (request_changed c.now options.now.items older.now) }
{
    answer(alloc, c, options, older)
}
