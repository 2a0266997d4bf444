//! The job that stands for an advance reservation.

ghost use Rattle.std.specs.Prelude.{◌≡◌, ◌∷◌, [], IfOk};
ghost use Rattle.ge_model_place.specs.StandIns as standing;

use ge_rows::{
    Advance, Job, List, Request, Table, TaskSet, TaskSpan, Text, Twin, Value, twins2, twins3,
};
use std::alloc::{AllocError, Global};

const FIRST_TASK: TaskSpan = TaskSpan {
    first: 1,
    last: 1,
    step: 1,
};

// What a reservation asks for, with the time that it lasts as the hard limit and without a soft one.
fn asked_for(alloc: Global, advance: &Advance) -> Result<Table<Text, Value>, AllocError>
    ensures { IfOk result (λ asked. asked ≡ standing.asked_for advance.now) }
{
    let mut asked = advance.request.asked.twin(alloc)?;
    let soft = Text::from_bytes(alloc, b"s_rt")?;
    let _before = asked.remove(&soft);
    let hard = Text::from_bytes(alloc, b"h_rt")?;
    let seconds = advance.until.saturating_sub(advance.from);
    asked.insert(hard, Value::Amount(seconds))?;
    Ok(asked)
}

fn request(alloc: Global, advance: &Advance) -> Result<Request, AllocError>
    ensures { IfOk result (λ request. request ≡ standing.stand_in_request advance.now) }
{
    let asked = asked_for(alloc, advance)?;
    let (queues, pe) = twins2(alloc, &advance.request.queues, &advance.request.pe)?;
    Ok(Request { asked, queues, pe })
}

fn first_task(alloc: Global) -> Result<TaskSet, AllocError>
    ensures { IfOk result (λ tasks. tasks ≡ standing.first_task ∷ []) }
{
    let mut spans = List::new(alloc);
    spans.push(FIRST_TASK)?;
    Ok(TaskSet::from_spans(spans))
}

/// The job that stands for an advance reservation: one task that waits, with the reservation's name and owner, which asks for
/// what the reservation asks for, as long as that lasts. It has no number (qrsub).
pub fn stand_in(alloc: Global, advance: &Advance) -> Result<Job, AllocError>
    ensures { IfOk result (λ job. job ≡ standing.stand_in advance.now) }
{
    let (name, owner, group) = twins3(alloc, &advance.name, &advance.owner, &advance.group)?;
    let request = request(alloc, advance)?;
    let queued = first_task(alloc)?;
    Ok(Job {
        number: 0,
        name,
        owner,
        group,
        account: Text::new(alloc),
        submitted: 0,
        priority: 0,
        share: 0,
        project: Text::new(alloc),
        reserve: false,
        not_before: 0,
        deadline: 0,
        request,
        array: false,
        span: FIRST_TASK,
        queued,
        broken: TaskSet::new(alloc),
        running: Table::new(alloc),
        hold: 0,
        after: List::new(alloc),
        after_each: List::new(alloc),
        oticket: 0,
        words: List::new(alloc),
        script: Text::new(alloc),
        advance: 0,
    })
}
