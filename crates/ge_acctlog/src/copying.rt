// A copy of a line.
ghost use Rattle.std.specs.Prelude.{◌≡◌, IfOk};

use ge_collections::{Twin, twins4};
use ge_rows::Line;
use std::alloc::{AllocError, Global};

/// The same line once more.
pub(crate) fn copied(alloc: Global, line: &Line) -> Result<Line, AllocError>
    ensures { IfOk result (λ copy. copy ≡ line.now) }
{
    let (queue, host, group, owner) = twins4(
        alloc,
        &line.queue,
        &line.host,
        &line.group,
        &line.owner,
    )?;
    let (name, account, project, pe) = twins4(
        alloc,
        &line.name,
        &line.account,
        &line.project,
        &line.pe,
    )?;
    Ok(Line {
        queue,
        host,
        group,
        owner,
        name,
        job: line.job,
        account,
        priority: line.priority,
        submitted: line.submitted,
        start: line.start,
        end: line.end,
        failed: line.failed,
        exit: line.exit,
        project,
        pe,
        slots: line.slots,
        task: line.task,
        cpu: line.cpu,
        mem: line.mem,
        io: line.io,
    })
}
