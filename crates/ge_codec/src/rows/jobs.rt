// Jobs and accounting lines.
ghost use Rattle.std.specs.Prelude.{◌≡◌};
ghost use Rattle.ge_model_codec.specs.Jobs.{job_from_parts};

use crate::canon::{Canon, Format, Format1};
use crate::pairs::Fields;
use ge_model_codec::TakeFault;
use ge_rows::{Job, Line, List, Request, Running, Table, TaskSet, TaskSpan, Text};
use std::alloc::{AllocError, Global};

// The fields before `advance`.
type JobFront = (
    (u32, Text, Text, Text, Text),
    (u64, i32, u64, Text, bool),
    (u64, u64, Request, bool, TaskSpan),
    (TaskSet, TaskSet, Table<u32, Running>, u8, List<u32>),
    (List<u32>, u64, List<Text>, Text),
);

// A job of its fields.
fn job_of(front: JobFront, advance: u32) -> Job
    ensures { result ≡ job_from_parts (front, advance) }
{
    let (
        (number, name, owner, group, account),
        (submitted, priority, share, project, reserve),
        (not_before, deadline, request, array, span),
        (queued, broken, running, hold, after),
        (after_each, oticket, words, script),
    ) = front;
    Job {
        number,
        name,
        owner,
        group,
        account,
        submitted,
        priority,
        share,
        project,
        reserve,
        not_before,
        deadline,
        request,
        array,
        span,
        queued,
        broken,
        running,
        hold,
        after,
        after_each,
        oticket,
        words,
        script,
        advance,
    }
}

impl Canon for Job {
    ghost use Rattle.ge_model_codec.specs.Jobs.{job_code};
    ghost use Rattle.ge_codec.specs.JobLaws.{job_canonical};

    ghost code = { job_code };

    ghost canonical = { job_canonical };

    fn put(&self, out: &mut Text) -> Result<(), AllocError> {
        (
            (
                (
                    &self.number,
                    &self.name,
                    &self.owner,
                    &self.group,
                    &self.account,
                ),
                (
                    &self.submitted,
                    &self.priority,
                    &self.share,
                    &self.project,
                    &self.reserve,
                ),
                (
                    &self.not_before,
                    &self.deadline,
                    &self.request,
                    &self.array,
                    &self.span,
                ),
                (
                    &self.queued,
                    &self.broken,
                    &self.running,
                    &self.hold,
                    &self.after,
                ),
                (&self.after_each, &self.oticket, &self.words, &self.script),
            ),
            &self.advance,
        )
            .put_all(out)
    }

    #[tactic(auto, using(crate::specs::Passing::fault_passes, crate::specs::Passing::fault_passes_made))]
    fn take(alloc: Global, bytes: &[u8], at: usize) -> Result<(Job, usize), TakeFault> {
        let ((front, advance), past) = <(JobFront, u32)>::take(alloc, bytes, at)?;
        Ok((job_of(front, advance), past))
    }
}

impl Format<Job> for Format1 {
    ghost use Rattle.ge_model_codec.specs.Jobs.{job_code_1};

    ghost code = { job_code_1 };

    #[tactic(auto, using(crate::specs::Passing::fault_passes, crate::specs::Passing::fault_passes_made))]
    fn take(alloc: Global, bytes: &[u8], at: usize) -> Result<(Job, usize), TakeFault> {
        let (front, past) = JobFront::take(alloc, bytes, at)?;
        Ok((job_of(front, 0), past))
    }
}

type LineParts = (
    (Text, Text, Text, Text, Text),
    (u32, Text, i32, u64, u64),
    (u64, u32, u32, Text, Text),
    (u32, u32, u64, u64, u64),
);

impl Canon for Line {
    ghost use Rattle.ge_model_codec.specs.Jobs.{line_code};
    ghost use Rattle.ge_codec.specs.JobLaws.{line_canonical};

    ghost code = { line_code };

    ghost canonical = { line_canonical };

    fn put(&self, out: &mut Text) -> Result<(), AllocError> {
        (
            (
                &self.queue,
                &self.host,
                &self.group,
                &self.owner,
                &self.name,
            ),
            (
                &self.job,
                &self.account,
                &self.priority,
                &self.submitted,
                &self.start,
            ),
            (&self.end, &self.failed, &self.exit, &self.project, &self.pe),
            (&self.slots, &self.task, &self.cpu, &self.mem, &self.io),
        )
            .put_all(out)
    }

    #[tactic(auto, using(crate::specs::Passing::fault_passes_made))]
    fn take(alloc: Global, bytes: &[u8], at: usize) -> Result<(Line, usize), TakeFault> {
        let (parts, past) = LineParts::take(alloc, bytes, at)?;
        let (
            (queue, host, group, owner, name),
            (job, account, priority, submitted, start),
            (end, failed, exit, project, pe),
            (slots, task, cpu, mem, io),
        ) = parts;
        Ok((
            Line {
                queue,
                host,
                group,
                owner,
                name,
                job,
                account,
                priority,
                submitted,
                start,
                end,
                failed,
                exit,
                project,
                pe,
                slots,
                task,
                cpu,
                mem,
                io,
            },
            past,
        ))
    }
}
