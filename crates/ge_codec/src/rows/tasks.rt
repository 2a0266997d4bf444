// Tasks, grants and requests.
use crate::canon::Canon;
use crate::pairs::Fields;
use ge_model_codec::TakeFault;
use ge_rows::{
    Advance, Grant, InstanceId, List, PeRequest, Request, Running, Start, Table, TaskId, TaskSpan,
    Text, Value,
};
use std::alloc::{AllocError, Global};

type InstanceIdParts = (Text, Text);

impl Canon for InstanceId {
    ghost use Rattle.ge_model_codec.specs.Jobs.{instance_id_code};
    ghost use Rattle.ge_codec.specs.JobLaws.{instance_id_canonical};

    ghost code = { instance_id_code };

    ghost canonical = { instance_id_canonical };

    fn put(&self, out: &mut Text) -> Result<(), AllocError> {
        (&self.queue, &self.host).put_all(out)
    }

    #[tactic(auto, using(crate::specs::Passing::fault_passes_made))]
    fn take(alloc: Global, bytes: &[u8], at: usize) -> Result<(InstanceId, usize), TakeFault> {
        let (parts, past) = InstanceIdParts::take(alloc, bytes, at)?;
        let (queue, host) = parts;
        Ok((InstanceId { queue, host }, past))
    }
}

type GrantParts = (InstanceId, u32);

impl Canon for Grant {
    ghost use Rattle.ge_model_codec.specs.Jobs.{grant_code};
    ghost use Rattle.ge_codec.specs.JobLaws.{grant_canonical};

    ghost code = { grant_code };

    ghost canonical = { grant_canonical };

    fn put(&self, out: &mut Text) -> Result<(), AllocError> {
        (&self.at, &self.slots).put_all(out)
    }

    #[tactic(auto, using(crate::specs::Passing::fault_passes_made))]
    fn take(alloc: Global, bytes: &[u8], at: usize) -> Result<(Grant, usize), TakeFault> {
        let (parts, past) = GrantParts::take(alloc, bytes, at)?;
        let (at, slots) = parts;
        Ok((Grant { at, slots }, past))
    }
}

type TaskIdParts = (u32, u32);

impl Canon for TaskId {
    ghost use Rattle.ge_model_codec.specs.Jobs.{task_id_code};
    ghost use Rattle.ge_codec.specs.JobLaws.{task_id_canonical};

    ghost code = { task_id_code };

    ghost canonical = { task_id_canonical };

    fn put(&self, out: &mut Text) -> Result<(), AllocError> {
        (&self.job, &self.task).put_all(out)
    }

    #[tactic(auto, using(crate::specs::Passing::fault_passes_made))]
    fn take(alloc: Global, bytes: &[u8], at: usize) -> Result<(TaskId, usize), TakeFault> {
        let (parts, past) = TaskIdParts::take(alloc, bytes, at)?;
        let (job, task) = parts;
        Ok((TaskId { job, task }, past))
    }
}

type TaskSpanParts = (u32, u32, u32);

impl Canon for TaskSpan {
    ghost use Rattle.ge_model_codec.specs.Jobs.{task_span_code};
    ghost use Rattle.ge_codec.specs.JobLaws.{task_span_canonical};

    ghost code = { task_span_code };

    ghost canonical = { task_span_canonical };

    fn put(&self, out: &mut Text) -> Result<(), AllocError> {
        (&self.first, &self.last, &self.step).put_all(out)
    }

    #[tactic(auto, using(crate::specs::Passing::fault_passes_made))]
    fn take(alloc: Global, bytes: &[u8], at: usize) -> Result<(TaskSpan, usize), TakeFault> {
        let (parts, past) = TaskSpanParts::take(alloc, bytes, at)?;
        let (first, last, step) = parts;
        Ok((TaskSpan { first, last, step }, past))
    }
}

type RunningParts = (u64, u64, List<Grant>, bool);

impl Canon for Running {
    ghost use Rattle.ge_model_codec.specs.Jobs.{running_code};
    ghost use Rattle.ge_codec.specs.JobLaws.{running_canonical};

    ghost code = { running_code };

    ghost canonical = { running_canonical };

    fn put(&self, out: &mut Text) -> Result<(), AllocError> {
        (&self.serial, &self.start, &self.grants, &self.deleting).put_all(out)
    }

    #[tactic(auto, using(crate::specs::Passing::fault_passes_made))]
    fn take(alloc: Global, bytes: &[u8], at: usize) -> Result<(Running, usize), TakeFault> {
        let (parts, past) = RunningParts::take(alloc, bytes, at)?;
        let (serial, start, grants, deleting) = parts;
        Ok((
            Running {
                serial,
                start,
                grants,
                deleting,
            },
            past,
        ))
    }
}

type PeRequestParts = (Text, u32, u32);

impl Canon for PeRequest {
    ghost use Rattle.ge_model_codec.specs.Jobs.{pe_request_code};
    ghost use Rattle.ge_codec.specs.JobLaws.{pe_request_canonical};

    ghost code = { pe_request_code };

    ghost canonical = { pe_request_canonical };

    fn put(&self, out: &mut Text) -> Result<(), AllocError> {
        (&self.name, &self.low, &self.high).put_all(out)
    }

    #[tactic(auto, using(crate::specs::Passing::fault_passes_made))]
    fn take(alloc: Global, bytes: &[u8], at: usize) -> Result<(PeRequest, usize), TakeFault> {
        let (parts, past) = PeRequestParts::take(alloc, bytes, at)?;
        let (name, low, high) = parts;
        Ok((PeRequest { name, low, high }, past))
    }
}

type RequestParts = (Table<Text, Value>, List<Text>, Option<PeRequest>);

impl Canon for Request {
    ghost use Rattle.ge_model_codec.specs.Jobs.{request_code};
    ghost use Rattle.ge_codec.specs.JobLaws.{request_canonical};

    ghost code = { request_code };

    ghost canonical = { request_canonical };

    fn put(&self, out: &mut Text) -> Result<(), AllocError> {
        (&self.asked, &self.queues, &self.pe).put_all(out)
    }

    #[tactic(auto, using(crate::specs::Passing::fault_passes_made))]
    fn take(alloc: Global, bytes: &[u8], at: usize) -> Result<(Request, usize), TakeFault> {
        let (parts, past) = RequestParts::take(alloc, bytes, at)?;
        let (asked, queues, pe) = parts;
        Ok((Request { asked, queues, pe }, past))
    }
}

type StartParts = (TaskId, u64, List<Grant>);

impl Canon for Start {
    ghost use Rattle.ge_model_codec.specs.Jobs.{start_code};
    ghost use Rattle.ge_codec.specs.JobLaws.{start_canonical};

    ghost code = { start_code };

    ghost canonical = { start_canonical };

    fn put(&self, out: &mut Text) -> Result<(), AllocError> {
        (&self.task, &self.serial, &self.grants).put_all(out)
    }

    #[tactic(auto, using(crate::specs::Passing::fault_passes_made))]
    fn take(alloc: Global, bytes: &[u8], at: usize) -> Result<(Start, usize), TakeFault> {
        let (parts, past) = StartParts::take(alloc, bytes, at)?;
        let (task, serial, grants) = parts;
        Ok((
            Start {
                task,
                serial,
                grants,
            },
            past,
        ))
    }
}

type AdvanceParts = ((Text, Text, Text), (u64, u64), (Request, List<Grant>));

impl Canon for Advance {
    ghost use Rattle.ge_model_codec.specs.Jobs.{advance_code};
    ghost use Rattle.ge_codec.specs.JobLaws.{advance_canonical};

    ghost code = { advance_code };

    ghost canonical = { advance_canonical };

    fn put(&self, out: &mut Text) -> Result<(), AllocError> {
        (
            (&self.name, &self.owner, &self.group),
            (&self.from, &self.until),
            (&self.request, &self.grants),
        )
            .put_all(out)
    }

    #[tactic(auto, using(crate::specs::Passing::fault_passes_made))]
    fn take(alloc: Global, bytes: &[u8], at: usize) -> Result<(Advance, usize), TakeFault> {
        let (parts, past) = AdvanceParts::take(alloc, bytes, at)?;
        let ((name, owner, group), (from, until), (request, grants)) = parts;
        Ok((
            Advance {
                name,
                owner,
                group,
                from,
                until,
                request,
                grants,
            },
            past,
        ))
    }
}
