// The whole cluster.
ghost use Rattle.std.specs.Prelude.{◌≡◌, ◌≤◌, length, IfOk};
ghost use Rattle.ge_model_codec.specs.Reading.{ReadsAs};
ghost use Rattle.ge_model_codec.specs.Cluster.{work_code, cluster_front_code, cluster_of};

use crate::canon::{Canon, Format, Format1, Format2};
use crate::pairs::Fields;
use crate::tables::take_table;
use ge_model_codec::TakeFault;
use ge_rows::{
    Advance, Cluster, ComplexDef, HostRow, JobRow, JobTable, Line, List, PeRow, ProjectRow,
    QueueRow, QuotaRow, Sched, ShareNode, Table, Text, UserRow,
};
use std::alloc::{AllocError, Global};

type Counters = (u64, u64, u32, u64);

type Machines = (
    Table<Text, HostRow>,
    Table<Text, List<Text>>,
    Table<Text, QueueRow>,
    Table<Text, PeRow>,
    Table<Text, QuotaRow>,
);

type People = (
    Table<Text, List<Text>>,
    Table<Text, UserRow>,
    Table<Text, ProjectRow>,
    Table<u32, ShareNode>,
    Sched,
);

type Usage = Table<(Text, Text, u64), u128>;

type Work = ((List<Text>, List<Text>), JobTable, (Usage, List<Line>));

// The fields before `next_advance`.
type ClusterFront = (Counters, Table<Text, ComplexDef>, Machines, People, Work);

type Booked = (u32, Table<u32, Advance>);

// The fields from `managers` to `lines`, the jobs in a format.
#[tactic(auto, using(crate::specs::Passing::fault_passes, crate::specs::Passing::fault_passes_made))]
fn take_work<J: Format<JobRow>>(
    alloc: Global,
    bytes: &[u8],
    at: usize,
) -> Result<(Work, usize), TakeFault>
    requires { at ≤ length bytes.now }
    ensures read { ReadsAs result ((work_code J.code).read bytes.now at) }
    ensures within { IfOk result (λ p. p.1 ≤ length bytes.now) }
{
    let (lists, mid) = <(List<Text>, List<Text>)>::take(alloc, bytes, at)?;
    let (jobs, mid) = take_table::<u32, JobRow, J, JobTable>(alloc, bytes, mid)?;
    let (accounts, past) = <(Usage, List<Line>)>::take(alloc, bytes, mid)?;
    Ok(((lists, jobs, accounts), past))
}

// The fields before `next_advance`, the complex table and the jobs in a format.
#[tactic(auto, using(crate::specs::Passing::fault_passes, crate::specs::Passing::fault_passes_made))]
fn take_front<C: Format<ComplexDef>, J: Format<JobRow>>(
    alloc: Global,
    bytes: &[u8],
    at: usize,
) -> Result<(ClusterFront, usize), TakeFault>
    requires { at ≤ length bytes.now }
    ensures read { ReadsAs result ((cluster_front_code C.code J.code).read bytes.now at) }
    ensures within { IfOk result (λ p. p.1 ≤ length bytes.now) }
{
    let (counters, mid) = Counters::take(alloc, bytes, at)?;
    let (complexes, mid) = take_table::<Text, ComplexDef, C, Table<Text, ComplexDef>>(
        alloc, bytes, mid,
    )?;
    let (machines, mid) = Machines::take(alloc, bytes, mid)?;
    let (people, mid) = People::take(alloc, bytes, mid)?;
    let (work, past) = take_work::<J>(alloc, bytes, mid)?;
    Ok(((counters, complexes, machines, people, work), past))
}

// A cluster of its fields.
fn cluster_of(front: ClusterFront, booked: Booked) -> Cluster
    ensures { result ≡ cluster_of (front, booked) }
{
    let (
        (last, last_run, next_job, next_serial),
        complexes,
        (hosts, groups, queues, pes, quotas),
        (sets, users, projects, shares, sched),
        ((managers, operators), jobs, (usage, lines)),
    ) = front;
    let (next_advance, advances) = booked;
    Cluster {
        last,
        last_run,
        next_job,
        next_serial,
        complexes,
        hosts,
        groups,
        queues,
        pes,
        quotas,
        sets,
        users,
        projects,
        shares,
        sched,
        managers,
        operators,
        jobs,
        usage,
        lines,
        next_advance,
        advances,
    }
}

impl Canon for Cluster {
    ghost use Rattle.ge_model_codec.specs.Cluster.{cluster_code};
    ghost use Rattle.ge_codec.specs.ClusterLaws.{cluster_canonical};

    ghost code = { cluster_code };

    ghost canonical = { cluster_canonical };

    fn put(&self, out: &mut Text) -> Result<(), AllocError> {
        (
            (
                (
                    &self.last,
                    &self.last_run,
                    &self.next_job,
                    &self.next_serial,
                ),
                &self.complexes,
                (
                    &self.hosts,
                    &self.groups,
                    &self.queues,
                    &self.pes,
                    &self.quotas,
                ),
                (
                    &self.sets,
                    &self.users,
                    &self.projects,
                    &self.shares,
                    &self.sched,
                ),
                (
                    (&self.managers, &self.operators),
                    &self.jobs,
                    (&self.usage, &self.lines),
                ),
            ),
            (&self.next_advance, &self.advances),
        )
            .put_all(out)
    }

    #[tactic(auto, using(crate::specs::Passing::fault_passes, crate::specs::Passing::fault_passes_made))]
    fn take(alloc: Global, bytes: &[u8], at: usize) -> Result<(Cluster, usize), TakeFault> {
        let (front, mid) = take_front::<Format2, Format2>(alloc, bytes, at)?;
        let (booked, past) = Booked::take(alloc, bytes, mid)?;
        Ok((cluster_of(front, booked), past))
    }
}

impl Format<Cluster> for Format1 {
    ghost use Rattle.ge_model_codec.specs.Cluster.{cluster_code_1};

    ghost code = { cluster_code_1 };

    #[tactic(auto, using(crate::specs::Passing::fault_passes, crate::specs::Passing::fault_passes_made))]
    fn take(alloc: Global, bytes: &[u8], at: usize) -> Result<(Cluster, usize), TakeFault> {
        let (front, past) = take_front::<Format1, Format1>(alloc, bytes, at)?;
        Ok((cluster_of(front, (1, Table::new(alloc))), past))
    }
}
