// The cluster before the first command, and the values of attributes that a body leaves out.
ghost use Rattle.std.specs.Prelude.{◌≡◌, IfOk, OnOk, [], ◌∷◌, map, codes};
ghost use Rattle.ge_collections.specs.Keyed.{put_text};
ghost use Rattle.ge_model_rows.specs.Opening.{infinity, plain_attr, limit_names, with_limits, default_queue, default_sched, bare_host, opening_cluster};

use crate::complexes::opening_complexes;
use ge_rows::{
    Attr, Cluster, HostRow, INFINITY, Index, List, QueueRow, Sched, SortMethod, Table, Text, Value,
};
use std::alloc::{AllocError, Global};

// An attribute without overrides.
fn plain_attr<T>(alloc: Global, plain: T) -> Attr<T>
    ensures { result ≡ plain_attr plain }
{
    Attr {
        plain,
        overrides: List::new(alloc),
    }
}

// The sixteen limits, in the order of queue_conf.
fn limit_names() -> [&'static [u8]; 16]
    ensures { map (λ name. name.now) result ≡ limit_names }
{
    [
        b"s_rt", b"h_rt", b"s_cpu", b"h_cpu", b"s_fsize", b"h_fsize", b"s_data", b"h_data",
        b"s_stack", b"h_stack", b"s_core", b"h_core", b"s_rss", b"h_rss", b"s_vmem", b"h_vmem",
    ]
}

// One more limit, INFINITY.
fn put_limit(
    alloc: Global,
    limits: &mut Table<Text, Attr<u64>>,
    name: &[u8],
) -> Result<(), AllocError>
    ensures { OnOk result (limits.new ≡ put_text limits.old name.now (plain_attr infinity)) }
{
    let name = Text::from_bytes(alloc, name)?;
    limits.insert(name, plain_attr(alloc, INFINITY))?;
    Ok(())
}

// All limits, INFINITY.
fn endless_limits(alloc: Global) -> Result<Table<Text, Attr<u64>>, AllocError>
    ensures { IfOk result (λ limits. limits ≡ with_limits [] limit_names) }
{
    let mut limits = Table::new(alloc);
    for name in limit_names() {
        put_limit(alloc, &mut limits, name)?;
    }
    Ok(limits)
}

// The threshold of a queue whose body gives none.
fn default_thresholds(alloc: Global) -> Result<Table<Text, Value>, AllocError>
    ensures { IfOk result (λ values. values ≡ (codes "np_load_avg", Value.Amount 1750000) ∷ []) }
{
    let mut values = Table::new(alloc);
    values.insert(
        Text::from_bytes(alloc, b"np_load_avg")?,
        Value::Amount(1_750_000),
    )?;
    Ok(values)
}

// The queue of a body that gives its name alone: see the manual page queue_conf.
#[tactic(auto, unfolding(ge_model_rows::specs::Opening::default_queue))]
fn default_queue(alloc: Global) -> Result<QueueRow, AllocError>
    ensures { IfOk result (λ queue. queue ≡ default_queue) }
{
    let thresholds = default_thresholds(alloc)?;
    let limits = endless_limits(alloc)?;
    Ok(QueueRow {
        hosts: List::new(alloc),
        seq_no: plain_attr(alloc, 0),
        thresholds: plain_attr(alloc, thresholds),
        pes: plain_attr(alloc, List::new(alloc)),
        users: plain_attr(alloc, List::new(alloc)),
        xusers: plain_attr(alloc, List::new(alloc)),
        projects: plain_attr(alloc, List::new(alloc)),
        xprojects: plain_attr(alloc, List::new(alloc)),
        values: plain_attr(alloc, Table::new(alloc)),
        slots: plain_attr(alloc, 1),
        limits,
    })
}

// The settings of a body that gives none: see the manual page sched_conf.
#[tactic(auto, unfolding(ge_model_rows::specs::Opening::default_sched))]
fn default_sched(alloc: Global) -> Result<Sched, AllocError>
    ensures { IfOk result (λ sched. sched ≡ default_sched) }
{
    let load_formula = Text::from_bytes(alloc, b"np_load_avg")?;
    Ok(Sched {
        interval: 15,
        maxujobs: 0,
        sort: SortMethod::Load,
        load_formula,
        w_priority: 1_000_000,
        w_urgency: 100_000,
        w_ticket: 10_000,
        w_waiting: 0,
        w_deadline: 3_600_000_000_000,
        functional: 0,
        share: 0,
        w_user: 250_000,
        w_project: 250_000,
        w_job: 250_000,
        halftime: 168,
        max_reservation: 0,
        default_duration: INFINITY,
        u_cpu: 1_000_000,
        u_mem: 0,
        u_io: 0,
        max_pending: 50,
    })
}

// A list of one name.
fn one_name(alloc: Global, name: &[u8]) -> Result<List<Text>, AllocError>
    ensures { IfOk result (λ names. names ≡ name.now ∷ []) }
{
    let mut names = List::new(alloc);
    names.push(Text::from_bytes(alloc, name)?)?;
    Ok(names)
}

// One more host, with no values and no load report.
fn put_host(alloc: Global, hosts: &mut Table<Text, HostRow>, name: &[u8]) -> Result<(), AllocError>
    ensures { OnOk result (hosts.new ≡ put_text hosts.old name.now bare_host) }
{
    let name = Text::from_bytes(alloc, name)?;
    let host = HostRow {
        values: Table::new(alloc),
        load: Table::new(alloc),
    };
    hosts.insert(name, host)?;
    Ok(())
}

// The hosts `global` and `local`.
fn opening_hosts(alloc: Global) -> Result<Table<Text, HostRow>, AllocError>
    ensures { IfOk result (λ hosts. hosts ≡ (codes "global", bare_host) ∷ (codes "local", bare_host) ∷ []) }
{
    let mut hosts = Table::new(alloc);
    put_host(alloc, &mut hosts, b"global")?;
    put_host(alloc, &mut hosts, b"local")?;
    Ok(hosts)
}

// The queue `all.q`, on the host `local` with two slots.
fn opening_queues(alloc: Global) -> Result<Table<Text, QueueRow>, AllocError>
    ensures { IfOk result (λ queues. queues ≡ (codes "all.q", record default_queue { hosts = codes "local" ∷ []; slots = plain_attr 2 }) ∷ []) }
{
    let mut queues = Table::new(alloc);
    let name = Text::from_bytes(alloc, b"all.q")?;
    let mut queue = default_queue(alloc)?;
    queue.hosts = one_name(alloc, b"local")?;
    queue.slots = plain_attr(alloc, 2);
    queues.insert(name, queue)?;
    Ok(queues)
}

/// The cluster before the first command: all moments 0, the next job and dispatch 1, the 26 complexes, the hosts `global` and
/// `local`, the queue `all.q` on `local` with two slots, root as the only manager, the settings of sched_conf by
/// default, and nothing else.
#[tactic(auto, unfolding(ge_model_rows::specs::Opening::opening_cluster))]
pub fn opening(alloc: Global) -> Result<Cluster, AllocError>
    ensures { IfOk result (λ cluster. cluster ≡ opening_cluster) }
{
    let complexes = opening_complexes(alloc)?;
    let hosts = opening_hosts(alloc)?;
    let queues = opening_queues(alloc)?;
    let sched = default_sched(alloc)?;
    let managers = one_name(alloc, b"root")?;
    Ok(Cluster {
        last: 0,
        last_run: 0,
        next_job: 1,
        next_serial: 1,
        complexes,
        hosts,
        groups: Table::new(alloc),
        queues,
        pes: Table::new(alloc),
        quotas: Table::new(alloc),
        sets: Table::new(alloc),
        users: Table::new(alloc),
        projects: Table::new(alloc),
        shares: Table::new(alloc),
        sched,
        managers,
        operators: List::new(alloc),
        jobs: Index::new(alloc),
        usage: Table::new(alloc),
        lines: List::new(alloc),
        next_advance: 1,
        advances: Table::new(alloc),
    })
}
