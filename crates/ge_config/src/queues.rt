//! Queues: queue_conf(5).

ghost use Rattle.std.specs.Prelude.{◌≡◌, OnOk, IfOk, codes, map};
ghost use Rattle.ge_collections.specs.Keyed.{put_text};
ghost use Rattle.ge_model_rows.specs.ClusterRows.{plain_attr, limit_names};
ghost use Rattle.ge_model_rows.specs.ValueRows.{infinity};
ghost use Rattle.ge_model_rows.specs.Faults.{after_faults};
ghost use Rattle.ge_model_config.specs.Cited.{number_read};
ghost use Rattle.ge_model_config.specs.Overrides.{attr_read};
ghost use Rattle.ge_model_config.specs.Pairs.{values_read, number_fits};
ghost use Rattle.ge_model_config.specs.Queues.{limit_kind, limits_read, queue_read, queue_item};
ghost use Rattle.ge_pieces.specs.Gives.{Reads};
ghost use Rattle.ge_config.specs.Fitting.{fits_by};
ghost use Rattle.ge_config.specs.Queues.{count_attr, names_attr, plain_thresholds, first_attributes, access_attributes, last_attributes};

use crate::named::{given_text, note_absent_of_queue, note_name};
use crate::overrides::read_attr;
use crate::pairs::{Fitting, Values};
use crate::values::{Names, any_of, read_hostlist};
use ge_base::Refusal;
use ge_commands::value_or;
use ge_limits::QUEUES;
use ge_pieces::is_in;
use ge_rows::{
    Attr, Cluster, INFINITY, Item, Kind, List, ObjectKind, QueueRow, Table, Text, Value,
};
use std::alloc::{AllocError, Global};

// The sixteen limits, in the order of queue_conf.
fn limits() -> [&'static [u8]; 16]
    ensures { map (λ name. name.now) result ≡ limit_names }
{
    [
        b"s_rt", b"h_rt", b"s_cpu", b"h_cpu", b"s_fsize", b"h_fsize", b"s_data", b"h_data",
        b"s_stack", b"h_stack", b"s_core", b"h_core", b"s_rss", b"h_rss", b"s_vmem", b"h_vmem",
    ]
}

fn plain<T>(alloc: Global, plain: T) -> Attr<T>
    ensures { result ≡ plain_attr plain }
{
    Attr {
        plain,
        overrides: List::new(alloc),
    }
}

// The limits of run time and processor time are times, the others sizes.
fn kind_of_limit(name: &[u8]) -> Kind
    ensures { result ≡ limit_kind name.now }
{
    if is_in(name, &[b"s_rt", b"h_rt", b"s_cpu", b"h_cpu"]) {
        Kind::Time
    } else {
        Kind::Memory
    }
}

fn read_limit(
    alloc: Global,
    c: &Cluster,
    values: &[(Text, Text)],
    limits: &mut Table<Text, Attr<u64>>,
    name: &[u8],
    faults: &mut Option<Refusal>,
) -> Result<(), AllocError>
    ensures limits { OnOk result (limits.new ≡ put_text limits.old name.now
        (attr_read c.now values.now name.now (plain_attr infinity)
        (number_read (limit_kind name.now) 0 infinity)).0) }
    ensures faults { OnOk result (faults.new ≡ after_faults faults.old
        (attr_read c.now values.now name.now (plain_attr infinity)
        (number_read (limit_kind name.now) 0 infinity)).1) }
{
    let fallback = plain(alloc, INFINITY);
    let reader = any_of(kind_of_limit(name));
    let limit = read_attr(alloc, c, values, name, fallback, &reader, faults)?;
    limits.insert(Text::from_bytes(alloc, name)?, limit)?;
    Ok(())
}

fn read_limits(
    alloc: Global,
    c: &Cluster,
    values: &[(Text, Text)],
    faults: &mut Option<Refusal>,
) -> Result<Table<Text, Attr<u64>>, AllocError>
    ensures { Reads result faults.old faults.new (limits_read c.now values.now) }
{
    let mut table = Table::new(alloc);
    for name in limits() {
        read_limit(alloc, c, values, &mut table, name, faults)?;
    }
    Ok(table)
}

fn read_count(
    alloc: Global,
    c: &Cluster,
    values: &[(Text, Text)],
    attribute: &[u8],
    fallback: u64,
    faults: &mut Option<Refusal>,
) -> Result<Attr<u64>, AllocError>
    ensures { Reads result faults.old faults.new
        (count_attr c.now values.now attribute.now fallback) }
{
    let fallback = plain(alloc, fallback);
    read_attr(
        alloc,
        c,
        values,
        attribute,
        fallback,
        &any_of(Kind::Int),
        faults,
    )
}

fn read_names<V>(
    alloc: Global,
    c: &Cluster,
    values: &[(Text, Text)],
    attribute: &[u8],
    table: &Table<Text, V>,
    faults: &mut Option<Refusal>,
) -> Result<Attr<List<Text>>, AllocError>
    ensures { Reads result faults.old faults.new
        (names_attr c.now values.now attribute.now table.now) }
{
    let fallback = plain(alloc, List::new(alloc));
    read_attr(
        alloc,
        c,
        values,
        attribute,
        fallback,
        &Names { table },
        faults,
    )
}

// The threshold of a queue whose body gives none.
fn default_thresholds(alloc: Global) -> Result<Table<Text, Value>, AllocError>
    ensures { IfOk result (λ values. values ≡ plain_thresholds) }
{
    let mut values = Table::new(alloc);
    values.insert(
        Text::from_bytes(alloc, b"np_load_avg")?,
        Value::Amount(1_750_000),
    )?;
    Ok(values)
}

fn read_values(
    alloc: Global,
    c: &Cluster,
    values: &[(Text, Text)],
    attribute: &[u8],
    fallback: Table<Text, Value>,
    fitting: Fitting,
    faults: &mut Option<Refusal>,
) -> Result<Attr<Table<Text, Value>>, AllocError>
    ensures { Reads result faults.old faults.new
        (attr_read c.now values.now attribute.now (plain_attr fallback) (values_read c.now (fits_by c.now fitting))) }
{
    let fallback = plain(alloc, fallback);
    read_attr(
        alloc,
        c,
        values,
        attribute,
        fallback,
        &Values { c, fitting },
        faults,
    )
}

fn read_thresholds(
    alloc: Global,
    c: &Cluster,
    values: &[(Text, Text)],
    faults: &mut Option<Refusal>,
) -> Result<Attr<Table<Text, Value>>, AllocError>
    ensures { Reads result faults.old faults.new
        (attr_read c.now values.now (codes "load_thresholds") (plain_attr plain_thresholds)
        (values_read c.now number_fits)) }
{
    let fallback = default_thresholds(alloc)?;
    read_values(
        alloc,
        c,
        values,
        b"load_thresholds",
        fallback,
        Fitting::Numbers,
        faults,
    )
}

type Names4 = (
    Attr<List<Text>>,
    Attr<List<Text>>,
    Attr<List<Text>>,
    Attr<List<Text>>,
);

fn read_first(
    alloc: Global,
    c: &Cluster,
    values: &[(Text, Text)],
    faults: &mut Option<Refusal>,
) -> Result<
    (
        List<Text>,
        Attr<u64>,
        Attr<Table<Text, Value>>,
        Attr<List<Text>>,
    ),
    AllocError,
>
    ensures { Reads result faults.old faults.new (first_attributes c.now values.now) }
{
    let hosts = read_hostlist(alloc, c, value_or(values, b"hostlist", b"NONE"), faults)?;
    let seq_no = read_count(alloc, c, values, b"seq_no", 0, faults)?;
    let loads = read_thresholds(alloc, c, values, faults)?;
    let pes = read_names(alloc, c, values, b"pe_list", &c.pes, faults)?;
    Ok((hosts, seq_no, loads, pes))
}

fn read_access(
    alloc: Global,
    c: &Cluster,
    values: &[(Text, Text)],
    faults: &mut Option<Refusal>,
) -> Result<Names4, AllocError>
    ensures { Reads result faults.old faults.new (access_attributes c.now values.now) }
{
    let users = read_names(alloc, c, values, b"user_lists", &c.sets, faults)?;
    let xusers = read_names(alloc, c, values, b"xuser_lists", &c.sets, faults)?;
    let projects = read_names(alloc, c, values, b"projects", &c.projects, faults)?;
    let xprojects = read_names(alloc, c, values, b"xprojects", &c.projects, faults)?;
    Ok((users, xusers, projects, xprojects))
}

fn read_last(
    alloc: Global,
    c: &Cluster,
    values: &[(Text, Text)],
    faults: &mut Option<Refusal>,
) -> Result<(Attr<Table<Text, Value>>, Attr<u64>, Table<Text, Attr<u64>>), AllocError>
    ensures { Reads result faults.old faults.new (last_attributes c.now values.now) }
{
    let none = Table::new(alloc);
    let amounts = read_values(
        alloc,
        c,
        values,
        b"complex_values",
        none,
        Fitting::Any,
        faults,
    )?;
    let slots = read_count(alloc, c, values, b"slots", 1, faults)?;
    let limits = read_limits(alloc, c, values, faults)?;
    Ok((amounts, slots, limits))
}

#[tactic(auto, unfolding(ge_model_config::specs::Queues::queue_read, ge_model_rows::specs::Opening::default_queue))]
fn read_row(
    alloc: Global,
    c: &Cluster,
    values: &[(Text, Text)],
    faults: &mut Option<Refusal>,
) -> Result<QueueRow, AllocError>
    ensures { Reads result faults.old faults.new (queue_read c.now values.now) }
{
    let (hosts, seq_no, thresholds, pes) = read_first(alloc, c, values, faults)?;
    let (users, xusers, projects, xprojects) = read_access(alloc, c, values, faults)?;
    let (values, slots, limits) = read_last(alloc, c, values, faults)?;
    Ok(QueueRow {
        hosts,
        seq_no,
        thresholds,
        pes,
        users,
        xusers,
        projects,
        xprojects,
        values,
        slots,
        limits,
    })
}

/// A queue.
#[tactic(auto, unfolding(ge_model_config::specs::Queues::queue_item))]
pub fn read_queue(
    alloc: Global,
    c: &Cluster,
    adding: bool,
    values: &[(Text, Text)],
    faults: &mut Option<Refusal>,
) -> Result<Item, AllocError>
    ensures { Reads result faults.old faults.new (queue_item c.now adding values.now) }
{
    let name = given_text(alloc, values, b"qname", b"")?;
    note_name(faults, ObjectKind::Queue, QUEUES, &c.queues, adding, &name);
    note_absent_of_queue(faults, values);
    let queue = read_row(alloc, c, values, faults)?;
    Ok(Item::Queue(name, queue))
}
