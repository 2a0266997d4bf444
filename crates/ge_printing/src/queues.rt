//! Queues: see the manual page queue_conf.

ghost use Rattle.std.specs.Prelude.{◌≡◌, ◌++◌, ◌∷◌, [], IfOk, OnOk, map};
ghost use Rattle.ge_model_rows.specs.ClusterRows.{limit_names};
ghost use Rattle.ge_model_config.specs.Queues.{limit_kind, limit_line, queue_lines};

use crate::attributes::{Amounts, Names, Numbers, Values, put_attr};
use crate::lines::{put, put_names};
use ge_complex::amount_text;
use ge_pieces::is_in;
use ge_rows::{Attr, Cluster, INFINITY, Kind, List, QueueRow, Table, Text};
use std::alloc::{AllocError, Global};

// The sixteen limits, in the order of queue_conf.
fn limit_names() -> [&'static [u8]; 16]
    ensures { map (λ name. name.now) result ≡ limit_names }
{
    [
        b"s_rt", b"h_rt", b"s_cpu", b"h_cpu", b"s_fsize", b"h_fsize", b"s_data", b"h_data",
        b"s_stack", b"h_stack", b"s_core", b"h_core", b"s_rss", b"h_rss", b"s_vmem", b"h_vmem",
    ]
}

fn kind_of_limit(name: &[u8]) -> Kind
    ensures { result ≡ limit_kind name.now }
{
    if is_in(name, &[b"s_rt", b"h_rt", b"s_cpu", b"h_cpu"]) {
        Kind::Time
    } else {
        Kind::Memory
    }
}

// The line of one limit, INFINITY where the queue has none of the name.
fn put_limit(
    alloc: Global,
    lines: &mut List<Text>,
    limits: &Table<Text, Attr<u64>>,
    name: &[u8],
) -> Result<(), AllocError>
    ensures { OnOk result (lines.new ≡ lines.old ++ limit_line limits.now name.now ∷ []) }
{
    let kind = kind_of_limit(name);
    match limits.get(&Text::from_bytes(alloc, name)?) {
        Some(limit) => put_attr(alloc, lines, name, limit, &Amounts { kind }),
        None => put(
            alloc,
            lines,
            name,
            amount_text(alloc, kind, INFINITY)?.bytes(),
        ),
    }
}

fn put_limits(
    alloc: Global,
    lines: &mut List<Text>,
    limits: &Table<Text, Attr<u64>>,
    names: &[&[u8]],
) -> Result<(), AllocError>
    ensures { OnOk result (lines.new
        ≡ lines.old ++ map (limit_line limits.now) (map (λ name. name.now) names.now)) }
{
    for name in names {
        put_limit(alloc, lines, limits, name)?;
    }
    Ok(())
}

/// The lines of a queue.
pub(crate) fn print_queue(
    alloc: Global,
    c: &Cluster,
    name: &Text,
    queue: &QueueRow,
) -> Result<List<Text>, AllocError>
    ensures { IfOk result (λ lines. lines ≡ queue_lines c.now name.now queue.now) }
{
    let values = Values { c };
    let mut lines = List::new(alloc);
    put(alloc, &mut lines, b"qname", name.bytes())?;
    put_names(alloc, &mut lines, b"hostlist", &queue.hosts)?;
    put_attr(alloc, &mut lines, b"seq_no", &queue.seq_no, &Numbers)?;
    put_attr(
        alloc,
        &mut lines,
        b"load_thresholds",
        &queue.thresholds,
        &values,
    )?;
    put_attr(alloc, &mut lines, b"pe_list", &queue.pes, &Names)?;
    put_attr(alloc, &mut lines, b"user_lists", &queue.users, &Names)?;
    put_attr(alloc, &mut lines, b"xuser_lists", &queue.xusers, &Names)?;
    put_attr(alloc, &mut lines, b"projects", &queue.projects, &Names)?;
    put_attr(alloc, &mut lines, b"xprojects", &queue.xprojects, &Names)?;
    put_attr(alloc, &mut lines, b"complex_values", &queue.values, &values)?;
    put_attr(alloc, &mut lines, b"slots", &queue.slots, &Numbers)?;
    put_limits(alloc, &mut lines, &queue.limits, &limit_names())?;
    Ok(lines)
}
