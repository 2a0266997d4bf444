// The complexes of the opening cluster: see the manual page complex.
ghost use Rattle.std.specs.Prelude.{◌≡◌, IfOk, OnOk, [], map, fold, codes};
ghost use Rattle.ge_model_rows.specs.OpeningComplexes.{plain_complex, slots_complex, pattern_complex, host_complex, load_complex, memory_complex, limit_complex, time_limits, memory_limits, place_rows, load_rows, memory_rows, with_row, opening_complexes};

use ge_rows::{ComplexDef, Consumable, Kind, Relop, Requestable, Table, Text, Value};
use std::alloc::{AllocError, Global};

// A row that isn't consumed and adds no urgency.
fn plain_complex(
    alloc: Global,
    shortcut: &[u8],
    kind: Kind,
    relop: Relop,
    requestable: Requestable,
    fallback: Value,
) -> Result<ComplexDef, AllocError>
    ensures { IfOk result (λ row. row ≡ plain_complex shortcut.now kind relop requestable fallback) }
{
    let shortcut = Text::from_bytes(alloc, shortcut)?;
    Ok(ComplexDef {
        shortcut,
        kind,
        relop,
        requestable,
        consumable: Consumable::No,
        fallback,
        urgency: 0,
    })
}

// The slots of an instance: consumed, one for each job that doesn't ask, with an urgency of 1000.
fn slots_complex(alloc: Global) -> Result<ComplexDef, AllocError>
    ensures { IfOk result (λ row. row ≡ slots_complex) }
{
    let shortcut = Text::from_bytes(alloc, b"s")?;
    Ok(ComplexDef {
        shortcut,
        kind: Kind::Int,
        relop: Relop::Le,
        requestable: Requestable::Yes,
        consumable: Consumable::Yes,
        fallback: Value::Amount(1),
        urgency: 1_000_000_000,
    })
}

// A name that jobs ask for by a pattern.
fn pattern_complex(alloc: Global, shortcut: &[u8]) -> Result<ComplexDef, AllocError>
    ensures { IfOk result (λ row. row ≡ pattern_complex shortcut.now) }
{
    let nothing = Value::Word(Text::new(alloc));
    plain_complex(
        alloc,
        shortcut,
        Kind::ReStr,
        Relop::Eq,
        Requestable::Yes,
        nothing,
    )
}

// A name that jobs ask for without regard to case.
fn host_complex(alloc: Global, shortcut: &[u8]) -> Result<ComplexDef, AllocError>
    ensures { IfOk result (λ row. row ≡ host_complex shortcut.now) }
{
    let nothing = Value::Word(Text::new(alloc));
    plain_complex(
        alloc,
        shortcut,
        Kind::Host,
        Relop::Eq,
        Requestable::Yes,
        nothing,
    )
}

// A load that hosts report and no job asks for.
fn load_complex(alloc: Global, shortcut: &[u8]) -> Result<ComplexDef, AllocError>
    ensures { IfOk result (λ row. row ≡ load_complex shortcut.now) }
{
    plain_complex(
        alloc,
        shortcut,
        Kind::Double,
        Relop::Ge,
        Requestable::No,
        Value::Amount(0),
    )
}

// A row that jobs may ask for up to an amount, by default nothing.
fn bounded_complex(alloc: Global, shortcut: &[u8], kind: Kind) -> Result<ComplexDef, AllocError>
    ensures { IfOk result (λ row. row ≡ plain_complex shortcut.now kind Relop.Le Requestable.Yes (Value.Amount 0)) }
{
    plain_complex(
        alloc,
        shortcut,
        kind,
        Relop::Le,
        Requestable::Yes,
        Value::Amount(0),
    )
}

// One more row.
fn put_row(
    alloc: Global,
    rows: &mut Table<Text, ComplexDef>,
    name: &[u8],
    row: ComplexDef,
) -> Result<(), AllocError>
    ensures { OnOk result (rows.new ≡ with_row rows.old (name.now, row)) }
{
    let name = Text::from_bytes(alloc, name)?;
    rows.insert(name, row)?;
    Ok(())
}

// The names by which jobs ask for a place.
fn put_places(alloc: Global, rows: &mut Table<Text, ComplexDef>) -> Result<(), AllocError>
    ensures { OnOk result (rows.new ≡ fold with_row rows.old place_rows) }
{
    put_row(alloc, rows, b"qname", pattern_complex(alloc, b"q")?)?;
    put_row(alloc, rows, b"hostname", host_complex(alloc, b"h")?)?;
    put_row(alloc, rows, b"arch", pattern_complex(alloc, b"a")?)
}

// How many processors, which a job asks for by number.
fn processors_complex(alloc: Global) -> Result<ComplexDef, AllocError>
    ensures { IfOk result (λ row. row ≡ plain_complex (codes "p") Kind.Int Relop.Eq Requestable.Yes (Value.Amount 0)) }
{
    plain_complex(
        alloc,
        b"p",
        Kind::Int,
        Relop::Eq,
        Requestable::Yes,
        Value::Amount(0),
    )
}

// Processors and loads.
fn put_loads(alloc: Global, rows: &mut Table<Text, ComplexDef>) -> Result<(), AllocError>
    ensures { OnOk result (rows.new ≡ fold with_row rows.old load_rows) }
{
    put_row(alloc, rows, b"num_proc", processors_complex(alloc)?)?;
    put_row(alloc, rows, b"load_avg", load_complex(alloc, b"la")?)?;
    put_row(alloc, rows, b"np_load_avg", load_complex(alloc, b"nla")?)
}

// A memory that hosts report.
fn put_memory(
    alloc: Global,
    rows: &mut Table<Text, ComplexDef>,
    name: &[u8],
    shortcut: &[u8],
) -> Result<(), AllocError>
    ensures { OnOk result (rows.new ≡ with_row rows.old (name.now, memory_complex shortcut.now)) }
{
    let row = bounded_complex(alloc, shortcut, Kind::Memory)?;
    put_row(alloc, rows, name, row)
}

// Memories.
fn put_memories(alloc: Global, rows: &mut Table<Text, ComplexDef>) -> Result<(), AllocError>
    ensures { OnOk result (rows.new ≡ fold with_row rows.old memory_rows) }
{
    put_memory(alloc, rows, b"mem_free", b"mf")?;
    put_memory(alloc, rows, b"mem_total", b"mt")?;
    put_memory(alloc, rows, b"virtual_free", b"vf")
}

// A limit of queues, whose shortcut is its name.
fn put_limit(
    alloc: Global,
    rows: &mut Table<Text, ComplexDef>,
    kind: Kind,
    name: &[u8],
) -> Result<(), AllocError>
    ensures { OnOk result (rows.new ≡ with_row rows.old (limit_complex kind name.now)) }
{
    let row = bounded_complex(alloc, name, kind)?;
    put_row(alloc, rows, name, row)
}

// The limits that are times.
fn time_limits() -> [&'static [u8]; 4]
    ensures { map (λ name. name.now) result ≡ time_limits }
{
    [b"s_rt", b"h_rt", b"s_cpu", b"h_cpu"]
}

// The limits that are sizes.
fn memory_limits() -> [&'static [u8]; 12]
    ensures { map (λ name. name.now) result ≡ memory_limits }
{
    [
        b"s_fsize", b"h_fsize", b"s_data", b"h_data", b"s_stack", b"h_stack", b"s_core", b"h_core",
        b"s_rss", b"h_rss", b"s_vmem", b"h_vmem",
    ]
}

fn put_time_limits(alloc: Global, rows: &mut Table<Text, ComplexDef>) -> Result<(), AllocError>
    ensures { OnOk result (rows.new ≡ fold with_row rows.old (map (limit_complex Kind.Time) time_limits)) }
{
    for name in time_limits() {
        put_limit(alloc, rows, Kind::Time, name)?;
    }
    Ok(())
}

fn put_memory_limits(alloc: Global, rows: &mut Table<Text, ComplexDef>) -> Result<(), AllocError>
    ensures { OnOk result (rows.new ≡ fold with_row rows.old (map (limit_complex Kind.Memory) memory_limits)) }
{
    for name in memory_limits() {
        put_limit(alloc, rows, Kind::Memory, name)?;
    }
    Ok(())
}

// All complexes of the opening cluster, by name.
#[tactic(auto, unfolding(ge_model_rows::specs::OpeningComplexes::opening_complexes))]
pub(crate) fn opening_complexes(alloc: Global) -> Result<Table<Text, ComplexDef>, AllocError>
    ensures { IfOk result (λ rows. rows ≡ opening_complexes) }
{
    let mut rows = Table::new(alloc);
    put_row(alloc, &mut rows, b"slots", slots_complex(alloc)?)?;
    put_places(alloc, &mut rows)?;
    put_loads(alloc, &mut rows)?;
    put_memories(alloc, &mut rows)?;
    put_time_limits(alloc, &mut rows)?;
    put_memory_limits(alloc, &mut rows)?;
    Ok(rows)
}
