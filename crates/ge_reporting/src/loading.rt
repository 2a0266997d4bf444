// The plan of load.
ghost use Rattle.std.specs.Prelude.{◌≡◌, [], ◌++◌, IfOk, OnOk, flat_map, fold};
ghost use Rattle.ge_model_rows.specs.Faults.{after_faults, first_fault};
ghost use Rattle.ge_model_core.specs.Reports.{host_faults, report_faults, report_of, load_plan};
ghost use Rattle.ge_model_core.specs.Reports as reports;
ghost use Rattle.ge_pieces.specs.Gives.{Reads};

use crate::stopping::note_manager;
use ge_answers::{done, refuse};
use ge_base::Refusal;
use ge_complex::{complex_at, value_of_text};
use ge_pieces::{is_word, note};
use ge_rows::{Change, Cluster, Event, List, Planned, Table, Text, Twin, Value};
use std::alloc::{AllocError, Global};

/// Values that a host reports, by name.
type Report = Table<Text, Value>;

// A host that isn't there, or that of all hosts, doesn't report.
fn note_host(cluster: &Cluster, host: &Text, faults: &mut Option<Refusal>)
    ensures { faults.new ≡ after_faults faults.old (host_faults cluster.now host.now) }
{
    note(
        faults,
        cluster.hosts.get(host).is_none(),
        Refusal::NoSuchObject,
    );
    note(faults, is_word(host.bytes(), b"global"), Refusal::BadValue);
}

// The value that a report gives, if its name is a complex and its text one of its values.
fn value_reported(
    alloc: Global,
    cluster: &Cluster,
    name: &Text,
    text: &Text,
) -> Result<Option<Value>, AllocError>
    ensures { IfOk result (λ value. value ≡ reports.report_value cluster.now name.now text.now) }
{
    match complex_at(cluster, name) {
        None => Ok(None),
        Some(complex) => value_of_text(alloc, complex.kind, text.bytes()),
    }
}

// What refuses a value: its name is no complex, or its text none of its values.
fn note_reported(
    cluster: &Cluster,
    name: &Text,
    text: &Text,
    value: &Option<Value>,
    faults: &mut Option<Refusal>,
)
    requires { value.now ≡ reports.report_value cluster.now name.now text.now }
    ensures { faults.new ≡ after_faults faults.old (report_faults cluster.now
        (name.now, text.now)) }
{
    if complex_at(cluster, name).is_none() {
        note(faults, true, Refusal::NoSuchObject);
    } else {
        note(faults, value.is_none(), Refusal::BadValue);
    }
}

fn put_reported(report: &mut Report, name: Text, value: Option<Value>) -> Result<(), AllocError>
    ensures { OnOk result (report.new ≡ reports.put_reported report.old name value) }
{
    if let Some(value) = value {
        report.insert(name, value)?;
    }
    Ok(())
}

// One more value of a report.
fn add_reported(
    alloc: Global,
    cluster: &Cluster,
    report: &mut Report,
    pair: &(Text, Text),
    faults: &mut Option<Refusal>,
) -> Result<(), AllocError>
    ensures added { OnOk result (report.new
        ≡ reports.add_reported cluster.now report.old pair.now) }
    ensures noted { OnOk result (faults.new
        ≡ after_faults faults.old (report_faults cluster.now pair.now)) }
{
    let (name, text) = pair;
    let value = value_reported(alloc, cluster, name, text)?;
    note_reported(cluster, name, text, &value, faults);
    put_reported(report, name.twin(alloc)?, value)
}

// The values of a report by name, of a name twice the last, and what refuses them.
fn read_report(
    alloc: Global,
    cluster: &Cluster,
    pairs: &[(Text, Text)],
    faults: &mut Option<Refusal>,
) -> Result<Report, AllocError>
    ensures { Reads result faults.old faults.new
        (report_of cluster.now pairs.now, flat_map (report_faults cluster.now) pairs.now) }
{
    let mut report = Table::new(alloc);
    for pair in pairs {
        add_reported(alloc, cluster, &mut report, pair, faults)?;
    }
    Ok(report)
}

/// The plan of `load`: a host reports values, which take the place of those of the same names; of a name twice the last counts.
/// The line is `done`.
///
/// `NotPermitted` comes where the user is no manager, `NoSuchObject` for a host or a complex that isn't there, and `BadValue` for
/// the host `global` and a text that is no value of its complex. See the manual pages host_conf and complex.
#[tactic(auto, unfolding(ge_model_core::specs::Reports::load_plan))]
pub fn plan_load(
    alloc: Global,
    cluster: &Cluster,
    e: &Event,
    host: &Text,
    pairs: &List<(Text, Text)>,
) -> Result<Planned, AllocError>
    ensures { IfOk result (λ planned. planned ≡ load_plan cluster.now e.now host.now pairs.now) }
{
    let mut faults = None;
    note_manager(cluster, e, &mut faults);
    note_host(cluster, host, &mut faults);
    let report = read_report(alloc, cluster, pairs.items(), &mut faults)?;
    match faults {
        Some(refusal) => refuse(alloc, refusal),
        None => done(alloc, e, Change::Load(host.twin(alloc)?, report)),
    }
}
