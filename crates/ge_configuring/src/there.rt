//! Objects that are there.
ghost use Rattle.std.specs.Prelude.{◌≡◌};
ghost use Rattle.ge_model_config.specs.Cited as cited;
ghost use Rattle.ge_model_config.specs.Used as used;

use ge_pieces::is_among;
use ge_rows::{Cluster, ObjectKind, Table, Text};

/// Whether a table has a name.
pub(crate) fn has_name<V>(table: &Table<Text, V>, name: &Text) -> bool
    ensures { result ≡ cited.has_name table.now name.now }
{
    table.get(name).is_some()
}

/// Whether an object is there: a manager or operator by membership; the complexes, the share tree and the settings always are.
#[tactic(auto, unfolding(ge_model_config::specs::Used::is_there))]
pub fn is_there(c: &Cluster, kind: ObjectKind, name: &Text) -> bool
    ensures { result ≡ used.is_there c.now kind name.now }
{
    match kind {
        ObjectKind::Host => has_name(&c.hosts, name),
        ObjectKind::Group => has_name(&c.groups, name),
        ObjectKind::Queue => has_name(&c.queues, name),
        ObjectKind::Pe => has_name(&c.pes, name),
        ObjectKind::Quota => has_name(&c.quotas, name),
        ObjectKind::Set => has_name(&c.sets, name),
        ObjectKind::User => has_name(&c.users, name),
        ObjectKind::Project => has_name(&c.projects, name),
        ObjectKind::Managers => is_among(name, c.managers.items()),
        ObjectKind::Operators => is_among(name, c.operators.items()),
        ObjectKind::Complexes => true,
        ObjectKind::Shares => true,
        ObjectKind::Sched => true,
    }
}
