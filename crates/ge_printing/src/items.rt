//! Objects of each kind.

ghost use Rattle.std.specs.Prelude.{◌≡◌, ◌++◌, ◌∷◌, [], IfOk, codes};
ghost use Rattle.ge_model_rows.specs.Pieces.{list_text};
ghost use Rattle.ge_model_config.specs.Cited.{printed_attribute};
ghost use Rattle.ge_model_config.specs.Printing.{printed};
ghost use Rattle.ge_model_config.specs.Pairs.{values_text};

use crate::complexes::print_complexes;
use crate::lines::{put, put_names};
use crate::people::{print_project, print_user};
use crate::pes::print_pe;
use crate::queues::print_queue;
use crate::quotas::print_quota;
use crate::settings::print_settings;
use crate::shares::print_shares;
use crate::values::values_text;
use ge_rows::{Cluster, Item, List, Table, Text, Twin, Value};
use std::alloc::{AllocError, Global};

// A host: see the manual page host_conf.
fn print_host(
    alloc: Global,
    c: &Cluster,
    name: &Text,
    values: &Table<Text, Value>,
) -> Result<List<Text>, AllocError>
    ensures { IfOk result (λ lines. lines ≡ printed_attribute (codes "hostname") name.now
        ∷ printed_attribute (codes "complex_values") (values_text c.now values.now) ∷ []) }
{
    let values = values_text(alloc, c, values)?;
    let mut lines = List::new(alloc);
    put(alloc, &mut lines, b"hostname", name.bytes())?;
    put(alloc, &mut lines, b"complex_values", values.bytes())?;
    Ok(lines)
}

// An object that is a name and a list of names: a host group (hostgroup), a user set (access_list).
fn print_named_list(
    alloc: Global,
    attribute: &[u8],
    name: &Text,
    list: &[u8],
    names: &List<Text>,
) -> Result<List<Text>, AllocError>
    ensures { IfOk result (λ lines. lines ≡ printed_attribute attribute.now name.now
        ∷ printed_attribute list.now (list_text names.now) ∷ []) }
{
    let mut lines = List::new(alloc);
    put(alloc, &mut lines, attribute, name.bytes())?;
    put_names(alloc, &mut lines, list, names)?;
    Ok(lines)
}

/// The lines of an object, each without its line feed: each attribute in the order of its manual page, a blank and its
/// value. See the manual pages qconf, queue_conf, host_conf, hostgroup, complex, sge_pe, sge_resource_quota,
/// access_list, user, project, share_tree and sched_conf.
///
/// Values are printed by the kinds of the cluster's complexes, and one whose name is no complex by its form. The table
/// of complexes has a line of eight words for each complex by name, the share tree five lines for each node by id, and
/// the managers and the operators are one name a line in the order in which they came.
#[tactic(auto, unfolding(ge_model_config::specs::Printing::printed))]
pub fn print_item(alloc: Global, c: &Cluster, item: &Item) -> Result<List<Text>, AllocError>
    ensures { IfOk result (λ lines. lines ≡ printed c.now item.now) }
{
    match item {
        Item::Complexes(table) => print_complexes(alloc, table),
        Item::Host(name, values) => print_host(alloc, c, name, values),
        Item::Group(name, hosts) => {
            print_named_list(alloc, b"group_name", name, b"hostlist", hosts)
        }
        Item::Queue(name, queue) => print_queue(alloc, c, name, queue),
        Item::Pe(name, pe) => print_pe(alloc, name, pe),
        Item::Quota(name, set) => print_quota(alloc, c, name, set),
        Item::Set(name, entries) => print_named_list(alloc, b"name", name, b"entries", entries),
        Item::User(name, user) => print_user(alloc, name, user),
        Item::Project(name, project) => print_project(alloc, name, project),
        Item::Shares(nodes) => print_shares(alloc, nodes),
        Item::Sched(settings) => print_settings(alloc, settings),
        Item::Managers(names) => names.twin(alloc),
        Item::Operators(names) => names.twin(alloc),
    }
}
