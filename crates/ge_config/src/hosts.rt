//! Hosts: host_conf(5).

ghost use Rattle.ge_model_config.specs.Hosts.{host_item};
ghost use Rattle.ge_pieces.specs.Gives.{Reads};

use crate::named::{given_text, note_absent_of_host, note_name};
use crate::pairs::{Fitting, Values};
use crate::values::Reader;
use ge_base::Refusal;
use ge_commands::value_or;
use ge_limits::HOSTS;
use ge_rows::{Cluster, Item, ObjectKind, Text};
use std::alloc::{AllocError, Global};

/// A host and its complex_values.
#[tactic(auto, unfolding(ge_model_config::specs::Hosts::host_item))]
pub fn read_host(
    alloc: Global,
    c: &Cluster,
    adding: bool,
    values: &[(Text, Text)],
    faults: &mut Option<Refusal>,
) -> Result<Item, AllocError>
    ensures { Reads result faults.old faults.new (host_item c.now adding values.now) }
{
    let name = given_text(alloc, values, b"hostname", b"")?;
    note_name(faults, ObjectKind::Host, HOSTS, &c.hosts, adding, &name);
    note_absent_of_host(faults, values);
    let amounts = Values {
        c,
        fitting: Fitting::Any,
    }
    .read(alloc, value_or(values, b"complex_values", b"NONE"), faults)?;
    Ok(Item::Host(name, amounts))
}
