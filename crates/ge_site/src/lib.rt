//! What is configured of a site and asked at each turn: who may, which hosts a name stands for, what a queue has at a host.
//!
//! Contracts see the cluster's rows, and say by the definitions of `ge_model_rows` what each call gives.
//!
//! - Users (sge_types, access_list): [`is_manager`], [`is_operator`]: the two roles; a manager is an operator too. [`in_set`], [`in_sets`]:
//!   whether user sets have a user, by name or by group. [`may_use`]: whether a list of sets and a list of excluding sets admit a user.
//!   These take no memory.
//! - Host groups (hostgroup): a group lists hosts and other groups, whose names begin with `@`. [`members`]: the hosts of a group, or a
//!   [`MembersFault`]; [`expand`]: those of every group; [`has_loop`]: whether a group reaches itself. A walk passes each group once and
//!   keeps its way back in a map, so it takes no more of the stack however deep groups are nested. [`is_a_group`], [`hosts_of`],
//!   [`group_has`]: what an entry of a list of hosts stands for, in groups that are spelled out. These take no memory.
//! - Queues (queue_conf), the groups being those of the cluster, spelled out: [`at_host`], [`limit_at`], [`slots_at`]: an attribute at a
//!   host, by its overrides, without memory. [`instances`]: the queue instances. [`resolve`]: the value of a name at an instance, by
//!   level; [`resolved_at`] gives it where it lies, as a [`Found`], without memory.
#![tactic(auto)]

mod attributes;
mod gathering;
mod hostlists;
mod names;
mod resolving;
mod roles;
mod seen;
mod sets;
mod spelled;
mod walking;
mod way;

pub use attributes::{at_host, limit_at, slots_at};
pub use gathering::{MembersFault, expand, has_loop, members};
pub use hostlists::instances;
pub use resolving::{Found, global_host, resolve, resolved_at};
pub use roles::{is_manager, is_operator};
pub use sets::{in_set, in_sets, may_use};
pub use spelled::{group_has, hosts_of, is_a_group};
