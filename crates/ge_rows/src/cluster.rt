// The whole cluster.
use crate::accounts::Line;
use crate::hosts::HostRow;
use crate::job_row::JobTable;
use crate::jobs::Advance;
use crate::people::{ProjectRow, ShareNode, UserRow};
use crate::queues::{PeRow, QueueRow};
use crate::quotas::QuotaRow;
use crate::settings::Sched;
use crate::values::ComplexDef;
use ge_collections::{List, Table, Text, Twin, twins4};
use std::alloc::{AllocError, Global};

/// All that the master keeps. An entry of the spool changes it, and nothing else does.
pub struct Cluster {
    /// The moment of the last entry, in seconds.
    pub last: u64,
    /// The moment of the last scheduling run, in seconds; only a run's entry changes it.
    pub last_run: u64,
    /// The number that the next job gets, at least 1; only a submission's entry changes it.
    pub next_job: u32,
    /// The number that the next dispatch gets, at least 1; only a run's entry changes it.
    pub next_serial: u64,
    /// The complex table by name (complex): `qconf -Ac`, `-Mc`.
    pub complexes: Table<Text, ComplexDef>,
    /// Hosts by name; `global` stands for all (host_conf). Only `load` changes what a host reported.
    pub hosts: Table<Text, HostRow>,
    /// Host groups by name, which begins with `@`: hosts and other groups in the order written (hostgroup).
    pub groups: Table<Text, List<Text>>,
    /// Cluster queues by name (queue_conf).
    pub queues: Table<Text, QueueRow>,
    /// Parallel environments by name (sge_pe).
    pub pes: Table<Text, PeRow>,
    /// Rule sets by name (sge_resource_quota).
    pub quotas: Table<Text, QuotaRow>,
    /// User sets by name: users, and `@` with a user's group (access_list).
    pub sets: Table<Text, List<Text>>,
    /// Users with a row, by name (user).
    pub users: Table<Text, UserRow>,
    /// Projects by name (project).
    pub projects: Table<Text, ProjectRow>,
    /// The share tree's nodes by id; the root has id 0 (share_tree).
    pub shares: Table<u32, ShareNode>,
    /// The scheduler's settings (sched_conf): `qconf -Msconf`.
    pub sched: Sched,
    /// The managers in the order in which they came: `qconf -am`, `-dm`. At least one.
    pub managers: List<Text>,
    /// The operators in the order in which they came: `qconf -ao`, `-do`. Managers are operators too.
    pub operators: List<Text>,
    /// Live jobs by number. A job that loses its last task leaves.
    pub jobs: JobTable,
    /// Usage by user, project and epoch of the halftime, weighted by `usage_weight_list`. An end adds to it; a new
    /// halftime puts it into new epochs.
    pub usage: Table<(Text, Text, u64), u128>,
    /// Accounting lines in the order of the ends (accounting); only ends and deletions by force add one.
    pub lines: List<Line>,
    /// The number that the next advance reservation gets, at least 1; only a booking's entry changes it.
    pub next_advance: u32,
    /// Advance reservations by number (qrsub): booked by `qrsub`, given up by `qrdel`, and taken out by a run at
    /// whose moment they are over and no live job names them.
    pub advances: Table<u32, Advance>,
}

impl Drop for Cluster {
    fn drop(self) {
        let Cluster {
            last: _,
            last_run: _,
            next_job: _,
            next_serial: _,
            complexes: _,
            hosts: _,
            groups: _,
            queues: _,
            pes: _,
            quotas: _,
            sets: _,
            users: _,
            projects: _,
            shares: _,
            sched: _,
            managers: _,
            operators: _,
            jobs: _,
            usage: _,
            lines: _,
            next_advance: _,
            advances: _,
        } = self;
    }
}
