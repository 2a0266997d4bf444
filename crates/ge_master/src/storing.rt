// Keeping what a batch changed.
ghost use Rattle.std.specs.Prelude.{◌≡◌, ◌⊎◌, ◌+◌, ◌<◌, ◌≤◌, ℕ, List, length, true, false, IfOk, OnOk, IsTrue};
ghost use Rattle.ge_model_journal.specs.Disk.{IsImageSince};
ghost use Rattle.ge_model_journal.specs.Journal.{State, IsOneOf, compacted};
ghost use Rattle.ge_model_program.specs.StandsFor.{cluster_bytes, cluster_fits};
ghost use Rattle.ge_outside.specs.Faults.{Rose};
ghost use Rattle.ge_spool.specs.Settled.{IsSettled, IsCompacted, HasRoom, Grows, is_dead, format_of, generation_of};
ghost use Rattle.ge_keeping.specs.Keeping.{Keeps, OnUnwritten, OnWritten};
ghost use Rattle.ge_master.specs.Storing.{last_generation, compacts, written_end, stored, IsStored, stored_syncs};

use ge_keeping::{KeepFault, is_compacting, keep_record, keep_snapshot};
use ge_outside::Disk;
use ge_rows::{Cluster, Text};
use ge_snapshot::put_cluster;
use ge_spool::Spool;
use std::alloc::{AllocError, Global};

// The bytes of a cluster, which hold all of it.
#[tactic(auto, unfolding(ge_model_program::specs::StandsFor::cluster_bytes, ge_model_program::specs::StandsFor::cluster_fits))]
fn cluster_text(alloc: Global, cluster: &Cluster) -> Result<Text, AllocError>
    ensures bytes { IfOk result (λ text. text ≡ cluster_bytes cluster.now) }
    ensures fits { OnOk result (IsTrue (cluster_fits cluster.now)) }
{
    let mut text = Text::new(alloc);
    put_cluster(cluster, &mut text)?;
    Ok(text)
}

// Keeps the cluster as a snapshot in the next generation.
fn store_snapshot<D: Disk>(
    alloc: Global,
    spool: &mut Spool,
    cluster: &Cluster,
    a: &mut D,
    b: &mut D,
) -> Result<(), KeepFault>
    requires alive { is_dead spool.old ≡ false }
    requires room { HasRoom spool.old (D.told a.old) (D.told b.old) }
    requires below { generation_of spool.old < last_generation }
    ensures done { (state : State) → IsSettled spool.old (D.told a.old) (D.told b.old) state
        → OnOk result (IsSettled spool.new (D.told a.new) (D.told b.new) (compacted state
        (cluster_bytes cluster.now))) }
    ensures any_moment { (state : State) → IsSettled spool.old (D.told a.old) (D.told b.old) state
        → (c d : List ℕ) → IsImageSince (length (D.told a.old)) (D.told a.new) c
        → IsImageSince (length (D.told b.old)) (D.told b.new) d
        → IsOneOf state (compacted state (cluster_bytes cluster.now)) c d }
    ensures fits { OnWritten result (IsTrue (cluster_fits cluster.now)) }
    ensures answer { Keeps result (19 + length (cluster_bytes cluster.now))
        (Rose (D.disk_faults a.old) (D.disk_faults a.new) ⊎ Rose (D.disk_faults b.old) (D.disk_faults b.new)) }
    ensures untouched { OnUnwritten result ((a.new ≡ a.old) × (b.new ≡ b.old)) }
    ensures stored { OnOk result (IsCompacted spool.old spool.new (length
        (cluster_bytes cluster.now))) }
    ensures room { OnOk result (HasRoom spool.new (D.told a.new) (D.told b.new)) }
    ensures alive { OnOk result (is_dead spool.new ≡ false) }
    ensures grows { Grows (D.told a.old) (D.told a.new) (D.told b.old) (D.told b.new) }
    ensures syncs { D.syncs a.new + D.syncs b.new ≤ D.syncs a.old + D.syncs b.old + 3 }
    ensures syncs_a { D.syncs a.old ≤ D.syncs a.new }
    ensures syncs_b { D.syncs b.old ≤ D.syncs b.new }
    ensures faults_a { D.disk_faults a.old ≤ D.disk_faults a.new }
    ensures faults_b { D.disk_faults b.old ≤ D.disk_faults b.new }
{
    let snapshot = cluster_text(alloc, cluster)?;
    keep_snapshot(alloc, spool, a, b, &snapshot)
}

/// Keeps what a batch changed, as a record with these bytes or as a snapshot of the cluster after it. At `Ok` it is there
/// for good. At each moment a stop leaves what stood before, or that with it.
pub(crate) fn store<D: Disk>(
    alloc: Global,
    spool: &mut Spool,
    cluster: &Cluster,
    a: &mut D,
    b: &mut D,
    body: &Text,
) -> Result<(), KeepFault>
    requires alive { is_dead spool.old ≡ false }
    requires room { HasRoom spool.old (D.told a.old) (D.told b.old) }
    requires some { 0 < length body.now }
    ensures done { (state : State) → IsSettled spool.old (D.told a.old) (D.told b.old) state
        → OnOk result (IsSettled spool.new (D.told a.new) (D.told b.new)
        (stored (compacts spool.old (length body.now)) state body.now (cluster_bytes cluster.now))) }
    ensures any_moment { (state : State) → IsSettled spool.old (D.told a.old) (D.told b.old) state
        → (c d : List ℕ) → IsImageSince (length (D.told a.old)) (D.told a.new) c
        → IsImageSince (length (D.told b.old)) (D.told b.new) d
        → IsOneOf state (stored (compacts spool.old (length body.now)) state body.now
        (cluster_bytes cluster.now)) c d }
    ensures fits { compacts spool.old (length body.now) ≡ true
        → OnWritten result (IsTrue (cluster_fits cluster.now)) }
    ensures format { compacts spool.old (length body.now) ≡ false → format_of spool.old ≡ 2 }
    ensures answer { Keeps result (written_end spool.old cluster.now (length body.now))
        (Rose (D.disk_faults a.old) (D.disk_faults a.new) ⊎ Rose (D.disk_faults b.old) (D.disk_faults b.new)) }
    ensures untouched { OnUnwritten result ((a.new ≡ a.old) × (b.new ≡ b.old)) }
    ensures stored { OnOk result (IsStored (compacts spool.old
        (length body.now)) spool.old spool.new (length body.now)
        (length (cluster_bytes cluster.now))) }
    ensures room { OnOk result (HasRoom spool.new (D.told a.new) (D.told b.new)) }
    ensures alive { OnOk result (is_dead spool.new ≡ false) }
    ensures grows { Grows (D.told a.old) (D.told a.new) (D.told b.old) (D.told b.new) }
    ensures syncs { D.syncs a.new + D.syncs b.new ≤ D.syncs a.old + D.syncs b.old
        + stored_syncs (compacts spool.old (length body.now)) }
    ensures syncs_a { D.syncs a.old ≤ D.syncs a.new }
    ensures syncs_b { D.syncs b.old ≤ D.syncs b.new }
    ensures faults_a { D.disk_faults a.old ≤ D.disk_faults a.new }
    ensures faults_b { D.disk_faults b.old ≤ D.disk_faults b.new }
{
    if is_compacting(spool, body.len()) {
        store_snapshot(alloc, spool, cluster, a, b)
    } else {
        keep_record(alloc, spool, a, b, body)
    }
}
