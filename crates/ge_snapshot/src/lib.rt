//! A snapshot: the canonical bytes of a whole cluster, and nothing behind them. Both formats are read, format 2 is
//! written.
#![tactic(auto)]

ghost use Rattle.std.specs.Prelude.{◌≡◌, ◌++◌, ◌≤◌, length, IfOk, OnOk, OnErr, IsTrue};
ghost use Rattle.ge_model_codec.specs.Reading.{ReadsAs, ReadsWhole};
ghost use Rattle.ge_model_codec.specs.Code.{whole};
ghost use Rattle.ge_model_codec.specs.Cluster.{cluster_code, cluster_code_1};
ghost use Rattle.ge_model_codec.specs.Entries.{entry_code_1};
ghost use Rattle.ge_codec.specs.Fronts.{IsFront};

use ge_codec::{Canon, Format, Format1, Format2, TakeFault};
use ge_rows::{Cluster, Entry, Text};
use std::alloc::{AllocError, Global};

/// Puts a cluster's bytes at the end; the cluster is then known to be one that they tell, so they are read again
/// whatever follows. After want of memory the bytes that stood are the front of what stands.
pub fn put_cluster(cluster: &Cluster, out: &mut Text) -> Result<(), AllocError>
    ensures ok { OnOk result (out.new ≡ out.old ++ cluster_code.write cluster.now) }
    ensures fits { OnOk result (IsTrue (cluster_code.fits cluster.now)) }
    ensures err { OnErr result (IsFront out.old out.new) }
{
    cluster.put(out)
}

// The cluster of a format that all the bytes are.
#[tactic(auto, using(crate::specs::Whole::fault_of_all))]
fn take_whole<F: Format<Cluster>>(alloc: Global, bytes: &[u8]) -> Result<Cluster, TakeFault>
    ensures { ReadsWhole result (whole F.code bytes.now) }
{
    let (cluster, end) = F::take(alloc, bytes, 0)?;
    if end != bytes.len() {
        return Err(TakeFault::Range(end));
    }
    Ok(cluster)
}

/// The cluster that all the bytes are. Bytes that are left over are out of range at the first of them.
pub fn take_cluster(alloc: Global, bytes: &[u8]) -> Result<Cluster, TakeFault>
    ensures read { ReadsWhole result (whole cluster_code bytes.now) }
    ensures one_spelling { IfOk result (λ cluster. bytes.now ≡ cluster_code.write cluster) }
{
    take_whole::<Format2>(alloc, bytes)
}

/// The same in format 1: the jobs are in no advance reservation, and none was ever made.
pub fn take_cluster_1(alloc: Global, bytes: &[u8]) -> Result<Cluster, TakeFault>
    ensures read { ReadsWhole result (whole cluster_code_1 bytes.now) }
    ensures one_spelling { IfOk result (λ cluster. bytes.now ≡ cluster_code_1.write cluster) }
{
    take_whole::<Format1>(alloc, bytes)
}

/// Reads an entry of format 1 at a place, which is at most the length, and tells where it ends.
pub fn take_entry_1(alloc: Global, bytes: &[u8], at: usize) -> Result<(Entry, usize), TakeFault>
    requires { at ≤ length bytes.now }
    ensures read { ReadsAs result (entry_code_1.read bytes.now at) }
    ensures within { IfOk result (λ p. p.1 ≤ length bytes.now) }
{
    <Format1 as Format<Entry>>::take(alloc, bytes, at)
}
