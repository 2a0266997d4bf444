// Clusters compared and copied, by their bytes.
ghost use Rattle.std.specs.Prelude.{◌≡◌, ◌↔◌, IfOk, IsTrue, OnOk};
ghost use Rattle.ge_model_codec.specs.Cluster.{cluster_code};

use ge_pieces::is_word;
use ge_rows::{Cluster, Text};
use ge_snapshot::{put_cluster, take_cluster};
use std::alloc::{AllocError, Global};

fn bytes_of(alloc: Global, c: &Cluster) -> Result<Text, AllocError>
    ensures bytes { IfOk result (λ bytes. bytes ≡ cluster_code.write c.now) }
    ensures fits { OnOk result (IsTrue (cluster_code.fits c.now)) }
{
    let mut bytes = Text::new(alloc);
    put_cluster(c, &mut bytes)?;
    Ok(bytes)
}

/// Another cluster with the same rows.
pub(crate) fn same_cluster(alloc: Global, c: &Cluster) -> Result<Cluster, AllocError>
    ensures { IfOk result (λ twin. twin ≡ c.now) }
{
    let bytes = bytes_of(alloc, c)?;
    match take_cluster(alloc, bytes.bytes()) {
        Ok(twin) => Ok(twin),
        Err(_) => Err(AllocError),
    }
}

/// Whether two clusters are one.
pub fn is_same_cluster(alloc: Global, c: &Cluster, d: &Cluster) -> Result<bool, AllocError>
    ensures { IfOk result (λ is. IsTrue is ↔ (c.now ≡ d.now)) }
{
    let first = bytes_of(alloc, c)?;
    let second = bytes_of(alloc, d)?;
    Ok(is_word(first.bytes(), second.bytes()))
}
