//! Numbers listed once each, in the order in which they come.

ghost use Rattle.std.specs.Prelude.{◌≡◌, [], IfOk, OnOk, fold};
ghost use Rattle.ge_model_rows.specs.Pieces.{with_one_number, each_number_once};
ghost use Rattle.ge_job_options.specs.Listing.{Knows};

use ge_rows::List;
use std::alloc::{AllocError, Global};
use std::collections::BTreeSet;

/// Different numbers in the order in which they came.
#[derive(Drop)]
pub(crate) struct Listed {
    /// The numbers.
    pub(crate) numbers: List<u32>,
    /// The same numbers, to be asked for.
    pub(crate) seen: BTreeSet<u32>,
}

/// No number yet, which takes no memory.
pub(crate) fn none_listed(alloc: Global) -> Listed
    ensures numbers { result.numbers ≡ [] }
    ensures knows { Knows result }
{
    Listed {
        numbers: List::new(alloc),
        seen: BTreeSet::new(alloc),
    }
}

/// One more number, unless it is there.
#[tactic(auto, using(crate::proofs::Once::put_new, crate::proofs::Once::list_new, crate::proofs::Once::list_same))]
pub(crate) fn list_once(listed: &mut Listed, number: u32) -> Result<(), AllocError>
    requires { Knows listed.old }
    ensures numbers { OnOk result (listed.new.numbers ≡ with_one_number listed.old.numbers number) }
    ensures knows { OnOk result (Knows listed.new) }
{
    if listed.seen.insert(number)? {
        listed.numbers.push(number)?;
    }
    Ok(())
}

fn list_all(listed: &mut Listed, numbers: &[u32]) -> Result<(), AllocError>
    requires { Knows listed.old }
    ensures numbers { OnOk result (listed.new.numbers
        ≡ fold with_one_number listed.old.numbers numbers.now) }
{
    for number in numbers {
        list_once(listed, *number)?;
    }
    Ok(())
}

/// Each of these numbers once, at its first place.
pub fn numbers_once(alloc: Global, numbers: &[u32]) -> Result<List<u32>, AllocError>
    ensures { IfOk result (λ once. once ≡ each_number_once numbers.now) }
{
    let mut listed = none_listed(alloc);
    list_all(&mut listed, numbers)?;
    Ok(numbers_of(listed))
}

/// The numbers of a list.
pub(crate) fn numbers_of(listed: Listed) -> List<u32>
    ensures { result ≡ listed.numbers }
{
    let Listed { numbers, seen: _ } = listed;
    numbers
}
