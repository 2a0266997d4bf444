// Lists.
ghost use Rattle.std.specs.Prelude.{◌≡◌, ◌++◌, ◌≤◌, length, flat_map, IfOk, OnOk, OnErr, IsTrue};
ghost use Rattle.std.specs.List.{list_all};
ghost use Rattle.ge_model_codec.specs.Reading.{ReadsAs};
ghost use Rattle.ge_model_codec.specs.Code.{items_at};
ghost use Rattle.ge_codec.specs.Fronts.{IsFront};
ghost use Rattle.ge_codec.specs.Taking.{TakesItem};

use crate::canon::Canon;
use ge_model_codec::TakeFault;
use ge_rows::{List, Text};
use std::alloc::{AllocError, Global};

// The items' bytes.
#[tactic(auto, using(crate::specs::Fronts::front_is))]
pub(crate) fn put_items<T: Canon>(items: &[T], out: &mut Text) -> Result<(), AllocError>
    ensures ok { OnOk result (out.new ≡ out.old ++ flat_map T.code.write items.now) }
    ensures fits { OnOk result (IsTrue (list_all T.code.fits items.now)) }
    ensures err { OnErr result (IsFront out.old out.new) }
{
    for item in items {
        item.put(out)?;
    }
    Ok(())
}

// One more item.
fn take_item<T: Canon + Drop>(
    alloc: Global,
    bytes: &[u8],
    at: usize,
    list: &mut List<T>,
) -> Result<usize, TakeFault>
    requires { at ≤ length bytes.now }
    ensures taken { TakesItem T.code bytes.now at list.old list.new result }
    ensures within { IfOk result (λ end. end ≤ length bytes.now) }
{
    let (item, end) = T::take(alloc, bytes, at)?;
    list.push(item)?;
    Ok(end)
}

// So many items, one behind the other.
fn take_items<T: Canon + Drop>(
    alloc: Global,
    bytes: &[u8],
    at: usize,
    count: u64,
) -> Result<(List<T>, usize), TakeFault>
    requires { at ≤ length bytes.now }
    ensures read { ReadsAs result (items_at T.code count bytes.now at) }
    ensures within { IfOk result (λ p. p.1 ≤ length bytes.now) }
{
    let mut list = List::new(alloc);
    let mut end = at;
    for turn in 0..count {
        match take_item(alloc, bytes, end, &mut list) {
            Ok(next) => end = next,
            Err(fault) => return Err(fault),
        }
    }
    Ok((list, end))
}

impl<T: Canon + Drop> Canon for List<T> {
    ghost use Rattle.ge_model_codec.specs.Code.{list_code};
    ghost use Rattle.ge_codec.specs.Parts.{list_canonical};

    ghost code = { list_code T.code };

    ghost canonical = { list_canonical T.code T.canonical };

    fn put(&self, out: &mut Text) -> Result<(), AllocError> {
        (self.len() as u64).put(out)?;
        put_items(self.items(), out)
    }

    #[tactic(auto, using(crate::specs::Passing::fault_passes))]
    fn take(alloc: Global, bytes: &[u8], at: usize) -> Result<(List<T>, usize), TakeFault> {
        let (count, mid) = u64::take(alloc, bytes, at)?;
        take_items(alloc, bytes, mid, count)
    }
}
