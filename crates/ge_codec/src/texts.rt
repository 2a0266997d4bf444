// Bools and texts.
ghost use Rattle.std.specs.Prelude.{◌≡◌, ◌≤◌, ◌<◌, length, nat_lt, IfOk, IsTrue};
ghost use Rattle.std.specs.List.{list_all};
ghost use Rattle.ge_model_codec.specs.Reading.{ReadsAs};
ghost use Rattle.ge_model_codec.specs.Code.{bounded_code};
ghost use Rattle.ge_model_codec.specs.declared.TakeFault.TheVariants.{Range, Tag};

use crate::canon::Canon;
use ge_model_codec::TakeFault;
use ge_rows::Text;
use std::alloc::{AllocError, Global};

// A byte 0 or 1.
pub(crate) fn take_flag(bytes: &[u8], at: usize) -> Result<(u8, usize), TakeFault>
    requires { at ≤ length bytes.now }
    ensures read { ReadsAs result ((bounded_code 2 Range).read bytes.now at) }
    ensures within { IfOk result (λ p. p.1 ≤ length bytes.now) }
    ensures low { IfOk result (λ p. p.0 < 2) }
{
    if at >= bytes.len() {
        return Err(TakeFault::Short);
    }
    let flag = bytes[at];
    if flag >= 2 {
        return Err(TakeFault::Range(at));
    }
    Ok((flag, at + 1))
}

// A tag byte below the count of an enum's variants.
pub(crate) fn take_tag(bytes: &[u8], at: usize, count: u8) -> Result<(u8, usize), TakeFault>
    requires { at ≤ length bytes.now }
    ensures read { ReadsAs result ((bounded_code count Tag).read bytes.now at) }
    ensures within { IfOk result (λ p. p.1 ≤ length bytes.now) }
    ensures low { IfOk result (λ p. p.0 < count) }
{
    if at >= bytes.len() {
        return Err(TakeFault::Short);
    }
    let tag = bytes[at];
    if tag >= count {
        return Err(TakeFault::Tag(at));
    }
    Ok((tag, at + 1))
}

impl Canon for bool {
    ghost use Rattle.ge_model_codec.specs.Code.{bool_code};
    ghost use Rattle.ge_codec.specs.Parts.{bool_canonical};

    ghost code = { bool_code };

    ghost canonical = { bool_canonical };

    fn put(&self, out: &mut Text) -> Result<(), AllocError> {
        if *self { out.push(1) } else { out.push(0) }
    }

    #[tactic(auto, using(crate::specs::Passing::fault_passes))]
    fn take(_alloc: Global, bytes: &[u8], at: usize) -> Result<(bool, usize), TakeFault> {
        let (flag, end) = take_flag(bytes, at)?;
        Ok((flag != 0, end))
    }
}

// Bytes are numbers below 256.
fn are_bytes(bytes: &[u8])
    ensures { IsTrue (list_all (λ b. nat_lt b 256) bytes.now) }
{
    let _count = bytes.len();
}

impl Canon for Text {
    ghost use Rattle.ge_model_codec.specs.Code.{text_code};
    ghost use Rattle.ge_codec.specs.Parts.{text_canonical};

    ghost code = { text_code };

    ghost canonical = { text_canonical };

    fn put(&self, out: &mut Text) -> Result<(), AllocError> {
        are_bytes(self.bytes());
        (self.len() as u64).put(out)?;
        out.append(self.bytes())
    }

    #[tactic(auto, using(crate::specs::Passing::fault_passes))]
    fn take(alloc: Global, bytes: &[u8], at: usize) -> Result<(Text, usize), TakeFault> {
        let (count, mid) = u64::take(alloc, bytes, at)?;
        if count > (bytes.len() - mid) as u64 {
            return Err(TakeFault::Short);
        }
        let end = mid + count as usize;
        let text = Text::from_bytes(alloc, &bytes[mid..end])?;
        Ok((text, end))
    }
}
