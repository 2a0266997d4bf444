// Values and the complex table.
ghost use Rattle.std.specs.Prelude.{◌≤◌, length, IfOk};
ghost use Rattle.ge_model_codec.specs.Reading.{ReadsAs};
ghost use Rattle.ge_model_codec.specs.Configured.{first_consumables_code, complex_def_code_with};

use crate::canon::{Canon, Format, Format1, Format2};
use crate::pairs::{Fields, put_variant};
use crate::texts::take_tag;
use ge_model_codec::TakeFault;
use ge_rows::{ComplexDef, Consumable, Kind, Relop, Requestable, Text, Value};
use std::alloc::{AllocError, Global};

impl Canon for Value {
    ghost use Rattle.ge_model_codec.specs.Configured.{value_code};
    ghost use Rattle.ge_codec.specs.ConfiguredLaws.{value_canonical};

    ghost code = { value_code };

    ghost canonical = { value_canonical };

    fn put(&self, out: &mut Text) -> Result<(), AllocError> {
        match self {
            Value::Amount(value) => put_variant(0, &value, out),
            Value::Flag(value) => put_variant(1, &value, out),
            Value::Word(value) => put_variant(2, &value, out),
        }
    }

    #[tactic(auto, using(crate::specs::Passing::fault_passes, crate::specs::Passing::fault_passes_made))]
    fn take(alloc: Global, bytes: &[u8], at: usize) -> Result<(Value, usize), TakeFault> {
        let (tag, mid) = take_tag(bytes, at, 3)?;
        match tag {
            0 => {
                let (value, end) = u64::take(alloc, bytes, mid)?;
                Ok((Value::Amount(value), end))
            }
            1 => {
                let (value, end) = bool::take(alloc, bytes, mid)?;
                Ok((Value::Flag(value), end))
            }
            _ => {
                let (value, end) = Text::take(alloc, bytes, mid)?;
                Ok((Value::Word(value), end))
            }
        }
    }
}

impl Canon for Kind {
    ghost use Rattle.ge_model_codec.specs.Configured.{kind_code};
    ghost use Rattle.ge_codec.specs.ConfiguredLaws.{kind_canonical};

    ghost code = { kind_code };

    ghost canonical = { kind_canonical };

    fn put(&self, out: &mut Text) -> Result<(), AllocError> {
        match self {
            Kind::Int => out.push(0),
            Kind::Time => out.push(1),
            Kind::Memory => out.push(2),
            Kind::Double => out.push(3),
            Kind::Bool => out.push(4),
            Kind::Str => out.push(5),
            Kind::CStr => out.push(6),
            Kind::ReStr => out.push(7),
            Kind::Host => out.push(8),
        }
    }

    #[tactic(auto, using(crate::specs::Passing::fault_passes, crate::specs::Passing::fault_passes_made))]
    fn take(_alloc: Global, bytes: &[u8], at: usize) -> Result<(Kind, usize), TakeFault> {
        let (tag, end) = take_tag(bytes, at, 9)?;
        let value = match tag {
            0 => Kind::Int,
            1 => Kind::Time,
            2 => Kind::Memory,
            3 => Kind::Double,
            4 => Kind::Bool,
            5 => Kind::Str,
            6 => Kind::CStr,
            7 => Kind::ReStr,
            _ => Kind::Host,
        };
        Ok((value, end))
    }
}

impl Canon for Relop {
    ghost use Rattle.ge_model_codec.specs.Configured.{relop_code};
    ghost use Rattle.ge_codec.specs.ConfiguredLaws.{relop_canonical};

    ghost code = { relop_code };

    ghost canonical = { relop_canonical };

    fn put(&self, out: &mut Text) -> Result<(), AllocError> {
        match self {
            Relop::Eq => out.push(0),
            Relop::Ne => out.push(1),
            Relop::Lt => out.push(2),
            Relop::Le => out.push(3),
            Relop::Gt => out.push(4),
            Relop::Ge => out.push(5),
        }
    }

    #[tactic(auto, using(crate::specs::Passing::fault_passes, crate::specs::Passing::fault_passes_made))]
    fn take(_alloc: Global, bytes: &[u8], at: usize) -> Result<(Relop, usize), TakeFault> {
        let (tag, end) = take_tag(bytes, at, 6)?;
        let value = match tag {
            0 => Relop::Eq,
            1 => Relop::Ne,
            2 => Relop::Lt,
            3 => Relop::Le,
            4 => Relop::Gt,
            _ => Relop::Ge,
        };
        Ok((value, end))
    }
}

impl Canon for Requestable {
    ghost use Rattle.ge_model_codec.specs.Configured.{requestable_code};
    ghost use Rattle.ge_codec.specs.ConfiguredLaws.{requestable_canonical};

    ghost code = { requestable_code };

    ghost canonical = { requestable_canonical };

    fn put(&self, out: &mut Text) -> Result<(), AllocError> {
        match self {
            Requestable::No => out.push(0),
            Requestable::Yes => out.push(1),
            Requestable::Forced => out.push(2),
        }
    }

    #[tactic(auto, using(crate::specs::Passing::fault_passes, crate::specs::Passing::fault_passes_made))]
    fn take(_alloc: Global, bytes: &[u8], at: usize) -> Result<(Requestable, usize), TakeFault> {
        let (tag, end) = take_tag(bytes, at, 3)?;
        let value = match tag {
            0 => Requestable::No,
            1 => Requestable::Yes,
            _ => Requestable::Forced,
        };
        Ok((value, end))
    }
}

// One of the first so many.
#[tactic(auto, using(crate::specs::Passing::fault_passes, crate::specs::Passing::fault_passes_made))]
fn take_consumable(bytes: &[u8], at: usize, count: u8) -> Result<(Consumable, usize), TakeFault>
    requires count { count ≤ 3 }
    requires at { at ≤ length bytes.now }
    ensures read { ReadsAs result ((first_consumables_code count).read bytes.now at) }
    ensures within { IfOk result (λ p. p.1 ≤ length bytes.now) }
{
    let (tag, end) = take_tag(bytes, at, count)?;
    let value = match tag {
        0 => Consumable::No,
        1 => Consumable::Yes,
        _ => Consumable::Job,
    };
    Ok((value, end))
}

impl Canon for Consumable {
    ghost use Rattle.ge_model_codec.specs.Configured.{consumable_code};
    ghost use Rattle.ge_codec.specs.ConfiguredLaws.{consumable_canonical};

    ghost code = { consumable_code };

    ghost canonical = { consumable_canonical };

    fn put(&self, out: &mut Text) -> Result<(), AllocError> {
        match self {
            Consumable::No => out.push(0),
            Consumable::Yes => out.push(1),
            Consumable::Job => out.push(2),
        }
    }

    fn take(_alloc: Global, bytes: &[u8], at: usize) -> Result<(Consumable, usize), TakeFault> {
        take_consumable(bytes, at, 3)
    }
}

impl Format<Consumable> for Format1 {
    ghost use Rattle.ge_model_codec.specs.Configured.{consumable_code_1};

    ghost code = { consumable_code_1 };

    fn take(_alloc: Global, bytes: &[u8], at: usize) -> Result<(Consumable, usize), TakeFault> {
        take_consumable(bytes, at, 2)
    }
}

type ComplexDefFront = (Text, Kind, Relop, Requestable);

// A row of the complex table, its column consumable in a format.
#[tactic(auto, using(crate::specs::Passing::fault_passes, crate::specs::Passing::fault_passes_made))]
fn take_complex_def<C: Format<Consumable>>(
    alloc: Global,
    bytes: &[u8],
    at: usize,
) -> Result<(ComplexDef, usize), TakeFault>
    requires { at ≤ length bytes.now }
    ensures read { ReadsAs result ((complex_def_code_with C.code).read bytes.now at) }
    ensures within { IfOk result (λ p. p.1 ≤ length bytes.now) }
{
    let (front, mid) = ComplexDefFront::take(alloc, bytes, at)?;
    let (consumable, mid) = C::take(alloc, bytes, mid)?;
    let ((fallback, urgency), past) = <(Value, u64)>::take(alloc, bytes, mid)?;
    let (shortcut, kind, relop, requestable) = front;
    Ok((
        ComplexDef {
            shortcut,
            kind,
            relop,
            requestable,
            consumable,
            fallback,
            urgency,
        },
        past,
    ))
}

impl Canon for ComplexDef {
    ghost use Rattle.ge_model_codec.specs.Configured.{complex_def_code};
    ghost use Rattle.ge_codec.specs.ConfiguredLaws.{complex_def_canonical};

    ghost code = { complex_def_code };

    ghost canonical = { complex_def_canonical };

    fn put(&self, out: &mut Text) -> Result<(), AllocError> {
        (
            (&self.shortcut, &self.kind, &self.relop, &self.requestable),
            (&self.consumable, (&self.fallback, &self.urgency)),
        )
            .put_all(out)
    }

    fn take(alloc: Global, bytes: &[u8], at: usize) -> Result<(ComplexDef, usize), TakeFault> {
        take_complex_def::<Format2>(alloc, bytes, at)
    }
}

impl Format<ComplexDef> for Format1 {
    ghost use Rattle.ge_model_codec.specs.Configured.{complex_def_code_1};

    ghost code = { complex_def_code_1 };

    fn take(alloc: Global, bytes: &[u8], at: usize) -> Result<(ComplexDef, usize), TakeFault> {
        take_complex_def::<Format1>(alloc, bytes, at)
    }
}
