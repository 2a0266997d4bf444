// Pairs, options, and the parts of rows.
ghost use Rattle.std.specs.Prelude.{◌≡◌, ◌++◌, ◌∷◌, [], List, ℕ, Bool, true, ◌&&◌, OnOk, OnErr, IsTrue};
ghost use Rattle.ge_codec.specs.Fronts.{IsFront};

use crate::canon::Canon;
use crate::texts::take_flag;
use ge_model_codec::TakeFault;
use ge_rows::Text;
use std::alloc::{AllocError, Global};

/// Values that lie apart and are written one behind the other, as the fields of a row.
pub(crate) trait Fields {
    ghost written: { Self → List ℕ };

    // Whether each is a value of its type.
    ghost fit: { Self → Bool };

    fn put_all(&self, out: &mut Text) -> Result<(), AllocError>
        ensures ok { OnOk result (out.new ≡ out.old ++ written self.now) }
        ensures fits { OnOk result (IsTrue (fit self.now)) }
        ensures err { OnErr result (IsFront out.old out.new) };
}

impl Fields for () {
    ghost written = { λ u. [] };

    ghost fit = { λ u. true };

    fn put_all(&self, _out: &mut Text) -> Result<(), AllocError> {
        Ok(())
    }
}

impl<A: Canon> Fields for &A {
    ghost written = { λ a. A.code.write a.now };

    ghost fit = { λ a. A.code.fits a.now };

    fn put_all(&self, out: &mut Text) -> Result<(), AllocError> {
        let value: &A = *self;
        value.put(out)
    }
}

// Two parts, one behind the other.
#[tactic(auto, using(crate::specs::Fronts::front_is))]
fn put_two<A: Fields, B: Fields>(first: &A, second: &B, out: &mut Text) -> Result<(), AllocError>
    ensures ok { OnOk result (out.new ≡ out.old ++ (A.written first.now ++ B.written second.now)) }
    ensures fits { OnOk result (IsTrue (A.fit first.now && B.fit second.now)) }
    ensures err { OnErr result (IsFront out.old out.new) }
{
    first.put_all(out)?;
    second.put_all(out)
}

// Three parts: those behind the first are put by a call of their own, so that no proof looks through more than one refusal.
#[tactic(auto, using(crate::specs::Fronts::front_is))]
fn put_three<A: Fields, B: Fields, C: Fields>(
    first: &A,
    second: &B,
    third: &C,
    out: &mut Text,
) -> Result<(), AllocError>
    ensures ok { OnOk result (out.new
        ≡ out.old ++ (A.written first.now ++ (B.written second.now ++ C.written third.now))) }
    ensures fits { OnOk result
        (IsTrue (A.fit first.now && (B.fit second.now && C.fit third.now))) }
    ensures err { OnErr result (IsFront out.old out.new) }
{
    first.put_all(out)?;
    put_two(second, third, out)
}

#[tactic(auto, using(crate::specs::Fronts::front_is))]
fn put_four<A: Fields, B: Fields, C: Fields, D: Fields>(
    first: &A,
    second: &B,
    third: &C,
    fourth: &D,
    out: &mut Text,
) -> Result<(), AllocError>
    ensures ok { OnOk result (out.new ≡ out.old ++ (A.written first.now
        ++ (B.written second.now ++ (C.written third.now ++ D.written fourth.now)))) }
    ensures fits { OnOk result (IsTrue (A.fit first.now
        && (B.fit second.now && (C.fit third.now && D.fit fourth.now)))) }
    ensures err { OnErr result (IsFront out.old out.new) }
{
    first.put_all(out)?;
    put_three(second, third, fourth, out)
}

impl<A: Fields, B: Fields> Fields for (A, B) {
    ghost written = { λ p. A.written p.0 ++ B.written p.1 };

    ghost fit = { λ p. A.fit p.0 && B.fit p.1 };

    fn put_all(&self, out: &mut Text) -> Result<(), AllocError> {
        put_two(&self.0, &self.1, out)
    }
}

impl<A: Fields, B: Fields, C: Fields> Fields for (A, B, C) {
    ghost written = { λ p. A.written p.0 ++ (B.written p.1 ++ C.written p.2) };

    ghost fit = { λ p. A.fit p.0 && (B.fit p.1 && C.fit p.2) };

    fn put_all(&self, out: &mut Text) -> Result<(), AllocError> {
        put_three(&self.0, &self.1, &self.2, out)
    }
}

impl<A: Fields, B: Fields, C: Fields, D: Fields> Fields for (A, B, C, D) {
    ghost written = { λ p. A.written p.0 ++ (B.written p.1 ++ (C.written p.2 ++ D.written p.3)) };

    ghost fit = { λ p. A.fit p.0 && (B.fit p.1 && (C.fit p.2 && D.fit p.3)) };

    fn put_all(&self, out: &mut Text) -> Result<(), AllocError> {
        put_four(&self.0, &self.1, &self.2, &self.3, out)
    }
}

impl<A: Fields, B: Fields, C: Fields, D: Fields, E: Fields> Fields for (A, B, C, D, E) {
    ghost written = { λ p. A.written p.0 ++ (B.written p.1 ++ (C.written p.2 ++ (D.written p.3 ++ E.written p.4))) };

    ghost fit = { λ p. A.fit p.0 && (B.fit p.1 && (C.fit p.2 && (D.fit p.3 && E.fit p.4))) };

    #[tactic(auto, using(crate::specs::Fronts::front_is))]
    fn put_all(&self, out: &mut Text) -> Result<(), AllocError> {
        self.0.put_all(out)?;
        put_four(&self.1, &self.2, &self.3, &self.4, out)
    }
}

// A tag byte and the fields of a variant.
pub(crate) fn put_variant<F: Fields>(tag: u8, fields: &F, out: &mut Text) -> Result<(), AllocError>
    ensures ok { OnOk result (out.new ≡ out.old ++ (tag ∷ F.written fields.now)) }
    ensures fits { OnOk result (IsTrue (F.fit fields.now)) }
    ensures err { OnErr result (IsFront out.old out.new) }
{
    out.push(tag)?;
    fields.put_all(out)
}

impl Canon for () {
    ghost use Rattle.ge_model_codec.specs.Code.{empty_code};
    ghost use Rattle.ge_codec.specs.Laws.{empty_canonical};

    ghost code = { empty_code };

    ghost canonical = { empty_canonical };

    fn put(&self, _out: &mut Text) -> Result<(), AllocError> {
        Ok(())
    }

    fn take(_alloc: Global, _bytes: &[u8], at: usize) -> Result<((), usize), TakeFault> {
        Ok(((), at))
    }
}

impl<A: Canon + Drop, B: Canon> Canon for (A, B) {
    ghost use Rattle.ge_model_codec.specs.Code.{pair_code};
    ghost use Rattle.ge_codec.specs.Laws.{pair_canonical};

    ghost code = { pair_code A.code B.code };

    ghost canonical = { pair_canonical A.canonical B.canonical };

    fn put(&self, out: &mut Text) -> Result<(), AllocError> {
        (&self.0, &self.1).put_all(out)
    }

    #[tactic(auto, using(crate::specs::Passing::fault_passes))]
    fn take(alloc: Global, bytes: &[u8], at: usize) -> Result<((A, B), usize), TakeFault> {
        let (first, mid) = A::take(alloc, bytes, at)?;
        let (second, end) = B::take(alloc, bytes, mid)?;
        Ok(((first, second), end))
    }
}

impl<A: Canon + Drop, B: Canon + Drop, C: Canon> Canon for (A, B, C) {
    ghost use Rattle.ge_model_codec.specs.Code.{triple_code};
    ghost use Rattle.ge_codec.specs.Laws.{triple_canonical};

    ghost code = { triple_code A.code B.code C.code };

    ghost canonical = { triple_canonical A.canonical B.canonical C.canonical };

    fn put(&self, out: &mut Text) -> Result<(), AllocError> {
        (&self.0, &self.1, &self.2).put_all(out)
    }

    #[tactic(auto, using(crate::specs::Passing::fault_passes_made))]
    fn take(alloc: Global, bytes: &[u8], at: usize) -> Result<((A, B, C), usize), TakeFault> {
        let (parts, end) = <(A, (B, C))>::take(alloc, bytes, at)?;
        let (first, (second, third)) = parts;
        Ok(((first, second, third), end))
    }
}

impl<A: Canon + Drop, B: Canon + Drop, C: Canon + Drop, D: Canon> Canon for (A, B, C, D) {
    ghost use Rattle.ge_model_codec.specs.Code.{quadruple_code};
    ghost use Rattle.ge_codec.specs.Laws.{quadruple_canonical};

    ghost code = { quadruple_code A.code B.code C.code D.code };

    ghost canonical = { quadruple_canonical A.canonical B.canonical C.canonical D.canonical };

    fn put(&self, out: &mut Text) -> Result<(), AllocError> {
        (&self.0, &self.1, &self.2, &self.3).put_all(out)
    }

    #[tactic(auto, using(crate::specs::Passing::fault_passes_made))]
    fn take(alloc: Global, bytes: &[u8], at: usize) -> Result<((A, B, C, D), usize), TakeFault> {
        let (parts, end) = <(A, (B, (C, D)))>::take(alloc, bytes, at)?;
        let (first, (second, (third, fourth))) = parts;
        Ok(((first, second, third, fourth), end))
    }
}

impl<A: Canon + Drop, B: Canon + Drop, C: Canon + Drop, D: Canon + Drop, E: Canon> Canon
    for (A, B, C, D, E) {
    ghost use Rattle.ge_model_codec.specs.Code.{quintuple_code};
    ghost use Rattle.ge_codec.specs.Laws.{quintuple_canonical};

    ghost code = { quintuple_code A.code B.code C.code D.code E.code };

    ghost canonical = { quintuple_canonical A.canonical B.canonical C.canonical D.canonical E.canonical };

    fn put(&self, out: &mut Text) -> Result<(), AllocError> {
        (&self.0, &self.1, &self.2, &self.3, &self.4).put_all(out)
    }

    #[tactic(auto, using(crate::specs::Passing::fault_passes_made))]
    fn take(alloc: Global, bytes: &[u8], at: usize) -> Result<((A, B, C, D, E), usize), TakeFault> {
        let (parts, end) = <(A, (B, C, D, E))>::take(alloc, bytes, at)?;
        let (first, (second, third, fourth, fifth)) = parts;
        Ok(((first, second, third, fourth, fifth), end))
    }
}

impl<T: Canon> Canon for Option<T> {
    ghost use Rattle.ge_model_codec.specs.Code.{option_code};
    ghost use Rattle.ge_codec.specs.Parts.{option_canonical};

    ghost code = { option_code T.code };

    ghost canonical = { option_canonical T.code T.canonical };

    fn put(&self, out: &mut Text) -> Result<(), AllocError> {
        match self {
            Some(value) => put_variant(1, &value, out),
            None => out.push(0),
        }
    }

    #[tactic(auto, using(crate::specs::Passing::fault_passes, crate::specs::Passing::fault_passes_made))]
    fn take(alloc: Global, bytes: &[u8], at: usize) -> Result<(Option<T>, usize), TakeFault> {
        let (flag, mid) = take_flag(bytes, at)?;
        if flag == 0 {
            return Ok((None, mid));
        }
        let (value, end) = T::take(alloc, bytes, mid)?;
        Ok((Some(value), end))
    }
}
