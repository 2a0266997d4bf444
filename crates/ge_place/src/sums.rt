//! Sums of what is asked of limits.
ghost use Rattle.std.specs.Prelude.{◌≡◌, ◌+◌, [], cond, min, OnOk};
ghost use Rattle.ge_model_place.specs.Bookings.{same_limit};
ghost use Rattle.ge_model_place.specs.Limits.{greatest_demand};
ghost use Rattle.ge_model_rows.specs.ScheduleRows.{LimitId as Limit};
ghost use Rattle.ge_place.specs.Sums.{sum_in};

use ge_rows::LimitId;
use std::alloc::{AllocError, Global};
use std::collections::BTreeMap;
use std::marker::Model;
use std::rc::Rc;

/// What is asked of limits: of one that isn't named, nothing. A sum is cut at the greatest demand. Contracts see the limits,
/// each with its sum.
///
/// A limit is shared with the instances that ask of it, since a copy of its names costs more than all else here.
#[derive(Drop)]
pub(crate) struct Sums {
    rows: BTreeMap<Rc<LimitId>, u64>,
}

impl Model for Sums {
    ghost use Rattle.std.specs.Prelude.{ℕ, List};
    ghost use Rattle.ge_model_rows.specs.ScheduleRows.{LimitId as Limit};
    ghost use Rattle.ge_place.specs.Shared.{shown};

    ghost Value = { List (Limit × ℕ) };

    ghost view = { λ s. shown s.rows.entries };
}

impl Sums {
    /// Nothing is asked of any limit.
    pub(crate) fn new(alloc: Global) -> Sums
        ensures { result ≡ [] }
    {
        Sums {
            rows: BTreeMap::new(alloc),
        }
    }

    /// What is asked of a limit.
    pub(crate) fn sum_of(&self, limit: &Rc<LimitId>) -> u64
        ensures { result ≡ sum_in self.now limit.now.value }
    {
        match self.rows.get(limit) {
            Some(sum) => *sum,
            None => 0,
        }
    }

    /// So much more is asked of a limit. It is looked up once, whether or not it has a sum.
    pub(crate) fn ask(&mut self, limit: &Rc<LimitId>, amount: u64) -> Result<(), AllocError>
        ensures { OnOk result ((other : Limit) → sum_in self.new other
            ≡ cond (same_limit limit.now.value other)
            (min (sum_in self.old limit.now.value + amount) greatest_demand)
            (sum_in self.old other)) }
    {
        let limit = limit.clone()?;
        let entry = self.rows.entry(limit)?;
        let sum = entry.or_insert(0);
        *sum = sum.saturating_add(amount);
        Ok(())
    }
}
