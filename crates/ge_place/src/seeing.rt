//! Instances that slots may be given at, each looked at once a slot may be given there.
ghost use Rattle.std.specs.Prelude.{◌≡◌, map, IfOk};
ghost use Rattle.ge_place.specs.Spots.{cell_in, IsSeen};

use crate::searching::Search;
use crate::spots::{Sight, look};
use ge_rows::InstanceId;
use std::alloc::{AllocError, Global};
use std::marker::Model;

/// An instance that slots may be given at. Contracts see the model's `Cell` of it, before any slot is given.
///
/// What is there is seen when it is asked for the first time: where few instances get all slots, the others aren't looked at.
#[derive(Drop)]
pub(crate) struct Spot<'a> {
    search: &'a Search<'a>,
    instance: &'a InstanceId,
    seen: Option<Sight>,
}

impl<'a> Model for Spot<'a> {
    ghost use Rattle.std.specs.Option.{ForSome};
    ghost use Rattle.ge_model_place.specs.Placement.{Cell};
    ghost use Rattle.ge_place.specs.Spots.{cell_in, IsSeen};

    ghost Value = { Cell };

    ghost view = { λ s. cell_in s.search.now s.instance.now };

    ghost invariant = { λ s. ForSome s.seen
        (λ sight. IsSeen (cell_in s.search.now s.instance.now) sight) };
}

impl<'a> Spot<'a> {
    fn new(search: &'a Search<'a>, instance: &'a InstanceId) -> Spot<'a>
        ensures { result ≡ cell_in search.now instance.now }
    {
        Spot {
            search,
            instance,
            seen: None,
        }
    }

    /// The instance.
    pub(crate) fn instance(&self) -> &'a InstanceId
        ensures { result.now ≡ self.now.at }
    {
        self.instance
    }

    /// What is seen there, which the caller keeps by [`Spot::keep`].
    pub(crate) fn sight(&mut self, alloc: Global) -> Result<Sight, AllocError>
        ensures same { self.new ≡ self.old }
        ensures seen { IfOk result (λ sight. IsSeen self.old sight) }
    {
        match self.seen.take() {
            Some(sight) => Ok(sight),
            None => look(alloc, self.search, self.instance),
        }
    }

    /// Keeps what was seen.
    pub(crate) fn keep(&mut self, sight: Sight)
        requires { IsSeen self.old sight }
        ensures { self.new ≡ self.old }
    {
        self.seen = Some(sight);
    }
}

/// The instances in their order, before any slot is given. None is looked at yet.
pub(crate) fn all_spots<'a>(
    alloc: Global,
    search: &'a Search<'a>,
    order: &'a [InstanceId],
) -> Result<Vec<Spot<'a>>, AllocError>
    ensures { IfOk result (λ spots. spots.items ≡ map (cell_in search.now) order.now) }
{
    let mut spots = Vec::with_capacity(alloc, order.len())?;
    for at in order {
        spots.push(Spot::new(search, at))?;
    }
    Ok(spots)
}
