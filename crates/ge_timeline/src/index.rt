// The numbers of limits.
ghost use Rattle.std.specs.Prelude.{◌≡◌, ◌<◌, [], ◌∷◌, length, slice_index, Option, OnOk};
ghost use Rattle.ge_timeline.specs.Shown.{number_in};
ghost use Rattle.ge_timeline.specs.Scattered.{bucket_of};
ghost use Rattle.ge_timeline.specs.Chains.{numbers_of, IsChained};

use crate::scattering::bucket_among;
use ge_bookings::is_same_limit;
use ge_rows::LimitId;
use std::alloc::{AllocError, Global};
use std::marker::Model;
use std::mem;

// A limit with its number, and the place of the next older one in its bucket.
#[derive(Drop)]
struct Entry {
    limit: LimitId,
    number: usize,
    next: usize,
}

/// The numbers of limits, found by a scattering of their names. Contracts see the limits with their numbers, the newest
/// first.
///
/// A place is the number of entries up to there, and 0 where there is none. Each bucket has the place of its newest entry.
#[derive(Drop)]
pub(crate) struct Index {
    entries: Vec<Entry>,
    heads: Vec<usize>,
}

impl Model for Index {
    ghost use Rattle.std.specs.Prelude.{List, ℕ, length};
    ghost use Rattle.ge_model_rows.specs.ScheduleRows.{LimitId as Limit};

    ghost Value = { List (Limit × ℕ) };

    ghost use Rattle.ge_timeline.specs.Chains.{numbers_of, IsChained};

    ghost view = { λ i. numbers_of i.entries.items };

    ghost invariant = { λ i. IsChained i.entries.items (length i.heads.items) i.heads.items };
}

// The place of the newest entry in a limit's bucket.
fn first_place(heads: &[usize], limit: &LimitId) -> usize
    ensures { result ≡ slice_index heads.now (bucket_of (length heads.now) limit.now) }
{
    match heads.len() {
        0 => 0,
        size => heads[bucket_among(size, limit)],
    }
}

// The number of a limit, found along its bucket.
fn number_along(entries: &[Entry], heads: &[usize], limit: &LimitId) -> Option<usize>
    requires { IsChained entries.now (length heads.now) heads.now }
    ensures { result ≡ number_in (numbers_of entries.now) limit.now }
{
    let mut place = first_place(heads, limit);
    while place > 0 {
        let entry = &entries[place - 1];
        if is_same_limit(limit, &entry.limit) {
            return Some(entry.number);
        }
        place = entry.next;
    }
    None
}

// Puts a limit with its number before the others.
fn put_entry(
    entries: &mut Vec<Entry>,
    heads: &mut [usize],
    limit: LimitId,
    number: usize,
) -> Result<(), AllocError>
    requires chained { IsChained entries.old.items (length heads.old) heads.old }
    requires some { 0 < length heads.old }
    ensures chained { IsChained entries.new.items (length heads.new) heads.new }
    ensures size { length heads.new ≡ length heads.old }
    ensures more { OnOk result
        (numbers_of entries.new.items ≡ (limit, number) ∷ numbers_of entries.old.items) }
{
    let bucket = bucket_among(heads.len(), &limit);
    entries.push(Entry {
        limit,
        number,
        next: heads[bucket],
    })?;
    heads[bucket] = entries.len();
    Ok(())
}

// Puts the entries into four times as many buckets, so that few of them share one: at most half of the buckets have an entry.
fn make_room(
    alloc: Global,
    entries: &mut Vec<Entry>,
    heads: &mut Vec<usize>,
) -> Result<(), AllocError>
    requires { IsChained entries.old.items (length heads.old.items) heads.old.items }
    ensures chained { IsChained entries.new.items (length heads.new.items) heads.new.items }
    ensures some { OnOk result (0 < length heads.new.items) }
    ensures same { OnOk result (numbers_of entries.new.items ≡ numbers_of entries.old.items) }
{
    let size = heads.len().saturating_mul(4).max(64);
    let room = Vec::with_capacity(alloc, entries.len())?;
    *heads = vec![in alloc; 0; size]?;
    let older = mem::replace(entries, room);
    for Entry { limit, number, .. } in older {
        put_entry(entries, heads.as_mut_slice(), limit, number)?;
    }
    Ok(())
}

impl Index {
    /// No limit has a number. It takes no memory.
    pub(crate) fn new(alloc: Global) -> Index
        ensures { result ≡ [] }
    {
        Index {
            entries: Vec::new(alloc),
            heads: Vec::new(alloc),
        }
    }

    /// The number of a limit, if it has one.
    pub(crate) fn number_of(&self, limit: &LimitId) -> Option<usize>
        ensures { result ≡ number_in self.now limit.now }
    {
        number_along(self.entries.as_slice(), self.heads.as_slice(), limit)
    }

    /// Gives a limit a number.
    pub(crate) fn give(
        &mut self,
        alloc: Global,
        limit: LimitId,
        number: usize,
    ) -> Result<(), AllocError>
        ensures { OnOk result (self.new ≡ (limit, number) ∷ self.old) }
    {
        if self.entries.len() >= self.heads.len() / 2 {
            make_room(alloc, &mut self.entries, &mut self.heads)?;
        }
        put_entry(&mut self.entries, self.heads.as_mut_slice(), limit, number)
    }
}
