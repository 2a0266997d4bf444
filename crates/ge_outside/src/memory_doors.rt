// A door in memory.
ghost use Rattle.std.specs.Prelude.{◌≡◌, ◌↔◌, ◌⊎◌, ◌+◌, List, [], IsTrue, Some, map, reverse, IfOk, IsErr, OnErr, OnOk};
ghost use Rattle.std.specs.List.{list_all};
ghost use Rattle.ge_outside.specs.Faults.{HasCause};
ghost use Rattle.ge_outside.specs.Memory.{is_unused, link_rest};

use crate::schedules::Schedule;
use crate::{Door, Failed, MemLink};
use std::alloc::Global;

/// A door in memory by which given links come, and of which chosen calls fail.
#[derive(Drop)]
pub struct MemDoor {
    // the next link is the last
    links: Vec<MemLink>,
    closed: Vec<MemLink>,
    schedule: Schedule,
    door_faults: u64,
    link_faults: u64,
    ghost unused: { IsTrue (list_all is_unused links.items) },
}

// The links in the opposite order.
fn turned(mut links: Vec<MemLink>) -> Vec<MemLink>
    ensures { result.items ≡ reverse links.items }
{
    links.as_mut_slice().reverse();
    links
}

impl MemDoor {
    ghost use Rattle.ge_outside.specs.MemoryDoors.{door_coming, door_closed, door_schedule, door_faults, door_link_faults, closed_link};

    /// A door by which these links come, in order. On none of them a call was made yet. The calls of the
    /// door whose numbers, counted from 1, are in `fails` fail, and so does one that finds no link.
    pub fn new(alloc: Global, links: Vec<MemLink>, fails: Vec<u64>) -> Self
        requires { IsTrue (list_all is_unused links.items) }
        ensures coming { door_coming result ≡ map link_rest links.items }
        ensures closed { door_closed result ≡ [] }
        ensures door_faults { door_faults result ≡ 0 }
        ensures link_faults { door_link_faults result ≡ 0 }
        ensures schedule { door_schedule result ≡ record { fails = fails; calls = 0 } }
    {
        MemDoor {
            links: turned(links),
            closed: Vec::new(alloc),
            schedule: Schedule::new(fails),
            door_faults: 0,
            link_faults: 0,
        }
    }

    /// The links that were given back.
    pub fn closed_links(&self) -> &[MemLink]
        ensures { map closed_link result.now ≡ door_closed self.now }
    {
        self.closed.as_slice()
    }
}

impl Door for MemDoor {
    ghost use Rattle.ge_outside.specs.MemoryDoors.{door_coming, door_closed, door_schedule, door_faults, door_link_faults};
    ghost use Rattle.ge_outside.specs.Memory.{link_rest, link_written, link_read_faults, link_write_faults};
    ghost use Rattle.ge_outside.specs.Doors.{Opens, Closes, CountsLink};
    ghost use Rattle.ge_outside.specs.Schedules.{IsDue, next_call};

    type Link = MemLink;

    ghost coming = { λ d. Some (door_coming d) };

    ghost closed = { λ d. Some (door_closed d) };

    ghost door_faults = { door_faults };

    ghost link_faults = { door_link_faults };

    /// It fails exactly at the calls that were chosen, and where no link is left.
    fn accept(&mut self) -> Result<MemLink, Failed>
        ensures opened { IfOk result (λ link. Opens (Some (door_coming self.old)) (Some (door_coming self.new)) (Some (link_rest link)) (Some (link_written link))) }
        ensures read_faults { IfOk result (λ link. link_read_faults link ≡ 0) }
        ensures write_faults { IfOk result (λ link. link_write_faults link ≡ 0) }
        ensures kept { OnErr result (door_coming self.new ≡ door_coming self.old) }
        ensures closed { door_closed self.new ≡ door_closed self.old }
        ensures link_faults { door_link_faults self.new ≡ door_link_faults self.old }
        ensures cause { HasCause (door_faults self.old) (door_faults self.new) result }
        ensures no_fault { OnOk result (door_faults self.new ≡ door_faults self.old) }
        ensures due { IsErr result ↔ (IsDue (door_schedule self.old) ⊎ (door_coming self.old ≡ [])) }
        ensures counted { door_schedule self.new ≡ next_call (door_schedule self.old) }
    {
        if !self.schedule.next_fails() {
            if let Some(link) = self.links.pop() {
                return Ok(link);
            }
        }
        self.door_faults = self.door_faults.saturating_add(1);
        Err(Failed)
    }

    /// It fails at the calls that were chosen, and where there is no memory.
    fn close(&mut self, link: MemLink) -> Result<(), Failed>
        ensures closed { OnOk result (Closes (Some (door_closed self.old)) (Some (door_closed self.new)) (Some (link_rest link)) (Some (link_written link))
            (link_read_faults link + link_write_faults link)) }
        ensures counted { OnOk result (CountsLink (door_link_faults self.old) (door_link_faults self.new) (link_read_faults link + link_write_faults link)) }
        ensures kept { OnErr result (door_closed self.new ≡ door_closed self.old) }
        ensures uncounted { OnErr result (door_link_faults self.new ≡ door_link_faults self.old) }
        ensures coming { door_coming self.new ≡ door_coming self.old }
        ensures cause { HasCause (door_faults self.old) (door_faults self.new) result }
        ensures no_fault { OnOk result (door_faults self.new ≡ door_faults self.old) }
        ensures due { IsDue (door_schedule self.old) → IsErr result }
        ensures calls { door_schedule self.new ≡ next_call (door_schedule self.old) }
    {
        let has_failed = link.has_failed();
        if self.schedule.next_fails() || self.closed.push(link).is_err() {
            self.door_faults = self.door_faults.saturating_add(1);
            return Err(Failed);
        }
        if has_failed {
            self.link_faults = self.link_faults.saturating_add(1);
        }
        Ok(())
    }
}
