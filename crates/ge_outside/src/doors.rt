// A door: connections come in by it and are given back to it.
ghost use Rattle.std.specs.Prelude.{◌≡◌, ◌+◌, ℕ, List, Option, IfOk, OnOk, OnErr};
ghost use Rattle.ge_outside.specs.Faults.{HasCause};
ghost use Rattle.ge_outside.specs.Doors.{ClosedLink, Opens, Closes, CountsLink};

use crate::{Failed, Link};

/// Where links come in. A door that tells has links that tell.
pub trait Door {
    type Link: Link;

    /// The bytes of each link to come, where the door tells them.
    ghost coming: { Self → Option (List (List ℕ)) };

    /// The links that were given back, in order, where the door tells them.
    ghost closed: { Self → Option (List ClosedLink) };

    /// How often a call of the door has failed. A call that answers `Ok` leaves it.
    ghost door_faults: { Self → ℕ };

    /// How many links with faults were given back.
    ghost link_faults: { Self → ℕ };

    /// Takes the next link, on which nothing was read or written yet. It may wait for one.
    fn accept(&mut self) -> Result<Self::Link, Failed>
        ensures opened { IfOk result (λ link. Opens (coming self.old) (coming self.new) (Self.Link.rest link) (Self.Link.written link)) }
        ensures read_faults { IfOk result (λ link. Self.Link.read_faults link ≡ 0) }
        ensures write_faults { IfOk result (λ link. Self.Link.write_faults link ≡ 0) }
        ensures kept { OnErr result (coming self.new ≡ coming self.old) }
        ensures closed { closed self.new ≡ closed self.old }
        ensures link_faults { link_faults self.new ≡ link_faults self.old }
        ensures cause { HasCause (door_faults self.old) (door_faults self.new) result }
        ensures no_fault { OnOk result (door_faults self.new ≡ door_faults self.old) };

    /// Gives a link back. Where that fails the link is dropped.
    fn close(&mut self, link: Self::Link) -> Result<(), Failed>
        ensures closed { OnOk result (Closes (closed self.old) (closed self.new) (Self.Link.rest link) (Self.Link.written link)
            (Self.Link.read_faults link + Self.Link.write_faults link)) }
        ensures counted { OnOk result (CountsLink (link_faults self.old) (link_faults self.new)
            (Self.Link.read_faults link + Self.Link.write_faults link)) }
        ensures kept { OnErr result (closed self.new ≡ closed self.old) }
        ensures uncounted { OnErr result (link_faults self.new ≡ link_faults self.old) }
        ensures coming { coming self.new ≡ coming self.old }
        ensures cause { HasCause (door_faults self.old) (door_faults self.new) result }
        ensures no_fault { OnOk result (door_faults self.new ≡ door_faults self.old) };
}
