// What a task finds at an instance in its window.
ghost use Rattle.std.specs.Prelude.{◌≡◌, [], cond, IfSome, true};
ghost use Rattle.ge_attempts.specs.Rests.{are_short as all_short_of, are_short_then as all_short_then, found_of as found_by, is_inside as inside, IsFound, FindsAt};
ghost use Rattle.ge_attempts.specs.declared.looking.Found.TheVariants.{Enough, TooLittle};

use crate::rests::{Rest, are_short, is_short, left_then};
use crate::setting::Setting;
use ge_demands::Counted;
use ge_timeline::Timeline;

/// What a task asks for over what is booked, and its window, in seconds.
#[derive(Clone, Copy)]
pub(crate) struct Look<'a> {
    pub(crate) booked: &'a Timeline,
    pub(crate) asked: &'a [Counted],
    pub(crate) from: u64,
    pub(crate) until: u64,
}

/// What a task finds at an instance.
#[derive(Clone, Copy)]
pub(crate) enum Found {
    /// Nothing keeps it away.
    Enough,
    /// It takes no slot there.
    TooLittle,
    /// Neither does a task of any job whose window has the first moment of this one.
    Nothing,
}

fn is_inside(known: Option<u64>, from: u64, until: u64) -> bool
    ensures { result ≡ inside from until known }
{
    match known {
        Some(moment) => from <= moment && moment < until,
        None => false,
    }
}

fn found_of(look: &Look<'_>, rest: &Rest) -> Found
    ensures { result ≡ found_by look.now.booked.now look.now.from look.now.asked.now rest.now }
{
    let left = left_then(look.booked, look.from, rest);
    if left < rest.least {
        return Found::Nothing;
    }
    if is_short(look.asked, &rest.resource, left) {
        return Found::TooLittle;
    }
    Found::Enough
}

// By what is booked at the first moment of the window. The walk ends at the first limit of which too little is left.
fn found_then(look: &Look<'_>, rests: &[Rest]) -> Found
    ensures { IsFound look.now.booked.now look.now.from look.now.asked.now rests.now result }
{
    for rest in rests {
        match found_of(look, rest) {
            Found::Enough => {}
            Found::TooLittle => return Found::TooLittle,
            Found::Nothing => return Found::Nothing,
        }
    }
    Found::Enough
}

// By what is known to be left now, so that nothing is looked up.
fn found_now(look: &Look<'_>, rests: &[Rest]) -> Found
    ensures { result ≡ cond (all_short_of look.now.asked.now rests.now) TooLittle Enough }
{
    if are_short(look.asked, rests) {
        return Found::TooLittle;
    }
    Found::Enough
}

/// What a task finds at an instance in its window, of which a moment may be known at which too little is left for any job.
pub(crate) fn found_at(
    at: &Setting<'_>,
    look: &Look<'_>,
    known: Option<u64>,
    rests: &[Rest],
) -> Found
    requires { IfSome known (λ moment.
        all_short_then look.now.booked.now moment [] rests.now ≡ true) }
    ensures { FindsAt at.now.moment look.now.booked.now look.now.from look.now.until
        look.now.asked.now rests.now result }
{
    if is_inside(known, look.from, look.until) {
        return Found::TooLittle;
    }
    let is_now = look.from == at.moment;
    if is_now {
        return found_now(look, rests);
    }
    found_then(look, rests)
}
