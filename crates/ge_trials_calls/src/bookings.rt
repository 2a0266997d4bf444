//! Bookings of limits over time, as a list and as a timeline, and the greatest sums that both
//! tell.

use ge_base::{product_of, sum_of};
use ge_bookings::{end_of_window, peak, sum_at};
use ge_pieces::{
    before, behind, behind_word, digits_worth, first_word, has, is_in, is_word, slices_at,
};
use ge_printing::append_decimal;
use ge_rows::{Booking, Demand, InstanceId, LimitId, List, TaskId, Text};
use ge_timeline::Timeline;
use ge_trials_rows::{checksum, made};
use std::alloc::{AllocError, Global};

/// What is booked, twice.
#[derive(Drop)]
struct Booked {
    list: List<Booking>,
    timeline: Timeline,
}

// The first two words of a text, and what stands behind them.
fn first_two(text: &[u8]) -> (&[u8], &[u8], &[u8]) {
    let rest = behind_word(text);
    (first_word(text), first_word(rest), behind_word(rest))
}

// What digits are worth, cut at 2^128 - 1.
fn amount_of(digits: &[u8]) -> u128 {
    let mut worth: u128 = 0;
    for digit in digits {
        worth = sum_of(
            product_of(worth, 10),
            u128::from(digit.saturating_sub(b'0')),
        );
    }
    worth
}

// The slots of an instance, which is written QUEUE@HOST; else the memory of a host.
fn limit_of(alloc: Global, word: &[u8]) -> Result<LimitId, AllocError> {
    if has(b'@', word) {
        let queue = Text::from_bytes(alloc, before(b'@', word))?;
        let host = Text::from_bytes(alloc, behind(b'@', word))?;
        let name = Text::from_bytes(alloc, b"slots")?;
        Ok(LimitId::Instance(InstanceId { queue, host }, name))
    } else {
        let host = Text::from_bytes(alloc, word)?;
        let name = Text::from_bytes(alloc, b"mem")?;
        Ok(LimitId::Host(host, name))
    }
}

// The booking of a job's first task: LIMIT JOB AMOUNT FROM UNTIL.
fn booking(alloc: Global, given: &[u8]) -> Result<Booking, AllocError> {
    let (limit, job, rest) = first_two(given);
    let (amount, from, until) = first_two(rest);
    let job = digits_worth(job).min(u64::from(u32::MAX)) as u32;
    let mut demands = List::new(alloc);
    demands.push(Demand {
        limit: limit_of(alloc, limit)?,
        amount: amount_of(amount),
    })?;
    Ok(Booking {
        task: TaskId { job, task: 1 },
        demands,
        from: digits_worth(from),
        until: digits_worth(until),
    })
}

// The place of the first booking that equals one.
fn place_of(list: &[Booking], gone: &Booking) -> Option<usize> {
    for (place, booking) in list.iter().enumerate() {
        if booking == gone {
            return Some(place);
        }
    }
    None
}

fn drop_from(list: &mut List<Booking>, gone: &Booking) {
    if let Some(place) = place_of(list.items(), gone) {
        if place < list.len() {
            let _ = list.remove(place);
        }
    }
}

impl Booked {
    fn new(alloc: Global) -> Result<Booked, AllocError> {
        Ok(Booked {
            list: List::new(alloc),
            timeline: Timeline::new(alloc)?,
        })
    }

    fn add(&mut self, alloc: Global, given: &[u8]) -> Result<(), AllocError> {
        self.list.push(booking(alloc, given)?)?;
        self.timeline.add(booking(alloc, given)?)
    }

    fn remove(&mut self, alloc: Global, given: &[u8]) -> Result<bool, AllocError> {
        let gone = booking(alloc, given)?;
        drop_from(&mut self.list, &gone);
        self.timeline.remove(&gone)
    }
}

// The greatest sum of a window, whether one exceeds it, and whether one exceeds what is one less.
fn push_most(
    alloc: Global,
    text: &mut Vec<u8>,
    timeline: &Timeline,
    given: &[u8],
) -> Result<(), AllocError> {
    let (limit, from, until) = first_two(given);
    let limit = limit_of(alloc, limit)?;
    let (from, until) = (digits_worth(from), digits_worth(until));
    let most = timeline.greatest(&limit, from, until);
    let above = timeline.is_above(&limit, from, until, most);
    let above_less = timeline.is_above(&limit, from, until, most.saturating_sub(1));
    append_decimal(text, most)?;
    text.extend_from_slice(format!(in alloc; " {above} {above_less}\n")?.as_bytes())
}

// The sum of a limit at a moment or its greatest of a window, by the list.
fn sum_of_limit(
    alloc: Global,
    list: &List<Booking>,
    word: &[u8],
    given: &[u8],
) -> Result<u128, AllocError> {
    let (limit, from, until) = first_two(given);
    let limit = limit_of(alloc, limit)?;
    let (from, until) = (digits_worth(from), digits_worth(until));
    if is_word(word, b"sum") {
        Ok(sum_at(list, &limit, from))
    } else {
        Ok(peak(list, &limit, from, until))
    }
}

// The next end behind a moment, or 0.
fn next_end(timeline: &Timeline, moment: &[u8]) -> u64 {
    timeline.next_end_after(digits_worth(moment)).unwrap_or(0)
}

// What a row answers, behind the answers before it.
fn answer(
    alloc: Global,
    text: &mut Vec<u8>,
    booked: &mut Booked,
    word: &[u8],
    given: &[u8],
) -> Result<(), AllocError> {
    if is_word(word, b"book") {
        return booked.add(alloc, given);
    }
    if is_word(word, b"take") {
        let found = booked.remove(alloc, given)?;
        return text.extend_from_slice(format!(in alloc; "{found}\n")?.as_bytes());
    }
    if is_word(word, b"most") {
        return push_most(alloc, text, &booked.timeline, given);
    }
    let number = if is_word(word, b"next") {
        u128::from(next_end(&booked.timeline, given))
    } else if is_word(word, b"end") {
        let (from, duration) = (first_word(given), behind_word(given));
        u128::from(end_of_window(digits_worth(from), digits_worth(duration)))
    } else if is_in(word, &[b"sum", b"peak"]) {
        sum_of_limit(alloc, &booked.list, word, given)?
    } else {
        return text.extend_from_slice(b"no such row\n");
    };
    append_decimal(text, number)?;
    text.extend_from_slice(b"\n")
}

// The answers to all rows.
fn answers(alloc: Global, rows: &[u8]) -> Result<Vec<u8>, AllocError> {
    let mut text = Vec::new(alloc);
    let mut booked = Booked::new(alloc)?;
    for row in slices_at(alloc, b'\n', rows)?.as_slice() {
        if !row.is_empty() {
            let (word, given) = (first_word(row), behind_word(row));
            answer(alloc, &mut text, &mut booked, word, given)?;
        }
    }
    Ok(text)
}

/// A page `bookings`: a line that says whether `each` answer or a `checksum` is told, and then the
/// lines of rows that are made. A LIMIT is QUEUE@HOST, an instance's slots, or HOST, a host's
/// memory. `book LIMIT JOB AMOUNT FROM UNTIL` books, and `take` with the same takes out, and
/// answers whether there was one. `sum LIMIT MOMENT` answers a sum, `peak LIMIT FROM UNTIL` the
/// greatest of a window, both by the list of the bookings; `most LIMIT FROM UNTIL` the greatest by
/// the timeline, whether one exceeds it and whether one exceeds one less; `next MOMENT` the next
/// end, or 0; `end FROM DURATION` where a window ends. A checksum stands behind the size of all
/// answers.
pub(crate) fn bookings_page(alloc: Global, body: &[u8]) -> Result<Vec<u8>, AllocError> {
    let (line, lines) = (before(b'\n', body), behind(b'\n', body));
    let rows = made(alloc, lines)?;
    let text = answers(alloc, rows.as_slice())?;
    if is_word(line, b"each") {
        return Ok(text);
    }
    let (size, sum) = (text.len(), checksum(text.as_slice()));
    let told = format!(in alloc; "{size} bytes, {sum}\n")?;
    Vec::from_slice(alloc, told.as_bytes())
}
