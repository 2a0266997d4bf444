// A reply to `orders` is read.
ghost use Rattle.std.specs.Prelude.{◌≡◌, ◌<◌, ◌≤◌, ◌-◌, ◌^◌, IfSome};
ghost use Rattle.ge_execd.specs.Orders.{number_to, run_in, line_in, line_serial, line_above, orders_from, or_bad, orders_in};
ghost use Rattle.ge_execd.specs.Shows.{Reads};

use crate::rows::{Order, OrderLine, WorkFault};
use ge_limits::LAST_SERIAL;
use ge_pieces::{before, behind, digits_worth, is_decimal_number, is_word};
use ge_rows::{List, Reply, Text};
use std::alloc::Global;

// The number up to a greatest one that a text is.
fn read_number(greatest: u64, text: &[u8]) -> Option<u64>
    requires { greatest < 2 ^ 64 - 1 }
    ensures number { result ≡ number_to greatest text.now }
    ensures within { IfSome result (λ n. n ≤ greatest) }
{
    if !is_decimal_number(text) {
        return None;
    }
    let value = digits_worth(text);
    if value <= greatest { Some(value) } else { None }
}

// A number of 32 bits.
fn read_short(text: &[u8]) -> Option<u32>
    ensures { result ≡ number_to u32.MAX text.now }
{
    let value = read_number(u64::from(u32::MAX), text)?;
    Some(value as u32)
}

// SERIAL JOB TASK SLOTS.
fn read_run(text: &[u8]) -> Option<Order>
    ensures { result ≡ run_in text.now }
{
    let jobs = behind(b' ', text);
    let tasks = behind(b' ', jobs);
    let serial = read_number(LAST_SERIAL, before(b' ', text))?;
    let job = read_short(before(b' ', jobs))?;
    let task = read_short(before(b' ', tasks))?;
    let slots = read_short(behind(b' ', tasks))?;
    Some(Order {
        serial,
        job,
        task,
        slots,
    })
}

// The order that a line is.
fn read_line(line: &[u8]) -> Option<OrderLine>
    ensures { result ≡ line_in line.now }
{
    let word = before(b' ', line);
    let text = behind(b' ', line);
    if is_word(word, b"run") {
        let order = read_run(text)?;
        return Some(OrderLine::Run(order));
    }
    if is_word(word, b"kill") {
        let serial = read_number(LAST_SERIAL, text)?;
        return Some(OrderLine::Kill(serial));
    }
    None
}

pub(crate) fn serial_of(line: OrderLine) -> u64
    ensures { result ≡ line_serial line }
{
    match line {
        OrderLine::Run(order) => order.serial,
        OrderLine::Kill(serial) => serial,
    }
}

// The order that a line is, where its serial is above one.
fn read_above(last: u64, line: &[u8]) -> Option<OrderLine>
    ensures { result ≡ line_above last (line_in line.now) }
{
    let order = read_line(line)?;
    if last < serial_of(order) {
        Some(order)
    } else {
        None
    }
}

// The orders that lines are.
fn read_lines(alloc: Global, lines: &[Text]) -> Result<List<OrderLine>, WorkFault>
    ensures { Reads result (or_bad (orders_from 0 0 lines.now)) }
{
    let mut orders = List::new(alloc);
    let mut last = 0;
    let mut place = 0;
    for line in lines {
        match read_above(last, line.bytes()) {
            Some(order) => {
                orders.push(order)?;
                last = serial_of(order);
            }
            None => return Err(WorkFault::Bad(place)),
        }
        place += 1;
    }
    Ok(orders)
}

/// The orders of a reply.
#[tactic(auto, unfolding(crate::specs::Orders::orders_in))]
pub(crate) fn read_orders(alloc: Global, reply: &Reply) -> Result<List<OrderLine>, WorkFault>
    ensures { Reads result (orders_in reply.now) }
{
    if reply.code != 0 {
        return Err(WorkFault::Refused(reply.code));
    }
    let orders = read_lines(alloc, reply.lines.items())?;
    Ok(orders)
}
