//! What every other crate speaks in: the refusals of a command with the codes of their replies, and
//! whole numbers that are cut at the end of 128 bits in place of wrapping.
//!
//! A reply's first line begins with a code: 0 where the command was carried out, and otherwise the code
//! of the refusal ([`code`]). Tickets, urgency and usage are sums of products that no cluster brings near
//! 2^128; a spool may hold any numbers, so each sum and product is cut there ([`sum_of`],
//! [`product_of`]), and usage that decays is divided by a power of two that may be far larger
//! ([`halved`]). Nothing here takes memory.
#![tactic(auto)]

mod fixed;
mod refusal;

pub use fixed::{halved, product_of, sum_of};
pub use refusal::{Refusal, code};

#[cfg(test)]
mod tests;
