//! Bodies: what they configure, when they are refused, what is printed, what is used; and requests.
//!
//! Definitions alone, without code.
//!
//! - One file for each manual page, in which a body is read and an item printed: `Queues`, `Hosts`, `Groups`,
//!   `Environments`, `UserSets`, `People`, `Settings`, `Quotas`, `Complexes` with `Columns`, `Shares`. `Cited`, `Named`,
//!   `Pairs` and `Overrides` have what several share. `Reading` and `Printing` lead from a kind of object to its file;
//!   a host, a group and a user set are printed in `Printing`, in two lines each.
//! - `Used`: what is there and what is used. `Requests`: what -l, -q and -pe ask for.
//!
//! Each reader gives an item, with a default where a value is bad, and the refusals whose conditions hold.
#![tactic(auto)]
