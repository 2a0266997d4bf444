//! What two areas of a journal stand for as a value, whatever the value is.
//!
//! Definitions alone: `specs/Reading` has the value that a snapshot with its records holds, `specs/Standing` what two areas stand for
//! or what is wrong in them, `specs/Wholes` the case in which each record is a whole value.
#![tactic(auto)]
