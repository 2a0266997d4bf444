//! What the master answers: the plan of every command, the trace of a list of events and its output.
//!
//! Definitions alone, without code. `Plan` leads to one file for each family of commands; `Trace` has the replies to a
//! list of events, one after the other; `Scripts` runs all of it on a script: what is written, and the cluster that is
//! left.
//!
//! Among the proofs: every event is accepted or refused, and a refused one changes nothing (`Refused`); whether a job
//! would wait for itself needs no more steps than there are predecessors (`ReachingSteps`).
#![tactic(auto)]
