//! Candidates, tickets, urgency, priority and the order of a run.
//!
//! Definitions alone, without code.
//!
//! - `Candidates`: the jobs that a run looks at. `Tickets`: functional and override tickets.
//! - `ShareTree`: which nodes are walked. `ShareTables`: amounts by node, the leaves by scope and name. `Share`: share tickets.
//! - `ShareRule`: walk, leaves and tickets in the rule's own words, each node asking the whole tree.
//! - `Urgency`, `Priority`: the parts of a priority, and the order of a run. `Amounts`: sums that are cut.
//!
//! Among the proofs: the order lists each eligible task of its jobs once, by rank (`Sorting`); lists of tickets and priorities have one
//! row for each candidate (`Lists`); each share node is walked once, below different ones, and the walk by id is that of the rule
//! (`Walked`); share tickets by tables are those of the rule (`ShareRuled`; of leaves `ShareLeaves`, of sums once a parent
//! `ShareTotals`, of amounts along lines `ShareLines`, of what is divided `ShareDivided`).
#![tactic(auto)]
